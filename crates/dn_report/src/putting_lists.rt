// Printing lists of pairs and of members.

ghost use Rattle.std.specs.Prelude.{◌≡◌, ◌++◌, ◌∷◌, codes, OnOk};
ghost use Rattle.std.specs.List.{flat_map};
ghost use Rattle.dn_lines.specs.Form.{spaced};
ghost use Rattle.dn_lines.specs.Fields.{member};
ghost use Rattle.dn_report.specs.Forms.{pair, listed_line, corrupt_header};

use crate::pairs::ListedPair;
use dn_lines::{add_member, add_number, put_number};
use dn_memory::NoMemory;
use dn_wire::{Member, Round, put_bytes, put_u8};

/// Appends a blank and a pair.
fn add_pair(out: &mut Vec<u8>, listed: ListedPair) -> Result<(), NoMemory>
    ensures { OnOk result (out.new.items ≡ out.old.items ++ 32 ∷ pair.spell listed) }
{
    add_number(out, u64::from(listed.client.0))?;
    put_u8(out, b'/')?;
    put_number(out, u64::from(listed.server.0))
}

fn add_pairs(out: &mut Vec<u8>, pairs: &[ListedPair]) -> Result<(), NoMemory>
    ensures { OnOk result (out.new.items ≡ out.old.items ++ flat_map (λ p. 32 ∷ pair.spell p) pairs.now) }
{
    for listed in pairs {
        add_pair(out, *listed)?;
    }
    Ok(())
}

pub fn put_listed(out: &mut Vec<u8>, r: Round, pairs: &[ListedPair]) -> Result<(), NoMemory>
    ensures { OnOk result (out.new.items ≡ out.old.items ++ spaced (codes "listed" ∷ listed_line.spell (r, pairs.now))) }
{
    put_bytes(out, b"listed")?;
    add_number(out, r.0)?;
    add_pairs(out, pairs)?;
    Ok(())
}

fn add_members(out: &mut Vec<u8>, members: &[Member]) -> Result<(), NoMemory>
    ensures { OnOk result (out.new.items ≡ out.old.items ++ flat_map (λ m. 32 ∷ member.spell m) members.now) }
{
    for member in members {
        add_member(out, *member)?;
    }
    Ok(())
}

pub fn put_corrupt_header(out: &mut Vec<u8>, members: &[Member]) -> Result<(), NoMemory>
    ensures { OnOk result (out.new.items ≡ out.old.items ++ spaced (codes "corrupt" ∷ corrupt_header.spell members.now)) }
{
    put_bytes(out, b"corrupt")?;
    add_members(out, members)?;
    Ok(())
}
