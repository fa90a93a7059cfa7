// Reading statements.

ghost use Rattle.std.specs.Prelude.{◌≡◌};
ghost use Rattle.dn_record_types.specs.Part.{Reads};
ghost use Rattle.dn_record_types.specs.Fields.{up_to};
ghost use Rattle.dn_record_types.specs.Lists.{read_inside};
ghost use Rattle.dn_record_types.specs.Records.{inventory, body, thin_in, told, statement, read_kind, read_statement, read_submission, read_receipt, read_inventory, read_commit, read_reveal, read_sign, read_pad_bits, read_shown, read_accusation, read_rebuttal, read_concede};

use crate::reading::{
    bits_of, client_of, digest_of, few_of, flag_of, inner_of, limited_bytes_of, limited_of,
    round_of, server_of, slot_of, u8_of, u32_of,
};
use crate::reading_lists::{digests_of, entries_of, rows_of, shown_of};
use dn_record_types::{Body, Inventory, RecordFault, Statement, WordTold};
use dn_wire::{MAX_CARRIED_BYTES, Reader};
use std::alloc::Global;

fn inventory_of(alloc: Global, reader: &mut Reader) -> Result<Inventory, RecordFault>
    ensures { Reads (λ x. x) result reader.new (inventory.read reader.old) }
{
    let r = round_of(reader)?;
    let prev = round_of(reader)?;
    let entries = entries_of(alloc, reader)?;
    Ok(Inventory { r, prev, entries })
}

/// Whether a body of this version is thin.
#[tactic(auto, unfolding(dn_record_types::specs::Records::read_thin))]
fn thin_of(reader: &mut Reader, version: u8) -> Result<bool, RecordFault>
    ensures { Reads (λ x. x) result reader.new ((thin_in version).read reader.old) }
{
    if version == 2 {
        flag_of(reader)
    } else {
        Ok(false)
    }
}

pub fn body_of(alloc: Global, reader: &mut Reader) -> Result<Body, RecordFault>
    ensures { Reads (λ x. x) result reader.new (body.read reader.old) }
{
    let version = few_of(reader, 2)?;
    let r = round_of(reader)?;
    let prev = round_of(reader)?;
    let thin = thin_of(reader, version)?;
    let listed = rows_of(alloc, reader)?;
    let digests = digests_of(alloc, reader)?;
    let out = bits_of(alloc, reader)?;
    Ok(Body {
        version,
        r,
        prev,
        thin,
        listed,
        digests,
        out,
    })
}

fn told_of(reader: &mut Reader) -> Result<WordTold, RecordFault>
    ensures { Reads (λ x. x) result reader.new (told.read reader.old) }
{
    if few_of(reader, 2)? == 1 {
        Ok(WordTold::Included)
    } else {
        Ok(WordTold::Late)
    }
}

#[tactic(auto, unfolding(dn_record_types::specs::Records::read_submission))]
fn submission_of(reader: &mut Reader) -> Result<Statement, RecordFault>
    ensures { Reads (λ x. x) result reader.new (read_submission reader.old) }
{
    let r = round_of(reader)?;
    let prev = round_of(reader)?;
    let client = client_of(reader)?;
    let digest = digest_of(reader)?;
    Ok(Statement::Submission {
        r,
        prev,
        client,
        digest,
    })
}

#[tactic(auto, unfolding(dn_record_types::specs::Records::read_receipt))]
fn receipt_of(reader: &mut Reader) -> Result<Statement, RecordFault>
    ensures { Reads (λ x. x) result reader.new (read_receipt reader.old) }
{
    let r = round_of(reader)?;
    let client = client_of(reader)?;
    let digest = digest_of(reader)?;
    let told = told_of(reader)?;
    Ok(Statement::Receipt {
        r,
        client,
        digest,
        told,
    })
}

#[tactic(auto, unfolding(dn_record_types::specs::Records::read_commit))]
fn commit_of(reader: &mut Reader) -> Result<Statement, RecordFault>
    ensures { Reads (λ x. x) result reader.new (read_commit reader.old) }
{
    let r = round_of(reader)?;
    let digest = digest_of(reader)?;
    Ok(Statement::Commit { r, digest })
}

#[tactic(auto, unfolding(dn_record_types::specs::Records::read_reveal))]
fn reveal_of(alloc: Global, reader: &mut Reader) -> Result<Statement, RecordFault>
    ensures { Reads (λ x. x) result reader.new (read_reveal reader.old) }
{
    let r = round_of(reader)?;
    let s = bits_of(alloc, reader)?;
    Ok(Statement::Reveal { r, s })
}

#[tactic(auto, unfolding(dn_record_types::specs::Records::read_pad_bits))]
fn pad_bits_of(alloc: Global, reader: &mut Reader) -> Result<Statement, RecordFault>
    ensures { Reads (λ x. x) result reader.new (read_pad_bits reader.old) }
{
    let r = round_of(reader)?;
    let k = u32_of(reader)?;
    let bits = bits_of(alloc, reader)?;
    Ok(Statement::PadBits { r, k, bits })
}

#[tactic(auto, unfolding(dn_record_types::specs::Records::read_shown))]
fn shown_statement_of(alloc: Global, reader: &mut Reader) -> Result<Statement, RecordFault>
    ensures { Reads (λ x. x) result reader.new (read_shown reader.old) }
{
    let r = round_of(reader)?;
    let s = bits_of(alloc, reader)?;
    let shown = shown_of(alloc, reader)?;
    Ok(Statement::Shown { r, s, shown })
}

#[tactic(auto, unfolding(dn_record_types::specs::Records::read_accusation))]
fn accusation_of(reader: &mut Reader) -> Result<Statement, RecordFault>
    ensures { Reads (λ x. x) result reader.new (read_accusation reader.old) }
{
    let r = round_of(reader)?;
    let slot = slot_of(reader)?;
    let k = u32_of(reader)?;
    Ok(Statement::Accusation { r, slot, k })
}

#[tactic(auto, unfolding(dn_record_types::specs::Records::read_rebuttal))]
fn rebuttal_of(alloc: Global, reader: &mut Reader) -> Result<Statement, RecordFault>
    ensures { Reads (λ x. x) result reader.new (read_rebuttal reader.old) }
{
    let r = round_of(reader)?;
    let k = u32_of(reader)?;
    let server = server_of(reader)?;
    let seed = digest_of(reader)?;
    let envelope = limited_bytes_of(alloc, reader, MAX_CARRIED_BYTES)?;
    Ok(Statement::Rebuttal {
        r,
        k,
        server,
        seed,
        envelope,
    })
}

#[tactic(auto, unfolding(dn_record_types::specs::Records::read_concede))]
fn concede_of(reader: &mut Reader) -> Result<Statement, RecordFault>
    ensures { Reads (λ x. x) result reader.new (read_concede reader.old) }
{
    let r = round_of(reader)?;
    let k = u32_of(reader)?;
    Ok(Statement::Concede { r, k })
}

#[tactic(auto, unfolding(dn_record_types::specs::Records::read_inventory))]
fn inventory_statement_of(alloc: Global, reader: &mut Reader) -> Result<Statement, RecordFault>
    ensures { Reads (λ x. x) result reader.new (read_inventory reader.old) }
{
    Ok(Statement::Inventory(inventory_of(alloc, reader)?))
}

#[tactic(auto, unfolding(dn_record_types::specs::Records::read_sign))]
fn sign_of(alloc: Global, reader: &mut Reader) -> Result<Statement, RecordFault>
    ensures { Reads (λ x. x) result reader.new (read_sign reader.old) }
{
    Ok(Statement::Sign(body_of(alloc, reader)?))
}

#[tactic(auto, unfolding(dn_record_types::specs::Records::read_kind))]
fn kind_of(alloc: Global, kind: u8, reader: &mut Reader) -> Result<Statement, RecordFault>
    ensures { Reads (λ x. x) result reader.new (read_kind kind reader.old) }
{
    match kind {
        1 => submission_of(reader),
        2 => receipt_of(reader),
        3 => inventory_statement_of(alloc, reader),
        4 => commit_of(reader),
        5 => reveal_of(alloc, reader),
        6 => sign_of(alloc, reader),
        7 => pad_bits_of(alloc, reader),
        8 => shown_statement_of(alloc, reader),
        9 => accusation_of(reader),
        10 => rebuttal_of(alloc, reader),
        11 => concede_of(reader),
        _ => Err(RecordFault::Kind { byte: kind }),
    }
}

#[tactic(auto, unfolding(dn_record_types::specs::Records::read_statement))]
pub fn statement_of(alloc: Global, reader: &mut Reader) -> Result<Statement, RecordFault>
    ensures { Reads (λ x. x) result reader.new (read_statement reader.old) }
{
    let kind = u8_of(reader)?;
    kind_of(alloc, kind, reader)
}
