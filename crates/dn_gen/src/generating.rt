ghost use Rattle.std.specs.Prelude.{◌≡◌, ◌++◌, IfOk, OnOk};
ghost use Rattle.dn_gen.specs.Generated.{for_each, seed_of, say_line, open_line, submit_line, round_lines, generated};

use crate::putting::{
    put_group_line, put_leave_line, put_open_line, put_say_line, put_submit_line,
};
use dn_memory::NoMemory;
use dn_wire::put_bytes;
use std::alloc::Global;

const CLIENTS: u32 = 48;

const SERVERS: u32 = 3;

/// The seed of the group: the number in its last eight bytes, the high byte first.
fn seed_of(num: u64) -> [u8; 32]
    ensures { result ≡ seed_of num }
{
    let mut seed = [0; 32];
    seed[24..].copy_from_slice(&num.to_be_bytes());
    seed
}

/// Appends what each client says.
fn put_say_lines(out: &mut Vec<u8>, seed: &[u8; 32]) -> Result<(), NoMemory>
    ensures { OnOk result (out.new.items ≡ out.old.items ++ for_each 48 (say_line seed.now)) }
{
    for i in 0..CLIENTS {
        put_say_line(out, seed, i)?;
    }
    Ok(())
}

/// Appends the openings of round `r`.
fn put_open_lines(out: &mut Vec<u8>, r: u64) -> Result<(), NoMemory>
    ensures { OnOk result (out.new.items ≡ out.old.items ++ for_each 3 (open_line r)) }
{
    for j in 0..SERVERS {
        put_open_line(out, r, j)?;
    }
    Ok(())
}

/// Appends the submissions of round `r`.
fn put_submit_lines(out: &mut Vec<u8>, num: u64, r: u64) -> Result<(), NoMemory>
    ensures { OnOk result (out.new.items ≡ out.old.items ++ for_each 48 (submit_line num r)) }
{
    for i in 0..CLIENTS {
        put_submit_line(out, num, r, i)?;
    }
    Ok(())
}

/// Appends the lines of round `r`.
#[tactic(auto, unfolding(crate::specs::Generated::round_lines))]
fn put_round(out: &mut Vec<u8>, num: u64, r: u64) -> Result<(), NoMemory>
    ensures { OnOk result (out.new.items ≡ out.old.items ++ round_lines num r) }
{
    put_open_lines(out, r)?;
    put_submit_lines(out, num, r)?;
    put_leave_line(out, num, r)?;
    put_bytes(out, b"flow 1\nclose s0\nclose s1\nclose s2\nflow 6\n")?;
    Ok(())
}

/// The large script of this number.
#[tactic(auto, unfolding(crate::specs::Generated::generated))]
pub fn script(alloc: Global, num: u64) -> Result<Vec<u8>, NoMemory>
    ensures { IfOk result (λ text. text.items ≡ generated num) }
{
    let seed = seed_of(num);
    let mut text = Vec::new(alloc);
    put_group_line(&mut text, &seed)?;
    put_say_lines(&mut text, &seed)?;
    put_round(&mut text, num, 1)?;
    put_round(&mut text, num, 2)?;
    put_round(&mut text, num, 3)?;
    put_bytes(&mut text, b"end\n")?;
    Ok(text)
}
