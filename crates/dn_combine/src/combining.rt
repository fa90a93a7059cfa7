ghost use Rattle.std.specs.Prelude.{◌≡◌, ℕ, ◌≤◌, ◌<◌, ◌++◌, ◌*◌, map, length, take, All, IfOk, OnOk, Result, slice_index_or};
ghost use Rattle.std.specs.Fork.{slice_chunk};
ghost use Rattle.dn_bits.specs.Bits.{sum_bits, xor_bits};
ghost use Rattle.dn_pads.specs.Pads.{pad_of};
ghost use Rattle.dn_combine.specs.Parts.{pads_of, IsPart, ArePartsOf};

use dn_bits::Bits;
use dn_memory::NoMemory;
use dn_pads::{Seed, add_pad};
use dn_wire::Round;
use std::alloc::Global;
use std::thread::{Threads, map_chunks};

/// Adds strings of its length to a string.
fn add_all(sum: &mut Bits, parts: &[Bits])
    requires { All (λ x. length x ≡ length sum.old) parts.now }
    ensures value { sum.new ≡ xor_bits sum.old (sum_bits (length sum.old) parts.now) }
    ensures long { length sum.new ≡ length sum.old }
{
    for part in parts {
        sum.xor_into(part);
    }
}

/// Adds the pads of these seeds in round `r` to a string.
fn add_pads(sum: &mut Bits, seeds: &[Seed], r: Round)
    ensures { sum.new ≡ xor_bits sum.old (sum_bits (length sum.old) (pads_of seeds.now r.0 (length sum.old))) }
{
    for seed in seeds {
        add_pad(sum, seed, r);
    }
}

/// The sum of the pads of these seeds in round `r`, `n` bits of each.
fn pads_sum(alloc: Global, seeds: &[Seed], r: Round, n: u32) -> Result<Bits, NoMemory>
    ensures { IsPart seeds.now r.0 n result }
{
    let mut sum = Bits::zeros(alloc, n)?;
    add_pads(&mut sum, seeds, r);
    Ok(sum)
}

/// Adds what the workers made, each of its part of `_size` seeds.
fn add_parts(
    sum: &mut Bits,
    parts: &[Result<Bits, NoMemory>],
    _seeds: &[Seed],
    _r: Round,
    _size: usize,
) -> Result<(), NoMemory>
    requires { ArePartsOf _seeds.now _r.0 (length sum.old) _size parts.now }
    ensures { OnOk result (sum.new ≡ xor_bits sum.old (sum_bits (length sum.old) (pads_of (take (length parts.now * _size) _seeds.now) _r.0 (length sum.old)))) }
{
    for part in parts {
        match part {
            Ok(part) => sum.xor_into(part),
            Err(_) => return Err(NoMemory),
        }
    }
    Ok(())
}

/// The sum of the pads of `seeds` in round `r`, `n` bits of each, and of the strings `held`, which have `n` bits each. The seeds are
/// shared among `workers` workers.
pub fn server_sum<R: Threads + Sync>(
    rt: &R,
    alloc: Global,
    seeds: &[Seed],
    r: Round,
    n: u32,
    held: &[Bits],
    workers: u32,
) -> Result<Bits, NoMemory>
    requires long { All (λ x. length x ≡ n) held.now }
    requires some { 1 ≤ workers }
    requires few { workers ≤ 16 }
    ensures { IfOk result (λ sum. sum ≡ sum_bits n (map (λ s. pad_of s r.0 n) seeds.now ++ held.now)) }
{
    let mut sum = combine(alloc, held, n)?;
    let size = seeds.len().div_ceil(workers as usize).max(1);
    let part = |_: usize, chunk: &[Seed]| -> Result<Bits, NoMemory>
        ensures { IsPart chunk.entry.now r.0 n result }
    { pads_sum(alloc, chunk, r, n) };
    let parts = map_chunks(rt, alloc, seeds, size, &part)?;
    add_parts(&mut sum, &parts, seeds, r, size)?;
    Ok(sum)
}

/// The sum of strings of `n` bits; zeros where there are none.
pub fn combine(alloc: Global, parts: &[Bits], n: u32) -> Result<Bits, NoMemory>
    requires { All (λ x. length x ≡ n) parts.now }
    ensures { IfOk result (λ sum. sum ≡ sum_bits n parts.now) }
{
    let mut sum = Bits::zeros(alloc, n)?;
    add_all(&mut sum, parts);
    Ok(sum)
}
