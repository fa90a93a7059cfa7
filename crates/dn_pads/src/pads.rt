ghost use Rattle.std.specs.Prelude.{◌≡◌, length, IfOk};
ghost use Rattle.dn_bits.specs.Bits.{xor_bits};
ghost use Rattle.dn_pads.specs.Pads.{keystream_bit, pad_of};

use crate::keystream::{Seed, joined, keystream, keystream_word_bit};
use dn_bits::Bits;
use dn_memory::NoMemory;
use dn_wire::Round;
use rand_core::utils::NextWord;
use std::alloc::Global;

/// Bit k of the pad of a round.
pub fn pad_bit(seed: &Seed, r: Round, k: u32) -> bool
    ensures { result ≡ keystream_bit seed.now r.0 k }
{
    keystream_word_bit(keystream(seed, r.0, k / 32).next_word(), k)
}

/// Adds the pad of a round to a string, as many bits of it as the string has.
pub fn add_pad(bits: &mut Bits, seed: &Seed, r: Round)
    ensures { bits.new ≡ xor_bits bits.old (pad_of seed.now r.0 (length bits.old)) }
{
    let mut rng = keystream(seed, r.0, 0);
    for place in 0..bits.len().div_ceil(64) {
        let first = rng.next_word();
        let second = rng.next_word();
        bits.add_word(place, joined(first, second));
    }
}

/// The first n bits of the pad of a round.
pub fn pad(alloc: Global, seed: &Seed, r: Round, n: u32) -> Result<Bits, NoMemory>
    ensures { IfOk result (λ b. b ≡ pad_of seed.now r.0 n) }
{
    let mut bits = Bits::zeros(alloc, n)?;
    add_pad(&mut bits, seed, r);
    Ok(bits)
}
