ghost use Rattle.std.specs.Prelude.{◌≡◌, ℕ, ◌%◌, ◌<◌, nat_lt, if◌then◌else◌};
ghost use Rattle.rand_chacha.specs.ChaCha.{key_of};
ghost use Rattle.dn_bits.specs.Words.{word_bit};
ghost use Rattle.dn_pads.specs.Pads.{bit_of_word};

use rand_chacha::ChaCha20Rng;
use rand_core::SeedableRng;

/// What a client and a server share.
pub type Seed = [u8; 32];

/// The keystream of a seed on a stream, from a place on. Places count words of 32 bits.
pub(crate) fn keystream(seed: &Seed, stream: u64, place: u32) -> ChaCha20Rng
    ensures { result ≡ record { key = key_of seed.now; stream = stream; word_pos = place } }
{
    let mut rng = ChaCha20Rng::from_seed(*seed);
    rng.set_stream(stream);
    rng.set_word_pos(u128::from(place));
    rng
}

/// Bit j of the keystream, where this is its word at place j / 32.
pub(crate) fn keystream_word_bit(word: u32, j: u32) -> bool
    ensures { result ≡ bit_of_word word j }
{
    word >> (8 * (j / 8 % 4) + (7 - j % 8)) & 1 == 1
}

/// The bits of two words of the keystream in their order, the first of them highest.
#[inline]
pub(crate) fn joined(first: u32, second: u32) -> u64
    ensures { (k : ℕ) → word_bit result k ≡ bit_of_word (if nat_lt (k % 64) 32 then first else second) k }
{
    let front = first.to_le_bytes();
    let back = second.to_le_bytes();
    u64::from_be_bytes([
        front[0], front[1], front[2], front[3], back[0], back[1], back[2], back[3],
    ])
}
