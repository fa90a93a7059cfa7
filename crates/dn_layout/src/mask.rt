// The mask of a block.
ghost use Rattle.std.specs.Prelude.{◌≡◌, ◌*◌, ◌/◌, ◌%◌, ◌^◌};
ghost use Rattle.dn_layout.specs.Block.{masked};

use rand_chacha::ChaCha20Rng;
use rand_core::SeedableRng;
use rand_core::utils::NextWord;

/// The byte of a word of the keystream that stands at place m of the keystream's bytes; a word has its low byte first.
fn byte_of(word: u32, m: usize) -> u8
    ensures { result ≡ word / 2 ^ (8 * (m % 4)) % 256 }
{
    (word >> (8 * (m % 4)) & 0xff) as u8
}

/// Adds the ChaCha20 keystream of the key, stream 0 from place 0, to the bytes. Twice is not at all.
pub fn mask(key: &[u8; 32], bytes: &mut [u8])
    ensures { bytes.new ≡ masked key.now bytes.old }
{
    let mut rng = ChaCha20Rng::from_seed(*key);
    let mut word = 0;
    for m in 0..bytes.len() {
        if m % 4 == 0 {
            word = rng.next_word();
        }
        bytes[m] ^= byte_of(word, m);
    }
}
