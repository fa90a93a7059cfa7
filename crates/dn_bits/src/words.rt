ghost use Rattle.std.specs.Prelude.{◌≡◌, ℕ, ◌/◌, ◌%◌, ◌<◌, ◌==◌, ◌↔◌, not, nat_lt, false, length, slice_index, bit_xor, if◌then◌else◌, IsTrue};
ghost use Rattle.dn_bits.specs.Bits.{xor};
ghost use Rattle.dn_bits.specs.Words.{bit_of_words, word_bit};

/// Bit k of the words.
pub(crate) fn bit_at(words: &[u64], k: u32) -> bool
    requires { k / 64 < length words.now }
    ensures { result ≡ bit_of_words words.now k }
{
    words[(k / 64) as usize] >> (63 - k % 64) & 1 == 1
}

/// Turns one bit and leaves the others.
pub(crate) fn flip_bit(words: &mut [u64], k: u32)
    requires { k / 64 < length words.old }
    ensures { (j : ℕ) → bit_of_words words.new j
        ≡ (if j == k then not (bit_of_words words.old j) else bit_of_words words.old j) }
{
    words[(k / 64) as usize] ^= 1 << (63 - k % 64);
}

/// The word with zeros after its first bits.
#[inline]
pub(crate) fn front_of(word: u64, count: u32) -> u64
    requires { 0 < count }
    ensures { (k : ℕ) → word_bit result k ≡ (if nat_lt (k % 64) count then word_bit word k else false) }
{
    if count < 64 {
        word >> (64 - count) << (64 - count)
    } else {
        word
    }
}

/// Adds a word to the one at place i.
#[inline]
pub(crate) fn xor_word(words: &mut [u64], i: usize, word: u64)
    requires { i < length words.old }
    ensures { (k : ℕ) → bit_of_words words.new k
        ≡ (if k / 64 == i then xor (bit_of_words words.old k) (word_bit word k) else bit_of_words words.old k) }
{
    words[i] ^= word;
}

/// Adds each word of the one list to the other's.
pub(crate) fn xor_words(words: &mut [u64], others: &[u64])
    requires { length words.old ≡ length others.now }
    ensures { (i : ℕ) → slice_index words.new i ≡ bit_xor (slice_index words.old i) (slice_index others.now i) }
{
    for i in 0..words.len() {
        words[i] ^= others[i];
    }
}

/// Whether two lists of words have the same bits.
pub(crate) fn same_words(words: &[u64], others: &[u64]) -> bool
    requires { length words.now ≡ length others.now }
    ensures { IsTrue result ↔ ((k : ℕ) → bit_of_words words.now k ≡ bit_of_words others.now k) }
{
    for i in 0..words.len() {
        if words[i] != others[i] {
            return false;
        }
    }
    true
}
