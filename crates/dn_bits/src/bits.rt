ghost use Rattle.std.specs.Prelude.{◌≡◌, ◌*◌, ◌<◌, ◌↔◌, ◌++◌, length, IfOk, IfErr, OnOk, OnErr, IsTrue};
ghost use Rattle.dn_bits.specs.Bits.{zeros, xor_bits, bit, flip_at, add_word_at, first_bits, bytes_of};
ghost use Rattle.dn_bits.specs.Fault.{IsShort, ShortNumbers};

use crate::bytes::{bytes_of_words, words_of};
use crate::fault::BitsFault;
use crate::words::{bit_at, flip_bit, front_of, same_words, xor_word, xor_words};
use dn_memory::NoMemory;
use std::alloc::Global;
use std::marker::Model;

/// A string of bits, counted from 0.
#[derive(Drop)]
pub struct Bits {
    words: Vec<u64>,
    count: u32,
}

impl Model for Bits {
    ghost use Rattle.std.specs.Prelude.{List, Bool};
    ghost use Rattle.dn_bits.specs.Words.{bits_of_words, Holds};

    ghost Value = { List Bool };

    ghost view = { λ b. bits_of_words b.words.items b.count };

    ghost invariant = { λ b. Holds b.words.items b.count };
}

impl Bits {
    /// A string of n zeros.
    pub fn zeros(alloc: Global, n: u32) -> Result<Bits, NoMemory>
        ensures { IfOk result (λ b. b ≡ zeros n) }
    {
        let count = (n as usize).div_ceil(64);
        Ok(Bits {
            words: vec![in alloc; 0; count]?,
            count: n,
        })
    }

    /// How many bits there are.
    pub fn len(&self) -> u32
        ensures { result ≡ length self.now }
    {
        self.count
    }

    /// Whether there is none.
    pub fn is_empty(&self) -> bool
        ensures { IsTrue result ↔ (length self.now ≡ 0) }
    {
        self.count == 0
    }

    /// Bit k.
    pub fn get(&self, k: u32) -> bool
        requires { k < length self.now }
        ensures { result ≡ bit self.now k }
    {
        bit_at(&self.words, k)
    }

    /// Bit k, or zero past the end.
    pub fn get_or_zero(&self, k: u32) -> bool
        ensures { result ≡ bit self.now k }
    {
        k < self.count && bit_at(&self.words, k)
    }

    /// Turns bit k and leaves the others.
    pub fn flip(&mut self, k: u32)
        requires { k < length self.old }
        ensures { self.new ≡ flip_at self.old k }
    {
        flip_bit(&mut self.words, k);
    }

    /// Adds the 64 bits of a word, its highest first, from bit `64 * place` on, or as many of them as there are.
    #[inline]
    pub fn add_word(&mut self, place: u32, word: u64)
        requires { 64 * place < length self.old }
        ensures { self.new ≡ add_word_at self.old place word }
    {
        let front = front_of(word, self.count - 64 * place);
        xor_word(&mut self.words, place as usize, front);
    }

    /// Adds the other string to this one, bit by bit.
    pub fn xor_into(&mut self, other: &Bits)
        requires { length self.old ≡ length other.now }
        ensures { self.new ≡ xor_bits self.old other.now }
    {
        xor_words(&mut self.words, &other.words);
    }

    /// Whether the strings are one: of one length and with the same bits.
    pub fn equals(&self, other: &Bits) -> bool
        ensures { IsTrue result ↔ (self.now ≡ other.now) }
    {
        self.count == other.count && same_words(&self.words, &other.words)
    }

    /// The same string again.
    pub fn copy(&self, alloc: Global) -> Result<Bits, NoMemory>
        ensures { IfOk result (λ b. b ≡ self.now) }
    {
        Ok(Bits {
            words: Vec::from_slice(alloc, &self.words)?,
            count: self.count,
        })
    }

    /// The first n bits of the bytes, a byte's highest bit first. `Short` comes exactly where the bytes have fewer.
    pub fn from_bytes(alloc: Global, bytes: &[u8], n: u32) -> Result<Bits, BitsFault>
        ensures bits { IfOk result (λ b. b ≡ first_bits bytes.now n) }
        ensures short { IsShort result ↔ (8 * length bytes.now < n) }
        ensures numbers { IfErr result (ShortNumbers (8 * length bytes.now) n) }
    {
        if (bytes.len() as u64) < u64::from(n.div_ceil(8)) {
            return Err(BitsFault::Short {
                have: 8 * bytes.len() as u64,
                need: u64::from(n),
            });
        }
        Ok(Bits {
            words: words_of(alloc, bytes, n)?,
            count: n,
        })
    }

    /// Appends the string's bytes, a byte's highest bit first, with zeros after the last bit. An error leaves `out`
    /// as it was.
    pub fn write_bytes(&self, alloc: Global, out: &mut Vec<u8>) -> Result<(), NoMemory>
        ensures ok { OnOk result (out.new.items ≡ out.old.items ++ bytes_of self.now) }
        ensures err { OnErr result (out.new.items ≡ out.old.items) }
    {
        let bytes = bytes_of_words(alloc, &self.words, (self.count as usize).div_ceil(8))?;
        out.extend_from_slice(&bytes)?;
        Ok(())
    }
}

impl PartialEq for Bits {
    ghost use Rattle.std.specs.Prelude.{◌==◌};
    ghost use Rattle.std.specs.Cmp.Lexicographic.{pointwise};
    ghost use Rattle.std.specs.Bool.{beq};
    ghost use Rattle.std.specs.Cmp.Rules.{comparing};
    ghost use Rattle.std.proofs.Common.{rules};

    ghost eq = { pointwise beq };

    ghost laws = { Prim.search (comparing, rules) };

    fn eq(&self, other: &Bits) -> bool {
        self.equals(other)
    }
}
