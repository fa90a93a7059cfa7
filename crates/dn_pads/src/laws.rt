ghost use Rattle.std.specs.Prelude.{◌≡◌, ℕ, ◌<◌, List, length};
ghost use Rattle.dn_bits.specs.Bits.{bit};
ghost use Rattle.dn_pads.specs.Pads.{keystream_bit, pad_of};

/// The law of the bits of a pad: it has as many as are asked for, and bit k is bit k of the keystream.
pub fn pad_laws()
    ensures length { (seed : List ℕ) (r n : ℕ) → length (pad_of seed r n) ≡ n }
    ensures bits { (seed : List ℕ) (r n k : ℕ) → k < n → bit (pad_of seed r n) k ≡ keystream_bit seed r k }
{}
