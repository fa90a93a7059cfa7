// Laws of blocks and ranges, for those who build on them.
ghost use Rattle.std.specs.Prelude.{◌≡◌, ◌+◌, ◌*◌, ◌<◌, ◌≤◌, Bool, List, ℕ, Some, true, length};
ghost use Rattle.dn_wire.specs.declared.limits.TheConstants.{MIN_SLOT_BYTES, MAX_SLOT_BYTES};
ghost use Rattle.dn_layout.specs.Block.{is_length, block_of, read_of};
ghost use Rattle.dn_layout.specs.Layout.{bits_of, range_of, request_bytes, next_of};

/// What `block` gives is read back as its text and its next length.
pub fn block_round_trip()
    ensures { (text mask_seed : List ℕ) (next_len size : ℕ) → length mask_seed ≡ 16 → MIN_SLOT_BYTES ≤ size → size ≤ MAX_SLOT_BYTES
        → 28 + length text ≤ size → is_length next_len ≡ true
        → read_of (block_of text next_len mask_seed size) ≡ Some (next_len, text) }
{}

/// A block of a text that has room fills its slot.
pub fn blocks_fill_their_slots()
    ensures { (text mask_seed : List ℕ) (next_len size : ℕ) → length mask_seed ≡ 16 → 28 + length text ≤ size
        → length (block_of text next_len mask_seed size) ≡ size }
{}

/// The layout after an output has as many slots as the one before it.
pub fn slots_stay()
    ensures { (lengths : List ℕ) (out : List Bool) → length (next_of lengths out) ≡ length lengths }
{}

/// A slot's range lies behind the request bits and within the round, and behind the range of each earlier slot; and each place behind the
/// request bits lies in some slot's range.
pub fn ranges_part_the_round()
    ensures within { (lengths : List ℕ) (s a b : ℕ) → range_of lengths s ≡ Some (a, b)
        → (length lengths ≤ a) × (a < b) × (b ≤ bits_of lengths) }
    ensures ascend { (lengths : List ℕ) (s t a b c d : ℕ) → s < t → range_of lengths s ≡ Some (a, b)
        → range_of lengths t ≡ Some (c, d) → b ≤ c }
    ensures whole { (lengths : List ℕ) (k : ℕ) → 8 * request_bytes (length lengths) ≤ k → k < bits_of lengths
        → (s : ℕ) × (a : ℕ) × (b : ℕ) × (range_of lengths s ≡ Some (a, b)) × (a ≤ k) × (k < b) }
{}
