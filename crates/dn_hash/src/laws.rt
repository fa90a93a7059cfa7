ghost use Rattle.std.specs.Prelude.{◌≡◌, ℕ, ◌<◌, ◌≤◌, ◌^◌, List, length};
ghost use Rattle.dn_hash.specs.Inputs.{seed_input, cipher_input, server_input, mask_key_input, block_input, mask_seed_input, group_input};

/// The laws of what digests are taken of: equal inputs have equal parts.
pub fn inputs_have_their_parts()
    ensures seed { (i j k l : ℕ) (s t : List ℕ) → i < 2 ^ 32 → j < 2 ^ 32 → k < 2 ^ 32 → l < 2 ^ 32
        → seed_input i j s ≡ seed_input k l t → (i ≡ k) × (j ≡ l) × (s ≡ t) }
    ensures cipher { (q r i j : ℕ) (c d : List ℕ) → q < 2 ^ 64 → i < 2 ^ 32 → r < 2 ^ 64 → j < 2 ^ 32
        → cipher_input q i c ≡ cipher_input r j d → (q ≡ r) × (i ≡ j) × (c ≡ d) }
    ensures server { (q r i j : ℕ) (c d : List ℕ) → q < 2 ^ 64 → i < 2 ^ 32 → r < 2 ^ 64 → j < 2 ^ 32
        → server_input q i c ≡ server_input r j d → (q ≡ r) × (i ≡ j) × (c ≡ d) }
    ensures mask_key { (y z : List ℕ) → mask_key_input y ≡ mask_key_input z → y ≡ z }
    ensures block { (x y : List ℕ) → block_input x ≡ block_input y → x ≡ y }
    ensures mask_seed { (s t : List ℕ) (q r : ℕ) → length s ≡ length t → q < 2 ^ 64 → r < 2 ^ 64
        → mask_seed_input s q ≡ mask_seed_input t r → (s ≡ t) × (q ≡ r) }
    ensures group { (v w : ℕ) (x y : List ℕ) → 1 ≤ v → v ≤ 2 → 1 ≤ w → w ≤ 2 → group_input v x ≡ group_input w y → (v ≡ w) × (x ≡ y) }
{}
