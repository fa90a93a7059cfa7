ghost use Rattle.std.specs.Prelude.{◌≡◌, ℕ, ◌<◌, ◌==◌, List, Bool, true, false, ◌++◌, length, map, filter, All, Contains};
ghost use Rattle.dn_bits.specs.Bits.{below, bit, bytes_of, first_bits, sum_bits, xor, xor_bits, zeros};
ghost use Rattle.dn_bits.specs.XorAll.{xor_all};

/// A law: the first bits of a string's bytes, as many as it has, are the string.
pub fn bytes_round_trip()
    ensures { (bits : List Bool) → first_bits (bytes_of bits) (length bits) ≡ bits }
{}

/// The laws of the XOR of strings, on which the cancelling of pads rests.
pub fn xor_laws()
    ensures commutes { (x y : List Bool) → xor_bits x y ≡ xor_bits y x }
    ensures associates { (x y z : List Bool) → xor_bits (xor_bits x y) z ≡ xor_bits x (xor_bits y z) }
    ensures adds_nothing { (x : List Bool) → xor_bits (zeros (length x)) x ≡ x }
    ensures cancels { (x : List Bool) → xor_bits x x ≡ zeros (length x) }
{}

/// The laws of sums of many strings: a sum of sums of two is the sum of two sums, and the order of two sums is free.
pub fn sum_laws()
    ensures adds { (n : ℕ) (f g : ℕ → List Bool) (is : List ℕ)
        → sum_bits n (map (λ i. xor_bits (f i) (g i)) is) ≡ xor_bits (sum_bits n (map f is)) (sum_bits n (map g is)) }
    ensures exchanges { (n : ℕ) (f : ℕ → ℕ → List Bool) (is js : List ℕ)
        → sum_bits n (map (λ j. sum_bits n (map (λ i. f i j) is)) js) ≡ sum_bits n (map (λ i. sum_bits n (map (f i) js)) is) }
{}

/// The laws of the bits of a sum: each is the sum of the strings' bits, and where it is 1 so is that of one of the strings.
pub fn bit_laws()
    ensures of_two { (x y : List Bool) (k : ℕ) → length x ≡ length y → bit (xor_bits x y) k ≡ xor (bit x k) (bit y k) }
    ensures of_many { (n : ℕ) (xs : List (List Bool)) (k : ℕ) → All (λ x. length x ≡ n) xs → bit (sum_bits n xs) k ≡ xor_all (map (λ x. bit x k) xs) }
    ensures of_one { (n : ℕ) (xs : List (List Bool)) (k : ℕ) → bit (sum_bits n xs) k ≡ true → (x : List Bool) × Contains xs x × (bit x k ≡ true) }
    ensures length { (n : ℕ) (xs : List (List Bool)) → All (λ x. length x ≡ n) xs → length (sum_bits n xs) ≡ n }
{}

/// The laws of sums over lists: joined lists add up to the sum of both, what adds nothing may be left out, and parts, one for each
/// number below m, add up to the whole.
pub fn list_laws()
    ensures joins { (n : ℕ) (xs ys : List (List Bool)) → All (λ y. length y ≡ n) ys → sum_bits n (xs ++ ys) ≡ xor_bits (sum_bits n xs) (sum_bits n ys) }
    ensures leaves_out { (n : ℕ) (f : ℕ → List Bool) (p : ℕ → Bool) (is : List ℕ) → ((i : ℕ) → Contains is i → length (f i) ≡ n)
        → ((i : ℕ) → Contains is i → p i ≡ false → f i ≡ zeros n) → sum_bits n (map f is) ≡ sum_bits n (map f (filter p is)) }
    ensures parts { (n m : ℕ) (f : ℕ → List Bool) (place : ℕ → ℕ) (is : List ℕ) → ((i : ℕ) → Contains is i → length (f i) ≡ n)
        → ((i : ℕ) → Contains is i → place i < m)
        → sum_bits n (map (λ j. sum_bits n (map f (filter (λ i. place i == j) is))) (below m)) ≡ sum_bits n (map f is) }
{}
