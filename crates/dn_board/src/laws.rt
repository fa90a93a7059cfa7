ghost use Rattle.std.specs.Prelude.{◌≡◌, ℕ, ◌+◌, ◌<◌, ◌≤◌, List, [], ◌∷◌, ◌++◌, length, IfSome, slice_get};
ghost use Rattle.dn_turns.specs.Logs.{Follows};
ghost use Rattle.dn_board.specs.declared.post.Post.{Post};
ghost use Rattle.dn_board.specs.Reads.{AreReads, last_place};

/// The laws of what posts have read. Posts are counted from 0 here, so that post j has the place j + 1.
pub fn read_laws()
    // What a post had read stands before it.
    ensures before { (posts : List (ℕ × Post)) (j : ℕ) → AreReads posts → IfSome (slice_get posts j) (λ p. p.1.read ≤ j) }
    // The reads under a number never fall.
    ensures rise { (posts : List (ℕ × Post)) (i j : ℕ) → AreReads posts → i < j
        → IfSome (slice_get posts i) (λ p. IfSome (slice_get posts j) (λ q. p.0 ≡ q.0 → p.1.read ≤ q.1.read)) }
    // A list of posts and one that fits behind them.
    ensures grow { (posts : List (ℕ × Post)) (next : ℕ × Post) → AreReads posts → next.1.read ≡ last_place next.0 posts → AreReads (posts ++ next ∷ []) }
    // After a post under a number its place is the last, and other posts don't change that.
    ensures given { (posts : List (ℕ × Post)) (next : ℕ × Post) → last_place next.0 (posts ++ next ∷ []) ≡ length posts + 1 }
    ensures stays { (number : ℕ) (seen posts : List (ℕ × Post)) → Follows (number ∷ []) seen posts → last_place number posts ≡ last_place number seen }
{}
