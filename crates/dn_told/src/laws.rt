ghost use Rattle.std.specs.Prelude.{◌≡◌, ℕ, ◌==◌, false, List, [], ◌∷◌, ◌++◌, Contains};
ghost use Rattle.std.specs.List.{IsDistinct};
ghost use Rattle.dn_told.specs.declared.told.WindowTold.{WindowTold};
ghost use Rattle.dn_told.specs.Window.{WindowEvent, is_among, has_submitted, is_closed, answers, answers_after, included};

/// The law of a window's answers: behind the first answer to a client each other is Repeat, so none is told Included or Late twice, and the
/// clients told Included are distinct.
pub fn each_is_told_once()
    ensures once { (before : List ℕ) (events : List WindowEvent) (xs ys : List (ℕ × WindowTold)) (i : ℕ) (first next : WindowTold)
        → answers before events ≡ xs ++ (i, first) ∷ ys → Contains ys (i, next) → next ≡ WindowTold.Repeat }
    ensures distinct { (before : List ℕ) (events : List WindowEvent) → IsDistinct ◌==◌ (included before events) }
{}

/// The law of the clients that count as there before: a window tells as much with them as one that stands behind events in which just
/// they submitted, and that hold no Close.
pub fn those_before_are_there()
    ensures { (before : List ℕ) (past events : List WindowEvent) → ((i : ℕ) → has_submitted past i ≡ is_among before i) → is_closed past ≡ false
        → answers before events ≡ answers_after [] past events }
{}
