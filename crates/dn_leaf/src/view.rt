ghost use Rattle.std.specs.Prelude.{ℕ, List, Option};
ghost use Rattle.std.specs.Borrow.{ftrue};

use std::marker::Model;

/// What a pass knows. Contracts and the rule alone speak of it; no value of it is made.
pub struct View {
    // A step's account can't read the drawer's limits elsewhere.
    pub ghost count: { ℕ },
    pub ghost passes: { ℕ },
    // How many passes it stands for.
    pub ghost stands: { ℕ },
    pub ghost draws: { List ℕ },
    // The word, where it was found at the count or above.
    pub ghost seen: { Option ℕ },
}

impl Model for View {
    ghost also_owns = { λ _. ftrue };
}
