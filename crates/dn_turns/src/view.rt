ghost use Rattle.std.specs.Prelude.{ℕ, List, Option};
ghost use Rattle.std.specs.Borrow.{ftrue};
ghost use Rattle.std.specs.Coded.{coded_option};
ghost use base.Stored.{coded_list, coded_ℕ, coded×};

use std::marker::{Model, PhantomData};

/// What a pass knows. Contracts and the rule alone speak of it; no value of it is made.
pub struct View<E, B> {
    pub marker: PhantomData<(E, B)>,
    // How many passes the lock was made with.
    pub ghost passes: { ℕ },
    // The base of the log. A view that another took in has none.
    pub ghost base: { Option B } by { coded_option B.code },
    pub ghost numbers: { List ℕ },
    // How many tickets it drew, and the one that it has.
    pub ghost drawn: { ℕ },
    pub ghost ticket: { Option ℕ },
    // The log of the moment at which its turn had come.
    pub ghost turn: { Option (List (ℕ × E)) } by { coded_option (coded_list (coded× coded_ℕ E.code)) },
    pub ghost seen: { List (ℕ × E) } by { coded_list (coded× coded_ℕ E.code) },
    // The count of tickets, where it was found at the limit or above.
    pub ghost full: { Option ℕ },
    // After a join, the numbers of each of the two and what it had seen.
    pub ghost met: { List (List ℕ × List (ℕ × E)) } by { coded_list (coded× (coded_list coded_ℕ) (coded_list (coded× coded_ℕ E.code))) },
}

impl<E, B> Model for View<E, B> {
    ghost also_owns = { λ _. ftrue };
}
