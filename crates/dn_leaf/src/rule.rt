//! The rule of the shared word, and the kinds of step on it.

ghost use Rattle.dn_leaf.specs.Rule.{IsKept, first_view, Looks, Draws, less_one, one_of, joined, spent};

use super::view::View;
use atomic_table::{Join, Play, Split, TableRule};

/// The numbers below `count` are given out, to so many passes.
#[derive(Clone, Copy)]
pub struct Limits {
    pub count: u32,
    pub passes: u32,
}

/// The rule: each number below the word and the count is among the draws of one view, once.
pub struct Leaves;

impl TableRule<(), View, Limits> for Leaves {
    ghost holds = { λ key. IsKept key.count key.passes };

    ghost first = { λ key. first_view key.count key.passes };
}

/// A view gives one of the passes that it stands for to a new one.
pub struct One;

impl Split<View> for One {
    ghost left = { less_one };

    ghost right = { one_of };
}

/// A view takes in another.
pub struct Both;

impl Join<View> for Both {
    ghost both = { joined };

    ghost spent = { spent };
}

/// The word is read.
pub struct Look;

impl Play<(), View> for Look {
    ghost then = { Looks };
}

/// One is added to the word.
pub struct Draw;

impl Play<(), View> for Draw {
    ghost then = { Draws };
}
