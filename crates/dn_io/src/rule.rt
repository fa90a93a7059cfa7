use std::fmt;

/// The name of a rule that a report breaks: a letter and a number.
#[derive(Clone, Copy, Debug, PartialEq, Eq)]
pub enum Rule {
    V(u32),
    E(u32),
    N(u32),
}

impl fmt::Display for Rule {
    ghost use Rattle.std.specs.Prelude.{Some};
    ghost use Rattle.dn_io.specs.Rule.{rule_text};

    ghost output = { λ rule. Some (rule_text rule) };

    #[tactic(auto, unfolding(crate::specs::Rule::rule_text))]
    fn fmt<W: fmt::Write>(&self, f: &mut fmt::Formatter<W>) -> fmt::Result {
        match *self {
            Rule::V(number) => write!(f, "V{number}"),
            Rule::E(number) => write!(f, "E{number}"),
            Rule::N(number) => write!(f, "N{number}"),
        }
    }
}
