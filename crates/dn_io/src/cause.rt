use std::fmt;

/// Why a line of a script is refused, in the order in which the causes are looked for. A field is counted from 1
/// after the line's word.
#[derive(Clone, Copy, Debug, PartialEq, Eq)]
pub enum Cause {
    /// A byte that no line may have.
    Bytes,
    /// One line more than a script may have.
    Many,
    /// The first field is no word of a script.
    Word,
    /// The word may not stand there.
    Order,
    /// Another number of fields than the line has.
    Fields,
    /// The field isn't spelled as a number or a member.
    Number(u32),
    /// The field isn't spelled as bytes.
    Hex(u32),
    /// The field's value is outside its limit.
    Range(u32),
    /// The field names an honest member, and must not.
    Honest(u32),
    /// The field names a corrupt member, and must not.
    Corrupt(u32),
    /// The input ends where a line is missing.
    Missing,
}

impl fmt::Display for Cause {
    ghost use Rattle.std.specs.Prelude.{Some};
    ghost use Rattle.dn_io.specs.Cause.{cause_text};

    ghost output = { λ cause. Some (cause_text cause) };

    #[tactic(auto, unfolding(crate::specs::Cause::cause_text))]
    fn fmt<W: fmt::Write>(&self, f: &mut fmt::Formatter<W>) -> fmt::Result {
        match *self {
            Cause::Bytes => f.write_str("bytes"),
            Cause::Many => f.write_str("many"),
            Cause::Word => f.write_str("word"),
            Cause::Order => f.write_str("order"),
            Cause::Fields => f.write_str("fields"),
            Cause::Number(field) => write!(f, "number {field}"),
            Cause::Hex(field) => write!(f, "hex {field}"),
            Cause::Range(field) => write!(f, "range {field}"),
            Cause::Honest(field) => write!(f, "honest {field}"),
            Cause::Corrupt(field) => write!(f, "corrupt {field}"),
            Cause::Missing => f.write_str("missing"),
        }
    }
}
