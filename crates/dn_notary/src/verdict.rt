use dn_io::Rule;

/// How a signed list is judged.
#[derive(Clone, Copy, Debug, PartialEq, Eq)]
pub enum Verdict {
    /// No line breaks a rule; so many entries are signed.
    Accepted { count: u64 },
    /// The first line that breaks a rule, counted from 1, and the least rule that it breaks.
    Broken { line: u64, rule: Rule },
}
