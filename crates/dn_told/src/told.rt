// The answers.

/// What a client is told that submits.
#[derive(Clone, Copy, Debug, PartialEq, Eq)]
pub enum WindowTold {
    /// Its first submission came before the window's closing.
    Included,
    /// Its first submission came after the window's closing.
    Late,
    /// It had submitted before, or was counted as there before.
    Repeat,
}
