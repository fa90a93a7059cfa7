// The words of outcome lines.

/// Why a call was ignored.
#[derive(Clone, Copy, Debug, PartialEq, Eq)]
pub enum IgnoredWord {
    Old,
    Idle,
    Running,
    Repeat,
    Kind,
    Prev,
    Length,
    Digest,
    Spent,
    Body,
    Place,
    Zero,
    Key,
    Left,
    Known,
    Cert,
    Evidence,
    Calm,
    Truth,
    None,
    Shut,
    Floor,
}

/// Why a server gave a round up.
#[derive(Clone, Copy, Debug, PartialEq, Eq)]
pub enum SpoilWord {
    Twice,
    Prev,
    Entry,
    Length,
    Commit,
    Body,
}

/// Why a payload didn't unseal.
#[derive(Clone, Copy, Debug, PartialEq, Eq)]
pub enum UnopenedWord {
    Form,
    Stranger,
    Signature,
}

/// Why a member is blamed.
#[derive(Clone, Copy, Debug, PartialEq, Eq)]
pub enum BlameWord {
    Twice,
    Entry,
    Commit,
    Shown,
    Sum,
    Pad,
    Output,
    Double,
    Rebuttal,
    Conceded,
}
