// The kinds of lines of each form of script, by their words.

ghost use Rattle.std.specs.Prelude.{◌≡◌};
ghost use Rattle.dn_script.specs.Script.{opening_words, plain_words, group_words, is_listed};

/// Whether it is a word of the first line of a script.
pub fn is_opening_word(word: &[u8]) -> bool
    ensures { result ≡ is_listed opening_words word.now }
{
    word == b"plain".as_slice() || word == b"group".as_slice() || word == b"group1".as_slice()
}

/// Whether it is a word of a line behind the first of a plain script.
pub fn is_plain_word(word: &[u8]) -> bool
    ensures { result ≡ is_listed plain_words word.now }
{
    word == b"say".as_slice()
        || word == b"submit".as_slice()
        || word == b"tick".as_slice()
        || word == b"close".as_slice()
        || word == b"end".as_slice()
}

/// Whether it is a word of a line behind the first of a group script.
pub fn is_group_word(word: &[u8]) -> bool
    ensures { result ≡ is_listed group_words word.now }
{
    word == b"corrupt".as_slice()
        || word == b"say".as_slice()
        || word == b"open".as_slice()
        || word == b"close".as_slice()
        || word == b"abandon".as_slice()
        || word == b"submit".as_slice()
        || word == b"deliver".as_slice()
        || word == b"lose".as_slice()
        || word == b"cut".as_slice()
        || word == b"flow".as_slice()
        || word == b"tick".as_slice()
        || word == b"leave".as_slice()
        || word == b"accuse".as_slice()
        || word == b"judge".as_slice()
        || word == b"race".as_slice()
        || word == b"live".as_slice()
        || word == b"twist".as_slice()
        || word == b"inject".as_slice()
        || word == b"speak".as_slice()
        || word == b"replay".as_slice()
        || word == b"lure".as_slice()
        || word == b"complete".as_slice()
        || word == b"end".as_slice()
}
