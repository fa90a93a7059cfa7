ghost use Rattle.std.specs.Prelude.{◌≡◌, ◌↔◌, ◌++◌, ◌<◌, ◌≤◌, IsTrue, MatchOption, OnOk, OnErr};
ghost use Rattle.std.specs.Fmt.{decimal};
ghost use Rattle.std.specs.Str.Parse.{AllDigits, digits_value};
ghost use Rattle.dn_lines.specs.Fields.{number_in};
ghost use Rattle.dn_lines.specs.Fields.{IsProper};

use dn_memory::NoMemory;
use dn_wire::put_bytes;
use itoa::Buffer;

/// Whether there are characters, and no zero in front of others.
fn is_proper(text: &[u8]) -> bool
    ensures { IsTrue result ↔ IsProper text.now }
{
    match text {
        [] => false,
        [_] => true,
        [first, ..] => *first != b'0',
    }
}

/// The value of decimal digits, where it is at most high.
pub fn value_of(text: &[u8], high: u64) -> Option<u64>
    ensures { MatchOption result (AllDigits 10 text.now → high < digits_value 10 text.now)
        (λ value. AllDigits 10 text.now × (value ≡ digits_value 10 text.now) × (value ≤ high)) }
{
    let mut value = 0u64;
    for b in text {
        if !b.is_ascii_digit() {
            return None;
        }
        let next = 10 * u128::from(value) + u128::from(*b - b'0');
        if next > u128::from(high) {
            return None;
        }
        value = next as u64;
    }
    Some(value)
}

/// The number from low to high that a text spells in decimal digits, with no zero in front of others.
pub fn number(low: u64, high: u64, text: &[u8]) -> Option<u64>
    ensures { result ≡ number_in low high text.now }
{
    if !is_proper(text) {
        return None;
    }
    let value = value_of(text, high)?;
    if value < low {
        return None;
    }
    Some(value)
}

/// Appends a number in decimal digits.
pub fn put_number(out: &mut Vec<u8>, n: u64) -> Result<(), NoMemory>
    ensures ok { OnOk result (out.new.items ≡ out.old.items ++ decimal n) }
    ensures err { OnErr result (out.new.items ≡ out.old.items) }
{
    let mut buffer = Buffer::new();
    put_bytes(out, buffer.format(n).as_bytes())
}
