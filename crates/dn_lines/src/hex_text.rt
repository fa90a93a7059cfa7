ghost use Rattle.std.specs.Prelude.{◌≡◌, ◌↔◌, ◌++◌, ◌*◌, ◌<◌, Ok, IsTrue, OnOk, length};
ghost use Rattle.std.specs.Bool.{OnTrue};
ghost use Rattle.std.specs.List.{All};
ghost use Rattle.hex.specs.Hex.{encode_lower, decode_of};
ghost use Rattle.dn_lines.specs.Field.{Gives};
ghost use Rattle.dn_lines.specs.Fields.{hex_text, bytes_in};
ghost use Rattle.dn_lines.specs.Digits.{lower_value, IsLowerDigit};

use crate::fault::LineFault;
use dn_memory::NoMemory;
use dn_wire::put_u8;
use std::alloc::Global;

/// The value of a lower-case digit, and 16 of any other character.
fn lower_value(c: u8) -> u8
    ensures { result ≡ lower_value c }
{
    if b'0' <= c && c <= b'9' {
        c - b'0'
    } else if b'a' <= c && c <= b'f' {
        c - b'a' + 10
    } else {
        16
    }
}

/// Writes the byte of each pair of digits. Whether all characters are digits: it looks at all of them, so that no branch hangs on one.
fn decode_digits(text: &[u8], out: &mut [u8]) -> bool
    requires { length text.now ≡ 2 * length out.old }
    ensures digits { IsTrue result ↔ All IsLowerDigit text.now }
    ensures bytes { OnTrue result (decode_of text.now ≡ Ok out.new) }
{
    let mut greatest = 0u8;
    'pairs: for i in 0..out.len() {
        let high = lower_value(text[2 * i]);
        let low = lower_value(text[2 * i + 1]);
        greatest = greatest.max(high).max(low);
        out[i] = high % 16 * 16 + low % 16;
    }
    greatest < 16
}

/// The bytes that a text spells: two lower-case hex digits each, and `-` for none.
#[tactic(auto, unfolding(crate::specs::Fields::bytes_in))]
pub fn bytes(alloc: Global, text: &[u8]) -> Result<Vec<u8>, LineFault>
    ensures { Gives (λ v. v.items) result (bytes_in text.now) }
{
    if text == b"-".as_slice() {
        return Ok(Vec::new(alloc));
    }
    if text.is_empty() || text.len() % 2 != 0 {
        return Err(LineFault::Grammar);
    }
    let mut bytes = vec![in alloc; 0u8; text.len() / 2].map_err(NoMemory::from)?;
    if decode_digits(text, bytes.as_mut_slice()) {
        Ok(bytes)
    } else {
        Err(LineFault::Grammar)
    }
}

/// Appends bytes in lower-case hex, and `-` for none.
pub fn put_hex(out: &mut Vec<u8>, bytes: &[u8]) -> Result<(), NoMemory>
    ensures { OnOk result (out.new.items ≡ out.old.items ++ hex_text bytes.now) }
{
    if bytes.is_empty() {
        return put_u8(out, b'-');
    }
    put_digits(out, bytes)
}

/// Appends two digits for each byte, with room for a byte behind them.
fn put_digits(out: &mut Vec<u8>, bytes: &[u8]) -> Result<(), NoMemory>
    ensures { OnOk result (out.new.items ≡ out.old.items ++ encode_lower bytes.now) }
{
    let start = out.len();
    let count = bytes.len().checked_mul(2).ok_or(NoMemory)?;
    let end = start.checked_add(count).ok_or(NoMemory)?;
    out.reserve(count.saturating_add(1))?;
    out.resize(end, 0)?;
    let digits = &mut out.as_mut_slice()[start..];
    hex::encode_to_slice(bytes, digits).map_err(|_| NoMemory)
}
