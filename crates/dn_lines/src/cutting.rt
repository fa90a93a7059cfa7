ghost use Rattle.std.specs.Prelude.{◌≡◌, ◌++◌, ◌∷◌, MatchOption};
ghost use Rattle.dn_lines.specs.Field.{cut};
ghost use Rattle.dn_lines.specs.Exact.{IsFree};

/// What stands before the first such byte, and what behind it; None where there is none.
pub fn split(byte: u8, line: &[u8]) -> Option<(&[u8], &[u8])>
    ensures { MatchOption result (IsFree byte line.now)
        (λ x. (line.now ≡ x.0.now ++ byte ∷ x.1.now) × IsFree byte x.0.now) }
{
    for (i, b) in line.iter().enumerate() {
        if *b == byte {
            return Some((&line[..i], &line[i + 1..]));
        }
    }
    None
}

/// What stands before the first such byte, and what behind it.
pub fn halves(byte: u8, text: &[u8]) -> Option<(&[u8], &[u8])>
    ensures { MatchOption result (cut byte text.now ≡ None)
        (λ x. cut byte text.now ≡ Some (x.0.now, x.1.now)) }
{
    let (before, behind) = split(byte, text)?;
    Some((before, behind))
}
