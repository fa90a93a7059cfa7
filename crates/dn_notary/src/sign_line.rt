ghost use Rattle.std.specs.Prelude.{◌≡◌, Err, IfOk, List, ℕ, codes};
ghost use Rattle.dn_lines.specs.Field.{Gives};
ghost use Rattle.dn_lines.specs.Form.{fields_in};
ghost use Rattle.dn_notary.specs.Signed.{IsKeyBytes, behind_word, key_text, read_key, read_sign};

use crate::limits::MAX_ENTRY;
use dn_lines::{Fields, LineFault, bytes_of, end_of, long_number_of, text_of};
use dn_wire::Bytes;
use std::alloc::Global;

/// The bytes of a public key of two levels.
const PUBLIC: usize = 60;

/// A signed entry: its number, the entry, and the signature.
#[derive(Drop)]
pub struct SignLine {
    pub q: u64,
    pub entry: Bytes,
    pub signature: Bytes,
}

impl SignLine {
    ghost use Rattle.dn_notary.specs.Signed.{FitsSign, sign_text};
    ghost use Rattle.dn_notary.specs.declared.sign_line.SignLine.{SignLine};

    /// The signed entry that a line spells, without its line feed. `Grammar` exactly where it spells none.
    pub fn read(alloc: Global, line: &[u8]) -> Result<SignLine, LineFault>
        ensures found { IfOk result (λ s. FitsSign s × (line.now ≡ sign_text s)) }
        ensures only { result ≡ Err LineFault.Grammar → (s : SignLine) → FitsSign s → line.now ≡ sign_text s → ⊥ }
    {
        sign_line(alloc, line)
    }
}

/// The fields of a signed entry behind its word.
#[tactic(auto, unfolding(crate::specs::Signed::read_sign))]
fn sign_fields(alloc: Global, fields: &mut Fields) -> Result<SignLine, LineFault>
    ensures { Gives (λ x. x) result (read_sign fields.old) }
{
    let q = long_number_of(fields)?;
    let entry = bytes_of(alloc, fields)?;
    let signature = bytes_of(alloc, fields)?;
    end_of(fields)?;
    if MAX_ENTRY < entry.get().len() {
        return Err(LineFault::Grammar);
    }
    Ok(SignLine {
        q,
        entry,
        signature,
    })
}

fn sign_line(alloc: Global, line: &[u8]) -> Result<SignLine, LineFault>
    ensures { Gives (λ x. x) result (behind_word (codes "sign") read_sign (fields_in line.now)) }
{
    let mut fields = Fields::new(line);
    if text_of(&mut fields)? != b"sign".as_slice() {
        return Err(LineFault::Grammar);
    }
    sign_fields(alloc, &mut fields)
}

/// The fields of a public key's line behind its word.
#[tactic(auto, unfolding(crate::specs::Signed::read_key))]
fn key_fields(alloc: Global, fields: &mut Fields) -> Result<Bytes, LineFault>
    ensures { Gives (λ x. x) result (read_key fields.old) }
{
    let key = bytes_of(alloc, fields)?;
    end_of(fields)?;
    Ok(key)
}

fn key_line(alloc: Global, line: &[u8]) -> Result<Bytes, LineFault>
    ensures { Gives (λ x. x) result (behind_word (codes "key") read_key (fields_in line.now)) }
{
    let mut fields = Fields::new(line);
    if text_of(&mut fields)? != b"key".as_slice() {
        return Err(LineFault::Grammar);
    }
    key_fields(alloc, &mut fields)
}

/// The public key of 60 bytes that a line spells, without its line feed. `Grammar` exactly where it spells none.
pub fn read_key_line(alloc: Global, line: &[u8]) -> Result<Bytes, LineFault>
    ensures found { IfOk result (λ key. IsKeyBytes key × (line.now ≡ key_text key)) }
    ensures only { result ≡ Err LineFault.Grammar → (key : List ℕ) → IsKeyBytes key → line.now ≡ key_text key → ⊥ }
{
    match key_line(alloc, line) {
        Ok(key) => {
            if key.get().len() == PUBLIC {
                Ok(key)
            } else {
                Err(LineFault::Grammar)
            }
        }
        Err(fault) => Err(fault),
    }
}
