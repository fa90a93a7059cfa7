// The writers of single fields: each appends one, or leaves the bytes as they are.

ghost use Rattle.std.specs.Prelude.{◌≡◌, ◌++◌, ◌∷◌, [], OnOk, OnErr};
ghost use Rattle.std.specs.Int.{w16, w32, w64, to_be_bytes};
ghost use Rattle.dn_wire.specs.Signer.{signer_bytes};

use crate::ids::SignerId;
use dn_memory::NoMemory;

/// Appends one byte.
pub fn put_u8(out: &mut Vec<u8>, v: u8) -> Result<(), NoMemory>
    ensures ok { OnOk result (out.new.items ≡ out.old.items ++ v ∷ []) }
    ensures err { OnErr result (out.new.items ≡ out.old.items) }
{
    out.push(v)?;
    Ok(())
}

/// Appends the two bytes of a number, the high byte first.
pub fn put_u16(out: &mut Vec<u8>, v: u16) -> Result<(), NoMemory>
    ensures ok { OnOk result (out.new.items ≡ out.old.items ++ to_be_bytes w16 v) }
    ensures err { OnErr result (out.new.items ≡ out.old.items) }
{
    out.extend_from_slice(&v.to_be_bytes())?;
    Ok(())
}

/// Appends the four bytes of a number, the high byte first.
pub fn put_u32(out: &mut Vec<u8>, v: u32) -> Result<(), NoMemory>
    ensures ok { OnOk result (out.new.items ≡ out.old.items ++ to_be_bytes w32 v) }
    ensures err { OnErr result (out.new.items ≡ out.old.items) }
{
    out.extend_from_slice(&v.to_be_bytes())?;
    Ok(())
}

/// Appends the eight bytes of a number, the high byte first.
pub fn put_u64(out: &mut Vec<u8>, v: u64) -> Result<(), NoMemory>
    ensures ok { OnOk result (out.new.items ≡ out.old.items ++ to_be_bytes w64 v) }
    ensures err { OnErr result (out.new.items ≡ out.old.items) }
{
    out.extend_from_slice(&v.to_be_bytes())?;
    Ok(())
}

/// Appends the bytes as they are, with no length before them.
pub fn put_bytes(out: &mut Vec<u8>, v: &[u8]) -> Result<(), NoMemory>
    ensures ok { OnOk result (out.new.items ≡ out.old.items ++ v.now) }
    ensures err { OnErr result (out.new.items ≡ out.old.items) }
{
    out.extend_from_slice(v)?;
    Ok(())
}

/// Appends the byte of the kind of signer and the four bytes of its number, the high byte first.
pub fn put_signer(out: &mut Vec<u8>, who: SignerId) -> Result<(), NoMemory>
    ensures ok { OnOk result (out.new.items ≡ out.old.items ++ signer_bytes who) }
    ensures err { OnErr result (out.new.items ≡ out.old.items) }
{
    let [a, b, c, d] = who.number().to_be_bytes();
    put_bytes(out, &[who.tag(), a, b, c, d])
}
