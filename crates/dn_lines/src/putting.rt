ghost use Rattle.std.specs.Prelude.{◌≡◌, ◌++◌, ◌∷◌, OnOk};
ghost use Rattle.std.specs.Fmt.{decimal};
ghost use Rattle.dn_lines.specs.Fields.{hex_text, client, server, member};

use crate::hex_text::put_hex;
use crate::numbers::put_number;
use dn_memory::NoMemory;
use dn_wire::{ClientId, Member, ServerId, put_bytes, put_u8};

/// Appends `c` and the client's number.
pub fn put_client(out: &mut Vec<u8>, i: ClientId) -> Result<(), NoMemory>
    ensures { OnOk result (out.new.items ≡ out.old.items ++ client.spell i) }
{
    put_u8(out, b'c')?;
    put_number(out, u64::from(i.0))
}

/// Appends `s` and the server's number.
pub fn put_server(out: &mut Vec<u8>, j: ServerId) -> Result<(), NoMemory>
    ensures { OnOk result (out.new.items ≡ out.old.items ++ server.spell j) }
{
    put_u8(out, b's')?;
    put_number(out, u64::from(j.0))
}

/// Appends a member by its letter and its number.
pub fn put_member(out: &mut Vec<u8>, m: Member) -> Result<(), NoMemory>
    ensures { OnOk result (out.new.items ≡ out.old.items ++ member.spell m) }
{
    match m {
        Member::Client(i) => put_client(out, i),
        Member::Server(j) => put_server(out, j),
    }
}

/// Appends a blank and a text.
pub fn add_text(out: &mut Vec<u8>, text: &[u8]) -> Result<(), NoMemory>
    ensures { OnOk result (out.new.items ≡ out.old.items ++ 32 ∷ text.now) }
{
    put_u8(out, b' ')?;
    put_bytes(out, text)
}

/// Appends a blank and a number.
pub fn add_number(out: &mut Vec<u8>, n: u64) -> Result<(), NoMemory>
    ensures { OnOk result (out.new.items ≡ out.old.items ++ 32 ∷ decimal n) }
{
    put_u8(out, b' ')?;
    put_number(out, n)
}

/// Appends a blank and bytes.
pub fn add_hex(out: &mut Vec<u8>, bytes: &[u8]) -> Result<(), NoMemory>
    ensures { OnOk result (out.new.items ≡ out.old.items ++ 32 ∷ hex_text bytes.now) }
{
    put_u8(out, b' ')?;
    put_hex(out, bytes)
}

/// Appends a blank and a client.
pub fn add_client(out: &mut Vec<u8>, i: ClientId) -> Result<(), NoMemory>
    ensures { OnOk result (out.new.items ≡ out.old.items ++ 32 ∷ client.spell i) }
{
    put_u8(out, b' ')?;
    put_client(out, i)
}

/// Appends a blank and a server.
pub fn add_server(out: &mut Vec<u8>, j: ServerId) -> Result<(), NoMemory>
    ensures { OnOk result (out.new.items ≡ out.old.items ++ 32 ∷ server.spell j) }
{
    put_u8(out, b' ')?;
    put_server(out, j)
}

/// Appends a blank and a member.
pub fn add_member(out: &mut Vec<u8>, m: Member) -> Result<(), NoMemory>
    ensures { OnOk result (out.new.items ≡ out.old.items ++ 32 ∷ member.spell m) }
{
    put_u8(out, b' ')?;
    put_member(out, m)
}
