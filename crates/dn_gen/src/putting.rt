// The lines of the script, one function for each kind.

ghost use Rattle.std.specs.Prelude.{◌≡◌, ◌++◌, ◌∷◌, [], ◌<◌, codes, OnOk};
ghost use Rattle.dn_lines.specs.Fields.{hex_text};
ghost use Rattle.dn_gen.specs.Generated.{line, say_line, saying, open_line, submit_line, leave_line, leaver};

use dn_lines::{add_client, add_hex, add_number, add_server};
use dn_memory::NoMemory;
use dn_roster::deal_into;
use dn_wire::{ClientId, ServerId, put_bytes, put_u8};

/// The stream of the clients' texts. The group's own streams are below it.
const TEXTS: u64 = 9;

/// Appends the group's line.
pub fn put_group_line(out: &mut Vec<u8>, seed: &[u8; 32]) -> Result<(), NoMemory>
    ensures { OnOk result (out.new.items ≡ out.old.items ++ line (codes "group 48 3 3 5 6" ∷ hex_text seed.now ∷ [])) }
{
    put_bytes(out, b"group 48 3 3 5 6")?;
    add_hex(out, seed)?;
    put_u8(out, b'\n')
}

/// Appends a blank and what client `i` says.
fn add_saying(out: &mut Vec<u8>, seed: &[u8; 32], i: u32) -> Result<(), NoMemory>
    ensures { OnOk result (out.new.items ≡ out.old.items ++ 32 ∷ hex_text (saying seed.now i)) }
{
    let place = 64 * u128::from(i);
    let mut word = [0; 4];
    deal_into(seed, TEXTS, place, &mut word);
    let length = 1 + u32::from_le_bytes(word) % 200;
    let mut bytes = [0; 200];
    deal_into(seed, TEXTS, place + 1, &mut bytes);
    add_hex(out, &bytes[..length as usize])
}

/// Appends the line in which client `i` says something.
pub fn put_say_line(out: &mut Vec<u8>, seed: &[u8; 32], i: u32) -> Result<(), NoMemory>
    ensures { OnOk result (out.new.items ≡ out.old.items ++ say_line seed.now i) }
{
    put_bytes(out, b"say")?;
    add_client(out, ClientId(i))?;
    add_saying(out, seed, i)?;
    put_u8(out, b'\n')
}

/// Appends the line in which server `j` opens round `r`.
pub fn put_open_line(out: &mut Vec<u8>, r: u64, j: u32) -> Result<(), NoMemory>
    ensures { OnOk result (out.new.items ≡ out.old.items ++ open_line r j) }
{
    put_bytes(out, b"open")?;
    add_server(out, ServerId(j))?;
    add_number(out, r)?;
    put_u8(out, b'\n')
}

/// The client who leaves in round 2.
pub fn leaver(num: u64) -> u32
    ensures of { result ≡ leaver num }
    ensures within { result < 48 }
{
    (num % 48) as u32
}

/// Appends the line in which client `i` submits for round `r`, if it does.
pub fn put_submit_line(out: &mut Vec<u8>, num: u64, r: u64, i: u32) -> Result<(), NoMemory>
    ensures { OnOk result (out.new.items ≡ out.old.items ++ submit_line num r i) }
{
    if r == 3 && i == leaver(num) {
        return Ok(());
    }
    put_bytes(out, b"submit")?;
    add_client(out, ClientId(i))?;
    add_server(out, ServerId(i % 3))?;
    add_number(out, r)?;
    put_u8(out, b'\n')
}

/// Appends the line in which a client leaves, in round 2.
pub fn put_leave_line(out: &mut Vec<u8>, num: u64, r: u64) -> Result<(), NoMemory>
    ensures { OnOk result (out.new.items ≡ out.old.items ++ leave_line num r) }
{
    if r != 2 {
        return Ok(());
    }
    put_bytes(out, b"leave")?;
    add_client(out, ClientId(leaver(num)))?;
    put_u8(out, b'\n')
}
