ghost use Rattle.std.specs.Prelude.{◌≡◌, ◌++◌, IfOk, OnOk, map};
ghost use Rattle.dn_bits.specs.Bits.{below};
ghost use Rattle.dn_script.specs.Plain.{IsScript, hex_of};
ghost use Rattle.dn_cmd.specs.Round as spec;

use crate::round::{ciphers, servers, total};
use crate::window::counted;
use dn_bits::Bits;
use dn_memory::NoMemory;
use dn_script::PlainScript;
use std::alloc::Global;

/// Appends bits in lower-case hex.
fn push_hex(alloc: Global, text: &mut Vec<u8>, bits: &Bits) -> Result<(), NoMemory>
    ensures { OnOk result (text.new.items ≡ text.old.items ++ hex_of bits.now) }
{
    let mut bytes = Vec::new(alloc);
    bits.write_bytes(alloc, &mut bytes)?;
    let hex = hex::encode(alloc, &bytes)?;
    text.extend_from_slice(hex.as_bytes())?;
    Ok(())
}

/// Appends a line of a word, a member's number and bits.
fn push_line(
    alloc: Global,
    text: &mut Vec<u8>,
    word: &str,
    number: u32,
    bits: &Bits,
) -> Result<(), NoMemory>
    ensures { OnOk result (text.new.items ≡ text.old.items ++ spec.bits_line word.now number bits.now) }
{
    let head = format!(in alloc; "{word} {number} ")?;
    text.extend_from_slice(head.as_bytes())?;
    push_hex(alloc, text, bits)?;
    text.extend_from_slice(b"\n")?;
    Ok(())
}

/// Appends the lines of the clients that count.
fn push_clients(
    alloc: Global,
    text: &mut Vec<u8>,
    script: &PlainScript,
    counted: &[u32],
    ciphers: &[Bits],
) -> Result<(), NoMemory>
    requires counted { counted.now ≡ spec.counted script.now }
    requires ciphers { ciphers.now ≡ map (spec.cipher script.now) (spec.counted script.now) }
    ensures { OnOk result (text.new.items
        ≡ text.old.items ++ spec.client_lines script.now (spec.counted script.now)) }
{
    for (place, client) in counted.iter().enumerate() {
        push_line(alloc, text, "c", *client, &ciphers[place])?;
    }
    Ok(())
}

/// Appends the lines of the servers.
fn push_servers(
    alloc: Global,
    text: &mut Vec<u8>,
    script: &PlainScript,
    parts: &[Bits],
) -> Result<(), NoMemory>
    requires { parts.now ≡ map (spec.server script.now) (below script.now.servers) }
    ensures { OnOk result (text.new.items
        ≡ text.old.items ++ spec.server_lines script.now (below script.now.servers)) }
{
    for server in 0..script.servers() {
        push_line(alloc, text, "s", server, &parts[server as usize])?;
    }
    Ok(())
}

/// The text of a plain script.
#[tactic(auto, unfolding(crate::specs::Round::plain_text))]
pub fn plain_text(alloc: Global, script: &PlainScript) -> Result<Vec<u8>, NoMemory>
    requires { IsScript script.now }
    ensures { IfOk result (λ text. text.items ≡ spec.plain_text script.now) }
{
    let mut text = Vec::from_slice(alloc, b"dissent-plain 1\n")?;
    let counted = counted(alloc, script, &mut text)?;
    let ciphers = ciphers(alloc, script, &counted)?;
    let parts = servers(alloc, script, &counted, &ciphers)?;
    let out = total(alloc, script, &parts)?;
    push_clients(alloc, &mut text, script, &counted, &ciphers)?;
    push_servers(alloc, &mut text, script, &parts)?;
    text.extend_from_slice(b"out ")?;
    push_hex(alloc, &mut text, &out)?;
    text.extend_from_slice(b"\n")?;
    Ok(text)
}
