ghost use Rattle.std.specs.Prelude.{◌≡◌, ◌++◌, ◌*◌, ◌≤◌, length, IfOk, IfSome, OnOk};
ghost use Rattle.std.specs.List.{AllByRecursion};
ghost use Rattle.std.specs.Option.{option_copied};
ghost use Rattle.dn_bits.specs.Bits.{first_bits};
ghost use Rattle.dn_script.specs.Plain.{message, said_by, said_in, plain_line, plain_lines, plain_of, CanSay, IsScript};
ghost use Rattle.dn_script.specs.Context.{nothing_yet};
ghost use Rattle.dn_script.specs.Spelled.{IsLegal};

use crate::plain_line::PlainLine;
use crate::script::Script;
use crate::script_line::ScriptLine;
use dn_bits::{Bits, BitsFault};
use dn_memory::NoMemory;
use dn_wire::ClientId;
use std::alloc::Global;
use std::marker::Model;

/// A plain script. Clients and servers are counted from 0.
#[derive(Drop)]
pub struct PlainScript {
    clients: u32,
    servers: u32,
    bits: u32,
    seed: [u8; 32],
    lines: Vec<PlainLine>,
}

impl Model for PlainScript {
    ghost use Rattle.dn_script.specs.Plain.{Plain};

    ghost Value = { Plain };

    ghost view = { λ s. record {
      clients = s.clients;
      servers = s.servers;
      bits = s.bits;
      seed = s.seed;
      lines = s.lines.items;
    } };
}

/// What a line says for a client.
fn said_in(line: &PlainLine, client: ClientId) -> Option<&Bits>
    ensures { option_copied result ≡ said_in line.now client.0 }
{
    match line {
        PlainLine::Say {
            client: speaker,
            message,
        } => {
            if speaker.0 == client.0 {
                Some(message)
            } else {
                None
            }
        }
        PlainLine::Submit(_) | PlainLine::Tick(_) | PlainLine::Close => None,
    }
}

/// What the first line that says anything for a client says for it.
fn said_by(lines: &[PlainLine], client: ClientId) -> Option<&Bits>
    ensures { option_copied result ≡ said_by lines.now client.0 }
{
    for line in lines {
        if let Some(message) = said_in(line, client) {
            return Some(message);
        }
    }
    None
}

impl PlainScript {
    /// The number of clients, 1 to 512.
    pub fn clients(&self) -> u32
        ensures { result ≡ self.now.clients }
    {
        self.clients
    }

    /// The number of servers, 1 to 16.
    pub fn servers(&self) -> u32
        ensures { result ≡ self.now.servers }
    {
        self.servers
    }

    /// The number of bits of the round, 1 to 65,536.
    pub fn bits(&self) -> u32
        ensures { result ≡ self.now.bits }
    {
        self.bits
    }

    /// The seed of the dealer.
    pub fn seed(&self) -> &[u8; 32]
        ensures { result.now ≡ self.now.seed }
    {
        &self.seed
    }

    /// The lines between the first and the last, in order.
    pub fn lines(&self) -> &[PlainLine]
        ensures { result.now ≡ self.now.lines }
    {
        &self.lines
    }

    /// The message of a client, in memory of its own: zeros where no line says anything for it.
    pub fn message(&self, alloc: Global, client: ClientId) -> Result<Bits, NoMemory>
        ensures { IfOk result (λ bits. bits ≡ message self.now client.0) }
    {
        match said_by(&self.lines, client) {
            Some(message) => message.copy(alloc),
            None => Bits::zeros(alloc, self.bits),
        }
    }
}

/// The bits that bytes begin with.
fn bits_of(alloc: Global, bytes: &[u8], count: u32) -> Result<Bits, NoMemory>
    requires { count ≤ 8 * length bytes.now }
    ensures { IfOk result (λ bits. bits ≡ first_bits bytes.now count) }
{
    match Bits::from_bytes(alloc, bytes, count) {
        Ok(bits) => Ok(bits),
        Err(BitsFault::NoMemory) => Err(NoMemory),
        Err(BitsFault::Short { .. }) => unreachable!(),
    }
}

/// Appends what a line behind the first says, in a script of so many bits.
fn push_line(
    alloc: Global,
    lines: &mut Vec<PlainLine>,
    line: &ScriptLine,
    bits: u32,
) -> Result<(), NoMemory>
    requires { CanSay bits line.now }
    ensures { OnOk result (lines.new.items ≡ lines.old.items ++ plain_line bits line.now) }
{
    match line {
        ScriptLine::PlainSay { client, message } => {
            let message = bits_of(alloc, message.get(), bits)?;
            lines.push(PlainLine::Say {
                client: *client,
                message,
            })?;
        }
        ScriptLine::PlainSubmit { client } => lines.push(PlainLine::Submit(*client))?,
        ScriptLine::Tick { count } => lines.push(PlainLine::Tick(*count))?,
        ScriptLine::PlainClose => lines.push(PlainLine::Close)?,
        _ => {}
    }
    Ok(())
}

/// What the lines behind the first say, in a script of so many bits.
fn lines_behind(
    alloc: Global,
    rest: &[(u64, ScriptLine)],
    bits: u32,
) -> Result<Vec<PlainLine>, NoMemory>
    requires { AllByRecursion (λ line. CanSay bits line.1) rest.now }
    ensures { IfOk result (λ v. v.items ≡ plain_lines bits rest.now) }
{
    let mut lines = Vec::new(alloc);
    for line in rest {
        push_line(alloc, &mut lines, &line.1, bits)?;
    }
    Ok(lines)
}

/// The plain script that the script is; None where it is one of a group.
pub fn plain_script(alloc: Global, script: &Script) -> Result<Option<PlainScript>, NoMemory>
    requires { IsLegal nothing_yet script.now }
    ensures plain { IfOk result (λ p. p ≡ plain_of script.now) }
    ensures legal { IfOk result (λ p. IfSome p IsScript) }
{
    let Some(((_, first), rest)) = script.lines().split_first() else {
        return Ok(None);
    };
    let ScriptLine::Plain {
        clients,
        servers,
        bits,
        seed,
    } = first
    else {
        return Ok(None);
    };
    Ok(Some(PlainScript {
        clients: *clients,
        servers: *servers,
        bits: *bits,
        seed: *seed,
        lines: lines_behind(alloc, rest, *bits)?,
    }))
}
