// The next field of a line, which has this number.

ghost use Rattle.std.specs.Prelude.{◌≡◌, ◌∷◌, [], ◌+◌, ◌/◌, length, is_none, MatchResult, Ok, Err, if◌then◌else◌};
ghost use Rattle.dn_io.specs.declared.cause.Cause.{Cause};
ghost use Rattle.dn_lines.specs.Fields.{bytes_in};
ghost use Rattle.dn_script.specs.Words.{has};
ghost use Rattle.dn_script.specs.Judged.{seen_as, within, bytes_within, any_bytes, bytes_or_none, client_in, server_in, member_in, corrupt_member, corrupt_server, honest_server, honest_client};
ghost use Rattle.dn_script.specs.Row.{Tells, Takes, take_judged, no_more};
ghost use Rattle.dn_script.specs.Script.{round, place, client_number, seed, bits, has_bits_behind, place_or_first};

use crate::flaw::{Flaw, LineFault, bad};
use crate::judging::{
    GroupView, client, corrupt_member, corrupt_server, honest_client, honest_server, member,
    number, server, small,
};
use crate::words::Words;
use dn_io::Cause;
use dn_lines::bytes;
use dn_wire::{Bytes, ClientId, MAX_BITS, MAX_ROUND, Member, Round, ServerId};
use std::alloc::Global;

/// So many fields are left.
pub fn expect(words: &Words, low: u32, high: u32) -> Result<(), LineFault>
    ensures { Tells (λ x. x) result (if has low high words.now then Ok tt else Err Cause.Fields) }
{
    if words.has(low, high) {
        Ok(())
    } else {
        Err(LineFault::Bad(Cause::Fields))
    }
}

/// No field is left.
pub fn end_of(words: &mut Words) -> Result<(), LineFault>
    ensures { Tells (λ x. x) result (no_more words.old) }
{
    match words.take() {
        None => Ok(()),
        Some(_) => Err(LineFault::Bad(Cause::Fields)),
    }
}

/// The next field, which must be there.
pub fn text_of<'a>(words: &mut Words<'a>) -> Result<&'a [u8], LineFault>
    ensures { MatchResult result (λ text. words.old ≡ text.now ∷ words.new)
        (λ e. (e ≡ LineFault.Bad Cause.Fields) × (words.old ≡ [])) }
{
    words.take().ok_or(LineFault::Bad(Cause::Fields))
}

pub fn number_at(words: &mut Words, n: u32, low: u64, high: u64) -> Result<u64, LineFault>
    ensures { Takes (λ x. x) result words.new (take_judged (within low high) n words.old) }
{
    match number(low, high, text_of(words)?) {
        Ok(value) => Ok(value),
        Err(flaw) => Err(bad(n, flaw)),
    }
}

pub fn small_at(words: &mut Words, n: u32, low: u32, high: u32) -> Result<u32, LineFault>
    ensures { Takes (λ x. x) result words.new (take_judged (within low high) n words.old) }
{
    match small(low, high, text_of(words)?) {
        Ok(value) => Ok(value),
        Err(flaw) => Err(bad(n, flaw)),
    }
}

pub fn client_at(words: &mut Words, n: u32, group: GroupView) -> Result<ClientId, LineFault>
    ensures { Takes (λ x. x) result words.new (take_judged (client_in (seen_as group.entry)) n words.old) }
{
    match client(group, text_of(words)?) {
        Ok(value) => Ok(value),
        Err(flaw) => Err(bad(n, flaw)),
    }
}

pub fn server_at(words: &mut Words, n: u32, group: GroupView) -> Result<ServerId, LineFault>
    ensures { Takes (λ x. x) result words.new (take_judged (server_in (seen_as group.entry)) n words.old) }
{
    match server(group, text_of(words)?) {
        Ok(value) => Ok(value),
        Err(flaw) => Err(bad(n, flaw)),
    }
}

pub fn member_at(words: &mut Words, n: u32, group: GroupView) -> Result<Member, LineFault>
    ensures { Takes (λ x. x) result words.new (take_judged (member_in (seen_as group.entry)) n words.old) }
{
    match member(group, text_of(words)?) {
        Ok(value) => Ok(value),
        Err(flaw) => Err(bad(n, flaw)),
    }
}

pub fn corrupt_member_at(words: &mut Words, n: u32, group: GroupView) -> Result<Member, LineFault>
    ensures { Takes (λ x. x) result words.new (take_judged (corrupt_member (seen_as group.entry)) n words.old) }
{
    match corrupt_member(group, text_of(words)?) {
        Ok(value) => Ok(value),
        Err(flaw) => Err(bad(n, flaw)),
    }
}

pub fn corrupt_server_at(words: &mut Words, n: u32, group: GroupView) -> Result<ServerId, LineFault>
    ensures { Takes (λ x. x) result words.new (take_judged (corrupt_server (seen_as group.entry)) n words.old) }
{
    match corrupt_server(group, text_of(words)?) {
        Ok(value) => Ok(value),
        Err(flaw) => Err(bad(n, flaw)),
    }
}

pub fn honest_server_at(words: &mut Words, n: u32, group: GroupView) -> Result<ServerId, LineFault>
    ensures { Takes (λ x. x) result words.new (take_judged (honest_server (seen_as group.entry)) n words.old) }
{
    match honest_server(group, text_of(words)?) {
        Ok(value) => Ok(value),
        Err(flaw) => Err(bad(n, flaw)),
    }
}

pub fn honest_client_at(words: &mut Words, n: u32, group: GroupView) -> Result<Member, LineFault>
    ensures { Takes (λ x. x) result words.new (take_judged (honest_client (seen_as group.entry)) n words.old) }
{
    match honest_client(group, text_of(words)?) {
        Ok(value) => Ok(value),
        Err(flaw) => Err(bad(n, flaw)),
    }
}

pub fn round_at(words: &mut Words, n: u32) -> Result<Round, LineFault>
    ensures { Takes (λ x. x) result words.new (take_judged round n words.old) }
{
    Ok(Round(number_at(words, n, 1, MAX_ROUND)?))
}

pub fn client_number_at(words: &mut Words, n: u32, clients: u32) -> Result<ClientId, LineFault>
    ensures { Takes (λ x. x) result words.new (take_judged (client_number clients) n words.old) }
{
    Ok(ClientId(small_at(words, n, 0, clients.saturating_sub(1))?))
}

pub fn place_at(words: &mut Words, n: u32) -> Result<u32, LineFault>
    ensures { Takes (λ x. x) result words.new (take_judged place n words.old) }
{
    small_at(words, n, 0, MAX_BITS - 1)
}

pub fn place_or_first_at(words: &mut Words, n: u32) -> Result<Option<u32>, LineFault>
    ensures { Takes (λ x. x) result words.new (take_judged place_or_first n words.old) }
{
    let text = text_of(words)?;
    if text == b"first".as_slice() {
        return Ok(None);
    }
    match small(0, MAX_BITS - 1, text) {
        Ok(place) => Ok(Some(place)),
        Err(flaw) => Err(bad(n, flaw)),
    }
}

/// The bytes that field n spells.
fn bytes_in(alloc: Global, n: u32, text: &[u8]) -> Result<Vec<u8>, LineFault>
    ensures { Tells (λ v. v.items) result (if is_none (bytes_in text.now) then Err (Cause.Hex n) else Ok (bytes_or_none text.now)) }
{
    match bytes(alloc, text) {
        Ok(bytes) => Ok(bytes),
        Err(dn_lines::LineFault::Grammar) => Err(bad(n, Flaw::Hex)),
        Err(dn_lines::LineFault::NoMemory) => Err(LineFault::NoMemory),
    }
}

pub fn any_bytes_at(alloc: Global, words: &mut Words, n: u32) -> Result<Bytes, LineFault>
    ensures { Takes (λ x. x) result words.new (take_judged any_bytes n words.old) }
{
    Ok(Bytes::of(bytes_in(alloc, n, text_of(words)?)?))
}

pub fn bytes_at(
    alloc: Global,
    words: &mut Words,
    n: u32,
    low: usize,
    high: usize,
) -> Result<Bytes, LineFault>
    ensures { Takes (λ x. x) result words.new (take_judged (bytes_within low high) n words.old) }
{
    let bytes = bytes_in(alloc, n, text_of(words)?)?;
    if bytes.len() < low || high < bytes.len() {
        return Err(bad(n, Flaw::Range));
    }
    Ok(Bytes::of(bytes))
}

pub fn seed_at(alloc: Global, words: &mut Words, n: u32) -> Result<[u8; 32], LineFault>
    ensures { Takes (λ x. x) result words.new (take_judged seed n words.old) }
{
    let bytes = bytes_in(alloc, n, text_of(words)?)?;
    if bytes.len() != 32 {
        return Err(bad(n, Flaw::Range));
    }
    let mut seed = [0; 32];
    seed.copy_from_slice(&bytes);
    Ok(seed)
}

/// Whether a bit behind the first n is set.
fn has_bits_behind(n: u32, bytes: &[u8]) -> bool
    requires { length bytes.now ≡ (n + 7) / 8 }
    ensures { result ≡ has_bits_behind n bytes.now }
{
    match bytes.last() {
        None => false,
        Some(last) => u32::from(*last) % (1 << ((8 - n % 8) % 8)) != 0,
    }
}

pub fn bits_at(alloc: Global, words: &mut Words, n: u32, count: u32) -> Result<Bytes, LineFault>
    ensures { Takes (λ x. x) result words.new (take_judged (bits count) n words.old) }
{
    let bytes = bytes_in(alloc, n, text_of(words)?)?;
    if bytes.len() != count.div_ceil(8) as usize || has_bits_behind(count, &bytes) {
        return Err(bad(n, Flaw::Range));
    }
    Ok(Bytes::of(bytes))
}
