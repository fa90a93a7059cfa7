// The value of one field, or what is wrong with it.

ghost use Rattle.std.specs.Prelude.{◌≡◌, ◌<◌, ◌^◌, ◌==◌, ◌&&◌, length, slice_index, Ok, Err, nat_le, drop, true, if◌then◌else◌};
ghost use Rattle.std.specs.Str.{all_ascii_digits};
ghost use Rattle.std.specs.Str.Parse.{digits_value};
ghost use Rattle.dn_script.specs.Judged.{seen_as, judge, within, is_numeral, is_behind, behind, is_corrupt, client_in, server_in, member_in, corrupt_member, corrupt_server, honest_server, honest_client, same_member, is_among};

use crate::flaw::Flaw;
use dn_wire::{ClientId, Member, ServerId};

/// The numbers of clients and servers of a group, and its corrupt members.
#[derive(Clone, Copy)]
pub struct GroupView<'a> {
    pub clients: u32,
    pub servers: u32,
    pub corrupt: &'a [Member],
}

/// Digits alone.
fn digits_alone(text: &[u8]) -> bool
    ensures { result ≡ all_ascii_digits text.now }
{
    for b in text {
        if !b.is_ascii_digit() {
            return false;
        }
    }
    true
}

/// Digits alone, one at least, and no zero in front of others.
pub fn is_numeral(text: &[u8]) -> bool
    ensures { result ≡ is_numeral text.now }
{
    match text {
        [] => false,
        [first, rest @ ..] => (rest.is_empty() || *first != b'0') && digits_alone(text),
    }
}

/// A number from low to high.
pub fn number(low: u64, high: u64, text: &[u8]) -> Result<u64, Flaw>
    ensures { result ≡ judge (within low high) text.now }
{
    if !is_numeral(text) {
        return Err(Flaw::Number);
    }
    let Some(value) = dn_lines::value_of(text, high) else {
        return Err(Flaw::Range);
    };
    if value < low {
        return Err(Flaw::Range);
    }
    Ok(value)
}

/// A number of four bytes, from low to high.
pub fn small(low: u32, high: u32, text: &[u8]) -> Result<u32, Flaw>
    ensures { result ≡ judge (within low high) text.now }
{
    if !is_numeral(text) {
        return Err(Flaw::Number);
    }
    let Some(value) = dn_lines::value_of(text, u64::from(high)) else {
        return Err(Flaw::Range);
    };
    if value < u64::from(low) {
        return Err(Flaw::Range);
    }
    Ok(value as u32)
}

/// Whether the members are one.
fn same_member(m: Member, n: Member) -> bool
    ensures { result ≡ same_member m n }
{
    match (m, n) {
        (Member::Client(i), Member::Client(j)) => i.0 == j.0,
        (Member::Server(i), Member::Server(j)) => i.0 == j.0,
        _ => false,
    }
}

/// Whether a member stands in a list.
pub fn is_among(m: Member, members: &[Member]) -> bool
    ensures { result ≡ is_among m members.now }
{
    for n in members {
        if same_member(m, *n) {
            return true;
        }
    }
    false
}

/// The number, where it is below a limit.
fn below(limit: u32, text: &[u8]) -> Result<u32, Flaw>
    requires { is_numeral text.now ≡ true }
    ensures { result ≡ (if nat_le limit (digits_value 10 text.now) then Err Flaw.Range else Ok (digits_value 10 text.now)) }
{
    let Some(value) = dn_lines::value_of(text, u64::from(limit)) else {
        return Err(Flaw::Range);
    };
    if value >= u64::from(limit) {
        return Err(Flaw::Range);
    }
    Ok(value as u32)
}

/// The number behind a letter, where it is below a limit.
fn number_behind(letter: u8, limit: u32, text: &[u8]) -> Result<u32, Flaw>
    ensures { result ≡ judge (behind letter limit) text.now }
{
    match text {
        [] => Err(Flaw::Number),
        [first, rest @ ..] => {
            if *first != letter || !is_numeral(rest) {
                return Err(Flaw::Number);
            }
            below(limit, rest)
        }
    }
}

/// A client of the group.
pub fn client(group: GroupView, text: &[u8]) -> Result<ClientId, Flaw>
    ensures { result ≡ judge (client_in (seen_as group.entry)) text.now }
{
    Ok(ClientId(number_behind(b'c', group.clients, text)?))
}

/// A server of the group.
pub fn server(group: GroupView, text: &[u8]) -> Result<ServerId, Flaw>
    ensures { result ≡ judge (server_in (seen_as group.entry)) text.now }
{
    Ok(ServerId(number_behind(b's', group.servers, text)?))
}

/// A member of the group.
pub fn member(group: GroupView, text: &[u8]) -> Result<Member, Flaw>
    ensures { result ≡ judge (member_in (seen_as group.entry)) text.now }
{
    match number_behind(b'c', group.clients, text) {
        Ok(client) => Ok(Member::Client(ClientId(client))),
        Err(Flaw::Number) => Ok(Member::Server(ServerId(number_behind(
            b's',
            group.servers,
            text,
        )?))),
        Err(flaw) => Err(flaw),
    }
}

fn is_corrupt(group: GroupView, m: Member) -> bool
    ensures { result ≡ is_corrupt (seen_as group.entry) m }
{
    is_among(m, group.corrupt)
}

/// A corrupt member of the group.
pub fn corrupt_member(group: GroupView, text: &[u8]) -> Result<Member, Flaw>
    ensures { result ≡ judge (corrupt_member (seen_as group.entry)) text.now }
{
    let member = member(group, text)?;
    if !is_corrupt(group, member) {
        return Err(Flaw::Honest);
    }
    Ok(member)
}

/// A corrupt server of the group.
pub fn corrupt_server(group: GroupView, text: &[u8]) -> Result<ServerId, Flaw>
    ensures { result ≡ judge (corrupt_server (seen_as group.entry)) text.now }
{
    let server = server(group, text)?;
    if !is_corrupt(group, Member::Server(server)) {
        return Err(Flaw::Honest);
    }
    Ok(server)
}

/// An honest server of the group.
pub fn honest_server(group: GroupView, text: &[u8]) -> Result<ServerId, Flaw>
    ensures { result ≡ judge (honest_server (seen_as group.entry)) text.now }
{
    let server = server(group, text)?;
    if is_corrupt(group, Member::Server(server)) {
        return Err(Flaw::Corrupt);
    }
    Ok(server)
}

/// An honest client of the group, as a member.
pub fn honest_client(group: GroupView, text: &[u8]) -> Result<Member, Flaw>
    ensures { result ≡ judge (honest_client (seen_as group.entry)) text.now }
{
    let client = Member::Client(client(group, text)?);
    if is_corrupt(group, client) {
        return Err(Flaw::Corrupt);
    }
    Ok(client)
}
