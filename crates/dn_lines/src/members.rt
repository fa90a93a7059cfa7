ghost use Rattle.std.specs.Prelude.{◌≡◌};
ghost use Rattle.dn_lines.specs.Fields.{number, client, server, member, member_in, read_behind};

use crate::numbers::number;
use dn_wire::{ClientId, Member, ServerId};

/// Any number of four bytes.
pub fn small(text: &[u8]) -> Option<u32>
    ensures { result ≡ number.read text.now }
{
    let value = number(0, 4_294_967_295, text)?;
    Some(value as u32)
}

/// What stands behind this letter, read as a number of four bytes.
fn behind(letter: u8, text: &[u8]) -> Option<u32>
    ensures { result ≡ read_behind letter number.read text.now }
{
    match text {
        [] => None,
        [first, rest @ ..] => {
            if *first != letter {
                return None;
            }
            small(rest)
        }
    }
}

/// A client: `c` and its number.
pub fn client(text: &[u8]) -> Option<ClientId>
    ensures { result ≡ client.read text.now }
{
    let number = behind(b'c', text)?;
    Some(ClientId(number))
}

/// A server: `s` and its number.
pub fn server(text: &[u8]) -> Option<ServerId>
    ensures { result ≡ server.read text.now }
{
    let number = behind(b's', text)?;
    Some(ServerId(number))
}

/// A client or a server.
#[tactic(auto, unfolding(crate::specs::Fields::member_in))]
pub fn member(text: &[u8]) -> Option<Member>
    ensures { result ≡ member.read text.now }
{
    match text {
        [] => None,
        [first, rest @ ..] => {
            if *first == b'c' {
                return Some(Member::Client(ClientId(small(rest)?)));
            }
            if *first == b's' {
                return Some(Member::Server(ServerId(small(rest)?)));
            }
            None
        }
    }
}
