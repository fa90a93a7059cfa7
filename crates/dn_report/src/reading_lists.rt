// Reading lists of pairs and of members, and the version.

ghost use Rattle.std.specs.Prelude.{◌≡◌};
ghost use Rattle.dn_lines.specs.Field.{Gives, Reads};
ghost use Rattle.dn_lines.specs.Form.{take_field, read_each};
ghost use Rattle.dn_lines.specs.Fields.{member};
ghost use Rattle.dn_report.specs.Forms.{pair, version, comes_before, follows, in_order};

use crate::pairs::{ListedPair, ListedPairs};
use dn_lines::{Fields, LineFault, halves, member, number, small, text_of};
use dn_wire::{ClientId, Member, MemberList, ServerId};
use std::alloc::Global;

/// A client's number, `/`, and a server's.
fn pair(text: &[u8]) -> Option<ListedPair>
    ensures { result ≡ pair.read text.now }
{
    let (client, server) = halves(b'/', text)?;
    let client = ClientId(small(client)?);
    let server = ServerId(small(server)?);
    Some(ListedPair { client, server })
}

/// The pairs of all fields that are left.
pub fn pairs_of(alloc: Global, fields: &mut Fields) -> Result<ListedPairs, LineFault>
    ensures { Gives (λ x. x) result (read_each pair.read fields.old) }
{
    Ok(ListedPairs::of(pair_list(alloc, fields)?))
}

fn pair_list(alloc: Global, fields: &mut Fields) -> Result<Vec<ListedPair>, LineFault>
    ensures { Gives (λ v. v.items) result (read_each pair.read fields.old) }
{
    let mut list = Vec::new(alloc);
    while let Some(text) = fields.take() {
        let Some(pair) = pair(text) else {
            return Err(LineFault::Grammar);
        };
        list.push(pair)?;
    }
    Ok(list)
}

/// The members of all fields that are left.
pub fn members_of(alloc: Global, fields: &mut Fields) -> Result<MemberList, LineFault>
    ensures { Gives (λ x. x) result (read_each member.read fields.old) }
{
    Ok(MemberList::of(member_list(alloc, fields)?))
}

fn member_list(alloc: Global, fields: &mut Fields) -> Result<Vec<Member>, LineFault>
    ensures { Gives (λ v. v.items) result (read_each member.read fields.old) }
{
    let mut list = Vec::new(alloc);
    while let Some(text) = fields.take() {
        let Some(member) = member(text) else {
            return Err(LineFault::Grammar);
        };
        list.push(member)?;
    }
    Ok(list)
}

/// Whether the second may stand behind the first.
fn comes_before(first: Member, second: Member) -> bool
    ensures { result ≡ comes_before first second }
{
    match (first, second) {
        (Member::Server(i), Member::Server(j)) => i.0 < j.0,
        (Member::Server(_), Member::Client(_)) => true,
        (Member::Client(_), Member::Server(_)) => false,
        (Member::Client(i), Member::Client(j)) => i.0 < j.0,
    }
}

/// Whether servers stand first, and each kind ascends by number.
pub fn in_order(members: &[Member]) -> bool
    ensures { result ≡ in_order members.now }
{
    match members {
        [] => true,
        [first, rest @ ..] => follows(*first, rest),
    }
}

fn follows(first: Member, rest: &[Member]) -> bool
    ensures { result ≡ follows first rest.now }
{
    let mut last = first;
    for member in rest {
        if !comes_before(last, *member) {
            return false;
        }
        last = *member;
    }
    true
}

/// The version, 1 or 2.
pub fn version_of(fields: &mut Fields) -> Result<u8, LineFault>
    ensures { Reads (λ x. x) result fields.new (take_field version fields.old) }
{
    match number(1, 2, text_of(fields)?) {
        Some(version) => Ok(version as u8),
        None => Err(LineFault::Grammar),
    }
}
