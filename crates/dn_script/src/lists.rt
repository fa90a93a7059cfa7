// Lines with lists of members.

ghost use Rattle.std.specs.Prelude.{◌≡◌, ◌<◌, ◌+◌, ◌^◌, [], length};
ghost use Rattle.dn_script.specs.Judged.{seen_as, honest_client};
ghost use Rattle.dn_script.specs.Row.{Tells, read_every};
ghost use Rattle.dn_script.specs.Script.{read_race, read_once, read_corrupt};

use crate::fields::{expect, honest_server_at, small_at};
use crate::flaw::{Flaw, LineFault, bad};
use crate::judging::{GroupView, honest_client, is_among, member};
use crate::script_line::ScriptLine;
use crate::words::Words;
use dn_io::Cause;
use dn_wire::{MAX_RACE_LIST, MAX_RACE_WORKERS, Member, MemberList};
use std::alloc::Global;

/// The honest clients that all fields from field n on name.
fn racers(
    alloc: Global,
    group: GroupView,
    words: &mut Words,
    first: u32,
) -> Result<Vec<Member>, LineFault>
    requires { first + length words.old < 2 ^ 32 }
    ensures { Tells (λ v. v.items) result (read_every (honest_client (seen_as group.entry)) first words.old) }
{
    let mut list = Vec::new(alloc);
    let mut n = first;
    while let Some(text) = words.take() {
        let client = match honest_client(group, text) {
            Ok(client) => client,
            Err(flaw) => return Err(bad(n, flaw)),
        };
        list.push(client)?;
        n += 1;
    }
    Ok(list)
}

/// A `race` line.
#[tactic(auto, using(crate::proofs::RowLaws::taken_shorter), unfolding(crate::specs::Script::read_race))]
pub fn race(alloc: Global, group: GroupView, words: &mut Words) -> Result<ScriptLine, LineFault>
    ensures { Tells (λ x. x) result (read_race (seen_as group.entry) words.old) }
{
    expect(words, 3, MAX_RACE_LIST + 2)?;
    let server = honest_server_at(words, 1, group)?;
    let workers = small_at(words, 2, 1, MAX_RACE_WORKERS)?;
    let clients = MemberList::of(racers(alloc, group, words, 3)?);
    Ok(ScriptLine::Race {
        server,
        workers,
        clients,
    })
}

/// The members that all fields name, each once.
fn once(alloc: Global, group: GroupView, words: &mut Words) -> Result<Vec<Member>, LineFault>
    ensures { Tells (λ v. v.items) result (read_once (seen_as group.entry) 1 [] words.old) }
{
    let mut members = Vec::new(alloc);
    let mut n = 1u32;
    while let Some(text) = words.take() {
        let member = match member(group, text) {
            Ok(member) => member,
            Err(flaw) => return Err(bad(n, flaw)),
        };
        if is_among(member, &members) {
            return Err(bad(n, Flaw::Range));
        }
        members.push(member)?;
        let Some(next) = n.checked_add(1) else {
            return Err(LineFault::NoMemory);
        };
        n = next;
    }
    Ok(members)
}

/// A `corrupt` line.
#[tactic(auto, unfolding(crate::specs::Script::read_corrupt))]
pub fn corrupt(alloc: Global, group: GroupView, words: &mut Words) -> Result<ScriptLine, LineFault>
    ensures { Tells (λ x. x) result (read_corrupt (seen_as group.entry) words.old) }
{
    if words.has(0, 0) {
        return Err(LineFault::Bad(Cause::Fields));
    }
    Ok(ScriptLine::Corrupt(MemberList::of(once(alloc, group, words)?)))
}
