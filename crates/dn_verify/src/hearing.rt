// What is heard of the payloads.

ghost use Rattle.std.specs.Prelude.{◌≡◌, ◌++◌, ◌∷◌, [], All, OnOk, Some};
ghost use Rattle.dn_seal.specs.Said.{IsUnder};
ghost use Rattle.dn_verify.specs.Payloads.{by_other, by_server, carried_in, heard_delivered, heard_put};
ghost use Rattle.dn_verify.specs.Under.{IsContentUnder};

use crate::content::Content;
use dn_cert::Opened;
use dn_memory::NoMemory;
use dn_roster::Roster;
use dn_seal::Said;
use dn_wire::SignerId;
use std::alloc::Global;

/// Hears a statement.
fn hear(alloc: Global, roster: &Roster, heard: &mut Vec<Said>, said: &Said) -> Result<(), NoMemory>
    requires under { IsUnder roster.now said.now }
    requires heard { All (IsUnder roster.now) heard.old.items }
    ensures under { OnOk result (All (IsUnder roster.now) heard.new.items) }
    ensures heard { OnOk result (heard.new.items ≡ heard.old.items ++ said.now ∷ []) }
{
    let _ = roster;
    let copy = said.copy(alloc)?;
    heard.push(copy)?;
    Ok(())
}

/// Hears a statement, where a server made it.
fn hear_server(
    alloc: Global,
    roster: &Roster,
    heard: &mut Vec<Said>,
    said: &Said,
) -> Result<(), NoMemory>
    requires under { IsUnder roster.now said.now }
    requires heard { All (IsUnder roster.now) heard.old.items }
    ensures under { OnOk result (All (IsUnder roster.now) heard.new.items) }
    ensures heard { OnOk result (heard.new.items ≡ heard.old.items ++ by_server said.now.signer said.now) }
{
    match said.signer() {
        SignerId::Server(_) => hear(alloc, roster, heard, said),
        _ => Ok(()),
    }
}

/// Hears a statement, where a client or a slot made it.
fn hear_other(
    alloc: Global,
    roster: &Roster,
    heard: &mut Vec<Said>,
    said: &Said,
) -> Result<(), NoMemory>
    requires under { IsUnder roster.now said.now }
    requires heard { All (IsUnder roster.now) heard.old.items }
    ensures under { OnOk result (All (IsUnder roster.now) heard.new.items) }
    ensures heard { OnOk result (heard.new.items ≡ heard.old.items ++ by_other said.now.signer said.now) }
{
    match said.signer() {
        SignerId::Server(_) => Ok(()),
        _ => hear(alloc, roster, heard, said),
    }
}

/// Hears the envelope of a payload that is put, where a server signed it. What a challenge shows isn't heard by that.
pub fn hear_put(
    alloc: Global,
    roster: &Roster,
    heard: &mut Vec<Said>,
    content: &Content,
) -> Result<(), NoMemory>
    requires under { IsContentUnder roster.now content.now }
    requires heard { All (IsUnder roster.now) heard.old.items }
    ensures under { OnOk result (All (IsUnder roster.now) heard.new.items) }
    ensures heard { OnOk result (heard.new.items ≡ heard.old.items ++ heard_put (Some (carried_in content.now))) }
{
    match content {
        Content::Open(Opened::Submission { said, .. }) => hear_server(alloc, roster, heard, said),
        Content::Open(Opened::Plain { said }) => hear_server(alloc, roster, heard, said),
        _ => Ok(()),
    }
}

/// Hears the envelope in a payload that reached a server: that of a client or a slot.
pub fn hear_delivered(
    alloc: Global,
    roster: &Roster,
    heard: &mut Vec<Said>,
    content: &Content,
) -> Result<(), NoMemory>
    requires under { IsContentUnder roster.now content.now }
    requires heard { All (IsUnder roster.now) heard.old.items }
    ensures under { OnOk result (All (IsUnder roster.now) heard.new.items) }
    ensures heard { OnOk result (heard.new.items ≡ heard.old.items ++ heard_delivered (Some (carried_in content.now))) }
{
    match content {
        Content::Open(Opened::Submission { said, .. }) => hear_other(alloc, roster, heard, said),
        Content::Open(Opened::Plain { said }) => hear_other(alloc, roster, heard, said),
        _ => Ok(()),
    }
}
