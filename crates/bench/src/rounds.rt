// A round of a group through the cores of all its servers, and its signature checks alone.

use crate::deal::within_limits;
use anyhow::{Context, Result, bail};
use dn_cert::{Opened, entry_verifies};
use dn_records::Statement;
use dn_roster::{GroupSpec, Roster};
use dn_seal::{Said, deal};
use played_groups::{
    Letter, Members, close_all, deliver_all, members_of, open_all, opened, submission_letters,
};
use played_rounds::PlayFault;
use std::alloc::Global;
use std::rt::Clock;
use std::thread::Threads;
use std::time::Instant;

/// Checks the entries of what was said, if it is an inventory.
fn check_entries(
    alloc: Global,
    roster: &Roster,
    said: &Said,
) -> std::result::Result<(), PlayFault> {
    let Statement::Inventory(inventory) = said.statement() else {
        return Ok(());
    };
    for entry in inventory.entries.get() {
        if !entry_verifies(alloc, roster, inventory.r, inventory.prev, entry)? {
            return Err(PlayFault::Unfit);
        }
    }
    Ok(())
}

/// The signature checks that letters ask of the servers that get them.
fn check_all(
    alloc: Global,
    roster: &Roster,
    letters: &[Letter],
) -> std::result::Result<(), PlayFault> {
    for letter in letters {
        if let Opened::Plain { said } = opened(alloc, roster, letter.payload.get())? {
            check_entries(alloc, roster, &said)?;
        }
    }
    Ok(())
}

/// What was put in a round, and how many certificates were made of it.
#[derive(Drop)]
struct Played {
    submissions: Vec<Letter>,
    others: Vec<Letter>,
    certificates: usize,
}

/// Round 1, which the servers have opened, with these submissions.
fn round<R: Threads + Sync>(
    rt: &R,
    alloc: Global,
    members: &mut Members,
    mut submissions: Vec<Letter>,
) -> std::result::Result<Played, PlayFault> {
    let _none = deliver_all(rt, alloc, &mut members.servers, &mut submissions)?;
    let mut others = close_all(rt, alloc, &mut members.servers)?;
    let certificates = deliver_all(rt, alloc, &mut members.servers, &mut others)?.len();
    Ok(Played {
        submissions,
        others,
        certificates,
    })
}

/// Round 1 of a group, in which all clients submit, each of whose payloads is opened by each server that gets it. The line has how many
/// certificates were made and how many letters were delivered. The seconds of the round, and those of its signature checks alone, are
/// written to standard error.
pub fn line<R: Threads + Clock + Eprint + Sync>(
    rt: &R,
    alloc: Global,
    group: GroupSpec,
) -> Result<String> {
    let group = within_limits(group).context("a group outside the limits")?;
    let Ok(dealt) = deal(alloc, &group) else {
        bail!("no memory");
    };
    let mut members = members_of(alloc, &dealt)?;
    let submissions = submission_letters(alloc, &mut members, 1)?;
    open_all(&mut members.servers, 1)?;
    let start = Instant::now(rt)?;
    let played = round(rt, alloc, &mut members, submissions)?;
    let whole = start.elapsed(rt)?.as_secs_f64();
    let start = Instant::now(rt)?;
    check_all(alloc, &dealt.roster, &played.submissions)?;
    check_all(alloc, &dealt.roster, &played.others)?;
    let checks = start.elapsed(rt)?.as_secs_f64();
    eprintln!(rt; "round {whole:.6} checks {checks:.6}")?;
    let letters = played.submissions.len().saturating_add(played.others.len());
    let certificates = played.certificates;
    Ok(format!(in alloc; "{certificates} certificates, {letters} letters")?)
}
