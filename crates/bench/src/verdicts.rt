// A verdict on a round of which much was said.
ghost use Rattle.std.specs.Prelude.{All, IfOk};
ghost use Rattle.dn_seal.specs.Said.{IsUnder};

use anyhow::{Context, Result};
use dn_seal::Said;
use dn_wire::{ClientId, ServerId, SignerId};
use played_rounds::{
    Jam, PlayFault, Played, concede, group, judged, opened, pad_bits, play, receipt, repeated,
    sealed, shown, submission,
};
use std::alloc::Global;
use std::rt::Clock;
use std::time::Instant;

/// The place that is judged.
const PLACE: u32 = 1_000;

/// The client that turns the bit there, and concedes it.
const JAMMER: u32 = 3;

/// Adds the envelope of a statement.
fn add(
    alloc: Global,
    played: &Played,
    who: SignerId,
    statement: &[u8],
    all: &mut Vec<Vec<u8>>,
) -> std::result::Result<(), PlayFault> {
    all.push(sealed(alloc, &played.dealt, who, statement)?)?;
    Ok(())
}

/// What each server opens.
fn add_openings(
    alloc: Global,
    played: &Played,
    all: &mut Vec<Vec<u8>>,
) -> std::result::Result<(), PlayFault> {
    for j in 0..played.dealt.roster.servers() {
        let server = SignerId::Server(ServerId(j));
        add(
            alloc,
            played,
            server,
            &pad_bits(alloc, played, j, &[])?,
            all,
        )?;
        add(alloc, played, server, &shown(alloc, played, j)?, all)?;
    }
    Ok(())
}

/// What each client submits, and the receipt for it.
fn add_submissions(
    alloc: Global,
    played: &Played,
    all: &mut Vec<Vec<u8>>,
) -> std::result::Result<(), PlayFault> {
    let servers = played.dealt.roster.servers();
    for i in 0..played.dealt.roster.clients() {
        let client = SignerId::Client(ClientId(i));
        add(
            alloc,
            played,
            client,
            &submission(alloc, played, i, [1; 32])?,
            all,
        )?;
        let server = SignerId::Server(ServerId(i.checked_rem(servers).unwrap_or(0)));
        add(
            alloc,
            played,
            server,
            &receipt(alloc, played, i, false)?,
            all,
        )?;
    }
    Ok(())
}

/// What is said of the round: openings, submissions with receipts, and the concession of who turned the bit.
fn said(alloc: Global, played: &Played) -> std::result::Result<Vec<Said>, PlayFault>
    ensures { IfOk result (λ v. All (IsUnder played.now.dealt.roster) v.items) }
{
    let mut all = Vec::new(alloc);
    add_openings(alloc, played, &mut all)?;
    add_submissions(alloc, played, &mut all)?;
    let jammer = SignerId::Client(ClientId(JAMMER));
    add(alloc, played, jammer, &concede(alloc, played)?, &mut all)?;
    opened(alloc, &played.dealt.roster, &all)
}

/// The seconds that a verdict takes, and how many members it blames and how many are silent.
fn timed(
    rt: &impl Clock,
    alloc: Global,
    played: &Played,
    heard: &[Said],
) -> Result<(f64, usize, usize)>
    requires { All (IsUnder played.now.dealt.roster) heard.now }
{
    let start = Instant::now(rt)?;
    let verdict = judged(alloc, played, heard)?;
    let seconds = start.elapsed(rt)?.as_secs_f64();
    Ok((
        seconds,
        verdict.blamed.get().len(),
        verdict.silent.get().len(),
    ))
}

/// The verdict on a round of so many clients and servers, of which so many envelopes were heard: what was said of it, again and again. The
/// line has how many were heard, how many members are blamed and how many are silent. The least seconds of five verdicts are written to
/// standard error.
pub fn line(
    rt: &(impl Clock + Eprint),
    alloc: Global,
    clients: u32,
    servers: u32,
    count: u32,
) -> Result<String> {
    let spec = group(clients, servers).context("a group outside the limits")?;
    let played = play(alloc, &spec, PLACE, Jam::Client(JAMMER))?;
    let said = said(alloc, &played)?;
    let heard = repeated(alloc, &played.dealt.roster, &said, count as usize)?;

    let (mut least, blamed, silent) = timed(rt, alloc, &played, &heard)?;
    for _ in 0..4 {
        least = least.min(timed(rt, alloc, &played, &heard)?.0);
    }
    eprintln!(rt; "verdict {least:.6}")?;
    let heard = heard.len();
    Ok(format!(in alloc; "{heard} heard, {blamed} blamed, {silent} silent")?)
}
