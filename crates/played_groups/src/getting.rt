// Letters that reach a server.
use crate::delivering::{Letter, deliver};
use crate::done::{Done, nothing_done, put_done};
use dn_exchange::ServerCore;
use played_rounds::PlayFault;
use std::alloc::Global;
use std::thread::Threads;

/// Delivers a letter, if it goes to this server, and appends what the server answers.
fn get<R: Threads + Sync>(
    rt: &R,
    alloc: Global,
    core: &mut ServerCore,
    done: &mut Done,
    letter: &Letter,
) -> Result<(), PlayFault> {
    if letter.to != core.number().0 {
        return Ok(());
    }
    let answer = deliver(rt, alloc, core, letter.payload.get())?;
    put_done(alloc, done, &answer)
}

/// What a server answers to those of these letters that go to it; the other letters stay away.
pub fn get_all<R: Threads + Sync>(
    rt: &R,
    alloc: Global,
    core: &mut ServerCore,
    letters: &[Letter],
) -> Result<Done, PlayFault> {
    let mut done = nothing_done(alloc);
    for letter in letters {
        get(rt, alloc, core, &mut done, letter)?;
    }
    Ok(done)
}
