// What a server did, as plain data.
use crate::delivering::{Letter, put_letters};
use crate::outcome::{Outcome, outcome_of};
use crate::words::{Word, put_words};
use dn_server::{Act, Answer};
use dn_wire::{Bytes, ClientId, Member};
use played_rounds::PlayFault;
use std::alloc::Global;

/// What servers answered: in words, what they put to other servers, what their certificates say, the clients to which alone they put
/// something, and the bytes that they told where a round was spoiled: what was kept, and what came.
#[derive(Drop)]
pub struct Done {
    pub words: Vec<Word>,
    pub letters: Vec<Letter>,
    pub outcomes: Vec<Outcome>,
    pub clients: Vec<u32>,
    pub against: Vec<Bytes>,
}

pub fn nothing_done(alloc: Global) -> Done {
    Done {
        words: Vec::new(alloc),
        letters: Vec::new(alloc),
        outcomes: Vec::new(alloc),
        clients: Vec::new(alloc),
        against: Vec::new(alloc),
    }
}

/// Appends what the certificates of an answer say.
fn put_outcomes(outcomes: &mut Vec<Outcome>, answer: &Answer) -> Result<(), PlayFault> {
    let Answer::Acts(acts) = answer else {
        return Ok(());
    };
    for act in acts.get() {
        if let Act::Certified(certificate) = act {
            outcomes.push(outcome_of(certificate))?;
        }
    }
    Ok(())
}

/// Appends the clients to which alone an answer puts something.
fn put_clients(clients: &mut Vec<u32>, answer: &Answer) -> Result<(), PlayFault> {
    let Answer::Acts(acts) = answer else {
        return Ok(());
    };
    for act in acts.get() {
        if let Act::Post { to, .. } = act {
            if let [Member::Client(ClientId(i))] = to.get() {
                clients.push(*i)?;
            }
        }
    }
    Ok(())
}

/// Appends what an answer tells where a round is spoiled: what was kept, and what came.
fn put_against(alloc: Global, against: &mut Vec<Bytes>, answer: &Answer) -> Result<(), PlayFault> {
    let Answer::Acts(acts) = answer else {
        return Ok(());
    };
    for act in acts.get() {
        if let Act::Spoiled { kept, came, .. } = act {
            against.push(kept.copy(alloc)?)?;
            against.push(came.copy(alloc)?)?;
        }
    }
    Ok(())
}

/// Appends what an answer says.
pub fn put_done(alloc: Global, done: &mut Done, answer: &Answer) -> Result<(), PlayFault> {
    put_words(&mut done.words, answer)?;
    put_letters(alloc, &mut done.letters, answer)?;
    put_outcomes(&mut done.outcomes, answer)?;
    put_clients(&mut done.clients, answer)?;
    put_against(alloc, &mut done.against, answer)
}

/// What an answer says.
pub fn done_by(alloc: Global, answer: &Answer) -> Result<Done, PlayFault> {
    let mut done = nothing_done(alloc);
    put_done(alloc, &mut done, answer)?;
    Ok(done)
}
