// What servers answer, in words that can be compared.
use dn_memory::NoMemory;
use dn_server::{Act, Answer, Reason, SpoilReason};
use std::alloc::Global;

/// An answer, or one act of it.
#[derive(Clone, Copy, Debug, PartialEq, Eq)]
pub enum Word {
    Opened,
    Told,
    Closed,
    Post,
    /// The run of the round ended by what this server did.
    Spoiled(u32, SpoilReason),
    Certified,
    Held,
    Abandoned,
    Ignored(Reason),
    Early,
}

fn word_of(act: &Act) -> Word {
    match act {
        Act::Opened { .. } => Word::Opened,
        Act::Told { .. } => Word::Told,
        Act::Closed { .. } => Word::Closed,
        Act::Post { .. } => Word::Post,
        Act::Spoiled { server, reason, .. } => Word::Spoiled(server.0, *reason),
        Act::Certified(_) => Word::Certified,
        Act::Held { .. } => Word::Held,
        Act::Abandoned => Word::Abandoned,
    }
}

/// Appends the words of an answer.
pub fn put_words(words: &mut Vec<Word>, answer: &Answer) -> Result<(), NoMemory> {
    match answer {
        Answer::Acts(acts) => {
            for act in acts.get() {
                words.push(word_of(act))?;
            }
        }
        Answer::Ignored(reason) => words.push(Word::Ignored(*reason))?,
        Answer::Early => words.push(Word::Early)?,
    }
    Ok(())
}
