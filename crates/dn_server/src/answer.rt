ghost use Rattle.std.specs.Prelude.{◌≡◌, ◌∷◌, [], IfOk};

use crate::act::{Act, Acts};
use dn_memory::NoMemory;
use std::alloc::Global;

/// Why a server does nothing with what it is asked.
#[derive(Clone, Copy, Debug, PartialEq, Eq)]
pub enum Reason {
    /// The round was opened before, or a certificate of it is held; or it is below the last one opened.
    Old,
    /// A round runs.
    Running,
    /// Too few leaves are left.
    Spent,
    /// The signer isn't the one that the statement names.
    Key,
    /// The statement follows another round, or the round that it follows isn't held.
    Prev,
    /// The ciphertext or the output hasn't the length of the round.
    Length,
    /// The ciphertext hasn't the digest that was signed.
    Digest,
    /// The window isn't open.
    Shut,
    /// No round runs.
    Idle,
    /// The statement is kept already, or the place is opened already.
    Repeat,
    /// A server has no use for statements of this kind by this signer.
    Kind,
    /// No certificate of the round is held, or the server didn't sign its body.
    Body,
    /// The place isn't in the slot's range.
    Place,
    /// The output has a 0 at the place.
    Zero,
    /// A certificate of the round is held.
    Known,
    /// The certificate is thin where the floor asks for data, or the other way round.
    Floor,
}

/// What a server answers to a call.
#[derive(Drop)]
pub enum Answer {
    /// What it does, in order.
    Acts(Acts),
    Ignored(Reason),
    /// The round isn't opened yet: nothing is changed, and the call can be made again.
    Early,
}

/// One act, as an answer.
pub fn does_one(alloc: Global, act: Act) -> Result<Answer, NoMemory>
    ensures { IfOk result (λ a. a ≡ Answer.Acts (act ∷ [])) }
{
    let mut acts = Vec::new(alloc);
    acts.push(act)?;
    Ok(Answer::Acts(Acts::of(acts)))
}
