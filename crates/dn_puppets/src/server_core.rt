// The calls of a corrupt server's core. It keeps its place in the group.
ghost use Rattle.std.specs.Prelude.{◌≡◌, OnOk};
ghost use Rattle.dn_state.specs.Sound.{IsOfGroup};
ghost use Rattle.dn_puppets.specs.Statements.{IsSignable};

use dn_accuse::Judging;
use dn_cert::Opened;
use dn_exchange::ServerCore;
use dn_memory::NoMemory;
use dn_records::Statement;
use dn_seal::SealFault;
use dn_server::{Answer, Reason};
use dn_wire::Round;
use std::alloc::Global;
use std::thread::Threads;

/// What a server is called to do.
#[derive(Clone, Copy, Debug, PartialEq, Eq)]
pub enum ServerCall {
    Open(Round),
    Tick,
    Close,
    Abandon,
}

/// What a server answers to a call.
pub fn called<R: Threads + Sync>(
    rt: &R,
    core: &mut ServerCore,
    call: ServerCall,
) -> Result<Answer, NoMemory>
    ensures { OnOk result (core.new.seat ≡ core.old.seat) }
{
    match call {
        ServerCall::Open(r) => core.open_round(r),
        ServerCall::Tick => core.tick(rt),
        ServerCall::Close => core.close(rt),
        ServerCall::Abandon => core.abandon(),
    }
}

/// What it answers to what reaches it.
pub fn reached<R: Threads + Sync>(
    rt: &R,
    core: &mut ServerCore,
    opened: &Opened,
) -> Result<Answer, NoMemory>
    requires { IsOfGroup core.old.seat.roster opened.now }
    ensures { OnOk result (core.new.seat ≡ core.old.seat) }
{
    match opened {
        Opened::Submission { cipher, said } => core.submitted(said, cipher),
        Opened::Plain { said } => core.hear(rt, &Judging, said),
        Opened::Certificate { certificate } => core.hold(certificate),
        Opened::Challenge { .. } => Ok(Answer::Ignored(Reason::Kind)),
    }
}

/// The envelope of a statement by its key; nothing where no leaf is left.
pub fn sign(core: &mut ServerCore, statement: &Statement) -> Result<Option<Vec<u8>>, NoMemory>
    requires { IsSignable statement.now }
    ensures { OnOk result (core.new.seat ≡ core.old.seat) }
{
    // A signer's number has four bytes.
    let _number = core.number();
    match core.sign(statement) {
        Ok(envelope) => Ok(Some(envelope)),
        Err(SealFault::Exhausted { .. }) => Ok(None),
        Err(SealFault::NoMemory) => Err(NoMemory),
    }
}
