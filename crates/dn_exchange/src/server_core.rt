// The calls of a server.
ghost use Rattle.std.specs.Prelude.{◌≡◌, ◌≤◌, ◌<◌, ◌+◌, ◌++◌, ◌∷◌, [], not, true, false, length, Some, None, IsErr, IfOk, IfErr, MatchOption, OnOk, OnErr, Err, IsTrue, ◌↔◌, option_map, ℕ};
ghost use Rattle.dn_lms_definitions.specs.Key.{leaf_count};
ghost use Rattle.dn_seal.specs.Said.{IsUnder};
ghost use Rattle.dn_seal.specs.Signer.{CanSign};
ghost use Rattle.dn_cert.specs.Certificate.{IsCertificateUnder};
ghost use Rattle.dn_window.specs.Window.{has_of};
ghost use Rattle.dn_server.specs.Server.{itself, left_of, sealed_next, with_signed};
ghost use Rattle.dn_exchange.specs.Opening.{Opens};
ghost use Rattle.dn_exchange.specs.Submitting.{IsSubmission, TakesSubmission};
ghost use Rattle.dn_exchange.specs.Closing.{Ticks, Shuts};
ghost use Rattle.dn_exchange.specs.Ending.{Abandons, HoldsOn};
ghost use Rattle.dn_exchange.specs.Listening.{Hears};
ghost use Rattle.dn_exchange.specs.Making.{first_server};
ghost use Rattle.dn_exchange.specs.Signing.{SignsNext, SignsNothing};
ghost use Rattle.dn_exchange.specs.Disciplined.{Disciplined};
ghost use Rattle.dn_exchange.specs.Settled.{Settled};
ghost use Rattle.dn_exchange.specs.Spoiling.{TellsDueBodies};
ghost use Rattle.dn_exchange.specs.Invariant.{HasClaim};

use crate::closing::{close, tick};
use crate::ending::{abandon, hold};
use crate::listening::hear;
use crate::making::make;
use crate::opening::open_round;
use crate::signing::sign;
use crate::submitting::submitted;
use dn_bits::Bits;
use dn_cert::{Certificate, Rules};
use dn_memory::NoMemory;
use dn_records::Statement;
use dn_roster::Roster;
use dn_seal::{Dealt, Said, SealFault};
use dn_server::{Answer, Parts};
use dn_wire::{ClientId, Round, ServerId};
use std::alloc::Global;
use std::marker::Model;
use std::thread::Threads;

/// One server of a group. After a call that answered `NoMemory` it is spent: each later call that takes memory answers so too.
#[derive(Drop)]
pub struct ServerCore {
    parts: Parts,
    is_spent: bool,
}

impl Model for ServerCore {
    ghost use Rattle.std.specs.Prelude.{◌≡◌, false};
    ghost use Rattle.dn_server.specs.Parts.{view_of, live};
    ghost use Rattle.dn_server.specs.Server.{ServerView};
    ghost use Rattle.dn_exchange.specs.Whole.{IsWhole};

    ghost Value = { ServerView };

    ghost view = { λ c. view_of c.parts c.is_spent };

    ghost invariant = { λ c. c.is_spent ≡ false → IsWhole (live c.parts) };
}

impl ServerCore {
    /// Server `j` of a dealt group, whose sums have `workers` workers.
    pub fn make(
        alloc: Global,
        dealt: &Dealt,
        j: ServerId,
        workers: u32,
    ) -> Result<ServerCore, NoMemory>
        requires within { j.0 < dealt.now.spec.servers }
        requires some { 1 ≤ workers }
        requires few { workers ≤ 16 }
        ensures server { IfOk result (λ c. c ≡ first_server dealt.now.spec dealt.now.roster j.0 workers) }
        ensures disciplined { IfOk result Disciplined }
    {
        Ok(ServerCore {
            parts: make(alloc, dealt, j, workers)?,
            is_spent: false,
        })
    }

    /// Opens round `r` on the greatest round below it that is held.
    pub fn open_round(&mut self, r: Round) -> Result<Answer, NoMemory>
        ensures answer { IfOk result (λ a. Opens self.old r a self.new) }
        ensures spent { OnErr result (self.new.spent ≡ true) }
        ensures stays_spent { self.old.spent ≡ true → IsErr result }
        ensures seat { OnOk result (self.new.seat ≡ self.old.seat) }
        ensures bent { OnOk result (self.new.bent ≡ self.old.bent) }
        ensures disciplined { OnOk result (self.new.bent ≡ false → Disciplined self.new) }
        ensures settled { OnOk result (self.new.bent ≡ false → self.new.run.is_running ≡ true → Settled self.new) }
    {
        if self.is_spent {
            return Err(NoMemory);
        }
        self.is_spent = true;
        let answer = open_round(&mut self.parts, r)?;
        self.is_spent = false;
        Ok(answer)
    }

    /// Takes a client's submission, with its ciphertext.
    pub fn submitted(&mut self, said: &Said, cipher: &Bits) -> Result<Answer, NoMemory>
        requires submission { IsSubmission said.now.statement }
        requires under { IsUnder self.old.seat.roster said.now }
        ensures answer { IfOk result (λ a. TakesSubmission self.old said.now cipher.now a self.new) }
        ensures spent { OnErr result (self.new.spent ≡ true) }
        ensures stays_spent { self.old.spent ≡ true → IsErr result }
        ensures seat { OnOk result (self.new.seat ≡ self.old.seat) }
        ensures bent { OnOk result (self.new.bent ≡ self.old.bent) }
        ensures disciplined { OnOk result (self.new.bent ≡ false → Disciplined self.new) }
        ensures settled { OnOk result (self.new.bent ≡ false → self.new.run.is_running ≡ true → Settled self.new) }
    {
        if self.is_spent {
            return Err(NoMemory);
        }
        self.is_spent = true;
        let answer = submitted(&mut self.parts, said, cipher)?;
        self.is_spent = false;
        Ok(answer)
    }

    /// Counts a tick of time, which may close the window.
    pub fn tick<R: Threads + Sync>(&mut self, rt: &R) -> Result<Answer, NoMemory>
        ensures answer { IfOk result (λ a. Ticks self.old a self.new) }
        ensures spent { OnErr result (self.new.spent ≡ true) }
        ensures stays_spent { self.old.spent ≡ true → IsErr result }
        ensures seat { OnOk result (self.new.seat ≡ self.old.seat) }
        ensures bent { OnOk result (self.new.bent ≡ self.old.bent) }
        ensures disciplined { OnOk result (self.new.bent ≡ false → Disciplined self.new) }
        ensures settled { OnOk result (self.new.bent ≡ false → self.new.run.is_running ≡ true → Settled self.new) }
        ensures bodies { IfOk result (λ a. self.new.bent ≡ false → TellsDueBodies self.new a) }
    {
        if self.is_spent {
            return Err(NoMemory);
        }
        self.is_spent = true;
        let answer = tick(rt, &mut self.parts)?;
        self.is_spent = false;
        Ok(answer)
    }

    /// Closes the window.
    pub fn close<R: Threads + Sync>(&mut self, rt: &R) -> Result<Answer, NoMemory>
        ensures answer { IfOk result (λ a. Shuts self.old a self.new) }
        ensures spent { OnErr result (self.new.spent ≡ true) }
        ensures stays_spent { self.old.spent ≡ true → IsErr result }
        ensures seat { OnOk result (self.new.seat ≡ self.old.seat) }
        ensures bent { OnOk result (self.new.bent ≡ self.old.bent) }
        ensures disciplined { OnOk result (self.new.bent ≡ false → Disciplined self.new) }
        ensures settled { OnOk result (self.new.bent ≡ false → self.new.run.is_running ≡ true → Settled self.new) }
        ensures bodies { IfOk result (λ a. self.new.bent ≡ false → TellsDueBodies self.new a) }
    {
        if self.is_spent {
            return Err(NoMemory);
        }
        self.is_spent = true;
        let answer = close(rt, &mut self.parts)?;
        self.is_spent = false;
        Ok(answer)
    }

    /// Hears a statement. A round's of another server may let it go on with its round; an accusation, an opening or an answer to a challenge is
    /// kept, and answered. `rules` say what an accusation must hold to.
    pub fn hear<R: Threads + Sync, U: Rules>(
        &mut self,
        rt: &R,
        rules: &U,
        said: &Said,
    ) -> Result<Answer, NoMemory>
        requires { IsUnder self.old.seat.roster said.now }
        ensures answer { IfOk result (λ a. Hears self.old said.now a self.new) }
        ensures spent { OnErr result (self.new.spent ≡ true) }
        ensures stays_spent { self.old.spent ≡ true → IsErr result }
        ensures seat { OnOk result (self.new.seat ≡ self.old.seat) }
        ensures bent { OnOk result (self.new.bent ≡ self.old.bent) }
        ensures disciplined { OnOk result (self.new.bent ≡ false → Disciplined self.new) }
        ensures settled { OnOk result (self.new.bent ≡ false → self.new.run.is_running ≡ true → Settled self.new) }
        ensures bodies { IfOk result (λ a. self.new.bent ≡ false → TellsDueBodies self.new a) }
    {
        if self.is_spent {
            return Err(NoMemory);
        }
        self.is_spent = true;
        let answer = hear(rt, rules, &mut self.parts, said)?;
        self.is_spent = false;
        Ok(answer)
    }

    /// Takes a certificate, which ends the run of its round.
    pub fn hold(&mut self, c: &Certificate) -> Result<Answer, NoMemory>
        requires { IsCertificateUnder self.old.seat.roster c.now }
        ensures answer { IfOk result (λ a. HoldsOn self.old c.now a self.new) }
        ensures spent { OnErr result (self.new.spent ≡ true) }
        ensures stays_spent { self.old.spent ≡ true → IsErr result }
        ensures seat { OnOk result (self.new.seat ≡ self.old.seat) }
        ensures bent { OnOk result (self.new.bent ≡ self.old.bent) }
        ensures disciplined { OnOk result (self.new.bent ≡ false → Disciplined self.new) }
        ensures settled { OnOk result (self.new.bent ≡ false → self.new.run.is_running ≡ true → Settled self.new) }
    {
        if self.is_spent {
            return Err(NoMemory);
        }
        self.is_spent = true;
        let answer = hold(&mut self.parts, c)?;
        self.is_spent = false;
        Ok(answer)
    }

    /// Ends the run of the round.
    pub fn abandon(&mut self) -> Result<Answer, NoMemory>
        ensures answer { IfOk result (λ a. Abandons self.old a self.new) }
        ensures spent { OnErr result (self.new.spent ≡ true) }
        ensures stays_spent { self.old.spent ≡ true → IsErr result }
        ensures seat { OnOk result (self.new.seat ≡ self.old.seat) }
        ensures bent { OnOk result (self.new.bent ≡ self.old.bent) }
        ensures disciplined { OnOk result (self.new.bent ≡ false → Disciplined self.new) }
        ensures settled { OnOk result (self.new.bent ≡ false → self.new.run.is_running ≡ true → Settled self.new) }
    {
        if self.is_spent {
            return Err(NoMemory);
        }
        self.is_spent = true;
        let answer = abandon(&mut self.parts)?;
        self.is_spent = false;
        Ok(answer)
    }

    /// The roster of the server's group.
    pub fn roster(&self) -> &Roster
        ensures { result.now ≡ self.now.seat.roster }
    {
        self.parts.identity.roster()
    }

    /// The server's number.
    pub fn number(&self) -> ServerId
        ensures { result.0 ≡ self.now.seat.number }
    {
        self.parts.identity.number()
    }

    /// The round that was opened last, and round 0 before any.
    pub fn last_opened(&self) -> Round
        ensures { result ≡ self.now.run.r }
    {
        self.parts.run.r
    }

    /// Whether the window of the round is open.
    pub fn is_open(&self) -> bool
        ensures { result ≡ not self.now.run.window.closed }
    {
        !self.parts.run.window.is_closed()
    }

    /// Whether the server has sealed a statement of its caller's, or was told to change a sum.
    pub fn is_bent(&self) -> bool
        ensures { result ≡ self.now.bent }
    {
        self.parts.bent
    }

    /// The server's ciphertext of the round that was opened last, from its commitment on.
    pub fn sum(&self) -> Option<&Bits>
        ensures { MatchOption result (self.now.run.sum ≡ None) (λ s. option_map (λ x. x.s) self.now.run.sum ≡ Some s.now) }
    {
        match &self.parts.run.sum {
            Some(sum) => Some(&sum.s),
            None => None,
        }
    }

    /// The number of leaves at which the server's key has signed nothing yet.
    pub fn left(&self) -> u32
        ensures { result + length self.now.signed ≡ leaf_count self.now.key }
    {
        self.parts.identity.left()
    }

    /// Whether client `i` has a claim in the round that was opened last.
    pub fn has(&self, i: ClientId) -> bool
        ensures { IsTrue result ↔ HasClaim self.now.run i.0 }
    {
        match self.parts.run.claims.get(i) {
            Some(_claim) => true,
            None => false,
        }
    }

    /// The envelope of any statement, signed at the next leaf, also where that is set aside. From then on the server is bent: it goes by the rules
    /// all the same, as long as it has leaves, but of what it signed nothing is promised.
    pub fn sign(&mut self, s: &Statement) -> Result<Vec<u8>, SealFault>
        requires { CanSign (itself self.old) s.now }
        ensures signed { IfOk result (λ v. SignsNext self.old s.now v.items self.new) }
        ensures refused { IfErr result (λ f. SignsNothing self.old f self.new) }
        ensures spent { result ≡ Err (SealFault.NoMemory) → self.new.spent ≡ true }
        ensures stays_spent { self.old.spent ≡ true → result ≡ Err (SealFault.NoMemory) }
    {
        if self.is_spent {
            return Err(SealFault::NoMemory);
        }
        match sign(&mut self.parts, s) {
            Ok(envelope) => Ok(envelope),
            Err(SealFault::Exhausted { seen }) => Err(SealFault::Exhausted { seen }),
            Err(SealFault::NoMemory) => {
                self.is_spent = true;
                Err(SealFault::NoMemory)
            }
        }
    }

    /// An equal server, whose key has leaves of its own. As long as both are called alike, both sign the same statements at the same leaves, and so
    /// answer with the same bytes.
    pub fn twin(&self) -> Result<ServerCore, NoMemory>
        ensures twin { IfOk result (λ c. c ≡ self.now) }
        ensures stays_spent { self.now.spent ≡ true → IsErr result }
    {
        if self.is_spent {
            return Err(NoMemory);
        }
        Ok(ServerCore {
            parts: self.parts.twin()?,
            is_spent: false,
        })
    }

    /// Sets the place whose bit the next sum changes, if the round has it; `None` sets none.
    pub fn bend(&mut self, at: Option<u32>)
        ensures { self.new ≡ record self.old { bend = at; bent = true } }
    {
        self.parts.bend = at;
        self.parts.bent = true;
    }
}
