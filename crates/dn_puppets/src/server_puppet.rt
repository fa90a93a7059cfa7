// A corrupt server.
ghost use Rattle.std.specs.Prelude.{◌≡◌, ◌<◌, ◌≤◌, IfOk, OnOk};
ghost use Rattle.dn_state.specs.Sound.{IsOfGroup};
ghost use Rattle.dn_puppets.specs.Statements.{IsSignable};

use crate::injection::{Injection, put_to};
use crate::server_core::{ServerCall, called, reached, sign};
use crate::twisting::twisted;
use crate::waiting::{Aim, TwistKind, Waiting, aim_of};
use dn_cert::Opened;
use dn_exchange::ServerCore;
use dn_memory::NoMemory;
use dn_records::Statement;
use dn_script::Twist;
use dn_seal::Dealt;
use dn_server::{Act, Answer, plain_payload};
use dn_wire::{Bytes, Member, Round, ServerId};
use std::alloc::Global;
use std::marker::Model;
use std::thread::Threads;

/// A corrupt server's puppet. Seen as the roster of its group.
#[derive(Drop)]
pub struct ServerPuppet {
    alloc: Global,
    core: ServerCore,
    waiting: Waiting,
}

impl Model for ServerPuppet {
    ghost use Rattle.dn_roster.specs.Roster.{RosterView};

    ghost Value = { RosterView };

    ghost view = { λ p. p.core.seat.roster };
}

impl ServerPuppet {
    /// The puppet of a server of a dealt group, which has done nothing yet. Its sums have so many workers.
    pub fn make(
        alloc: Global,
        dealt: &Dealt,
        server: ServerId,
        workers: u32,
    ) -> Result<ServerPuppet, NoMemory>
        requires within { server.0 < dealt.now.spec.servers }
        requires some { 1 ≤ workers }
        requires few { workers ≤ 16 }
        ensures { IfOk result (λ p. p ≡ dealt.now.roster) }
    {
        Ok(ServerPuppet {
            alloc,
            core: ServerCore::make(alloc, dealt, server, workers)?,
            waiting: Waiting::none(alloc),
        })
    }

    /// A twist waits.
    pub fn wait_for(&mut self, twist: Twist) -> Result<(), NoMemory>
        ensures { self.new ≡ self.old }
    {
        self.waiting.add(twist)
    }

    /// What the first waiting twist of its ciphertext aims at.
    pub fn aim(&self) -> Option<Aim> {
        aim_of(&self.waiting)
    }

    /// The round that it opened last.
    pub fn last_opened(&self) -> Round {
        self.core.last_opened()
    }

    /// Whether its key has a leaf left.
    pub fn can_sign(&self) -> bool {
        self.core.left() > 0
    }

    /// The envelope of a statement by the server's key; nothing where no leaf is left.
    pub fn signed(&mut self, statement: &Statement) -> Result<Option<Vec<u8>>, NoMemory>
        requires { IsSignable statement.now }
        ensures { OnOk result (self.new ≡ self.old) }
    {
        sign(&mut self.core, statement)
    }

    /// The payload of a statement that is put in the place of another; nothing where no leaf is left.
    fn payload_of(&mut self, statement: Statement) -> Result<Option<Bytes>, NoMemory>
        requires { IsSignable statement }
        ensures { OnOk result (self.new ≡ self.old) }
    {
        match self.signed(&statement)? {
            Some(envelope) => Ok(Some(plain_payload(self.alloc, envelope)?)),
            None => Ok(None),
        }
    }

    /// A payload as the first twist that waits for it changes it; nothing where that can't be signed.
    fn changed(&mut self, payload: &[u8]) -> Result<Option<Bytes>, NoMemory>
        ensures { OnOk result (self.new ≡ self.old) }
    {
        match twisted(self.alloc, &mut self.waiting, payload)? {
            Some(statement) => self.payload_of(statement),
            None => Ok(Some(Bytes::of(Vec::from_slice(self.alloc, payload)?))),
        }
    }

    /// A post of its core: changed where a twist waits for it, and not put where it is muted or can't be signed.
    fn post(
        &mut self,
        to: &[Member],
        payload: &[u8],
        out: &mut Vec<Injection>,
    ) -> Result<(), NoMemory>
        ensures { OnOk result (self.new ≡ self.old) }
    {
        let changed = self.changed(payload)?;
        if self.waiting.spend(TwistKind::Mute).is_some() {
            return Ok(());
        }
        let Some(payload) = changed else {
            return Ok(());
        };
        let from = Member::Server(self.core.number());
        put_to(self.alloc, from, to, payload.get(), out)
    }

    /// The posts of an answer of its core.
    fn follow(&mut self, answer: &Answer, out: &mut Vec<Injection>) -> Result<(), NoMemory>
        ensures { OnOk result (self.new ≡ self.old) }
    {
        let Answer::Acts(acts) = answer else {
            return Ok(());
        };
        for act in acts.get() {
            if let Act::Post { to, payload } = act {
                self.post(to.get(), payload.get(), out)?;
            }
        }
        Ok(())
    }

    /// Whether its round's sum is made.
    fn has_sum(&self) -> bool {
        self.core.sum().is_some()
    }

    /// Sets the bit that its next sum changes, where a twist waits for that.
    fn bend(&mut self, at: Option<u32>)
        ensures { self.new ≡ self.old }
    {
        if self.waiting.first(TwistKind::Cipher).is_some() {
            self.core.bend(at);
        }
    }

    /// Spends the twist of a sum that was made in this call.
    fn spend_sum(&mut self, had_sum: bool)
        ensures { self.new ≡ self.old }
    {
        if !had_sum && self.has_sum() {
            self.waiting.spend(TwistKind::Cipher);
        }
    }

    /// A call of its core. A sum that is made in it changes bit `at`, where a twist waits for it.
    pub fn call<R: Threads + Sync>(
        &mut self,
        rt: &R,
        call: ServerCall,
        at: Option<u32>,
        out: &mut Vec<Injection>,
    ) -> Result<(), NoMemory>
        ensures { OnOk result (self.new ≡ self.old) }
    {
        self.bend(at);
        let had_sum = self.has_sum();
        let answer = called(rt, &mut self.core, call)?;
        self.spend_sum(had_sum);
        self.follow(&answer, out)
    }

    /// What reached the server. A sum that is made then changes bit `at`, where a twist waits for it.
    pub fn reach<R: Threads + Sync>(
        &mut self,
        rt: &R,
        opened: &Opened,
        at: Option<u32>,
        out: &mut Vec<Injection>,
    ) -> Result<(), NoMemory>
        requires { IsOfGroup self.old opened.now }
        ensures { OnOk result (self.new ≡ self.old) }
    {
        self.bend(at);
        let had_sum = self.has_sum();
        let answer = reached(rt, &mut self.core, opened)?;
        self.spend_sum(had_sum);
        self.follow(&answer, out)
    }
}
