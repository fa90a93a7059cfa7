// A group whose members are called one by one.
use crate::delivering::{Letter, deliver, deliver_all};
use crate::done::{Done, done_by};
use crate::getting::get_all;
use crate::jamming::{accusation, jammed_letters};
use crate::members::{Members, dealt, members_of, server};
use crate::outcome::{Outcome, outcome_of};
use crate::playing::{play, submission_letters};
use crate::signing::signed_commit;
use dn_bits::Bits;
use dn_seal::Dealt;
use dn_wire::{Bytes, Round};
use played_rounds::PlayFault;
use std::alloc::Global;
use std::marker::Model;
use std::thread::Threads;

/// A dealt group whose members are called one by one. Contracts see nothing of it, so that proofs of who calls it stay small.
pub struct PlayedGroup {
    alloc: Global,
    dealt: Dealt,
    members: Members,
}

impl Model for PlayedGroup {
    ghost Value = { Unit {0} };

    ghost view = { λ _. tt };
}

// Written out, so that it is proved here once, and not again in each crate that lets a group go.
impl Drop for PlayedGroup {
    fn drop(self) {
        let PlayedGroup {
            alloc: _,
            dealt: _dealt,
            members: _members,
        } = self;
    }
}

impl PlayedGroup {
    /// A group of this version, with the shortest keys. The sums of its servers have one worker each.
    pub fn deal(
        alloc: Global,
        version: u8,
        clients: u32,
        servers: u32,
    ) -> Result<PlayedGroup, PlayFault> {
        let dealt = dealt(alloc, version, clients, servers)?;
        let members = members_of(alloc, &dealt)?;
        Ok(PlayedGroup {
            alloc,
            dealt,
            members,
        })
    }

    /// Makes server `j` anew, with so many workers for its sums.
    pub fn renews(&mut self, j: u32, workers: u32) -> Result<(), PlayFault> {
        let fresh = server(self.alloc, &self.dealt, j, workers)?;
        let core = self
            .members
            .servers
            .get_mut(j as usize)
            .ok_or(PlayFault::Unfit)?;
        *core = fresh;
        Ok(())
    }

    /// Puts a twin of server `j` behind the other servers.
    pub fn twins(&mut self, j: u32) -> Result<(), PlayFault> {
        let core = self
            .members
            .servers
            .get(j as usize)
            .ok_or(PlayFault::Unfit)?;
        let twin = core.twin()?;
        self.members.servers.push(twin)?;
        Ok(())
    }

    /// What the server at place `j` answers that is to open round `r`.
    pub fn opens(&mut self, j: u32, r: u64) -> Result<Done, PlayFault> {
        let core = self
            .members
            .servers
            .get_mut(j as usize)
            .ok_or(PlayFault::Unfit)?;
        let answer = core.open_round(Round(r))?;
        done_by(self.alloc, &answer)
    }

    /// What it answers that is to abandon its round.
    pub fn abandons(&mut self, j: u32) -> Result<Done, PlayFault> {
        let core = self
            .members
            .servers
            .get_mut(j as usize)
            .ok_or(PlayFault::Unfit)?;
        let answer = core.abandon()?;
        done_by(self.alloc, &answer)
    }

    /// What it answers to a tick.
    pub fn ticks<R: Threads + Sync>(&mut self, rt: &R, j: u32) -> Result<Done, PlayFault> {
        let core = self
            .members
            .servers
            .get_mut(j as usize)
            .ok_or(PlayFault::Unfit)?;
        let answer = core.tick(rt)?;
        done_by(self.alloc, &answer)
    }

    /// What it answers that is to close its window.
    pub fn closes<R: Threads + Sync>(&mut self, rt: &R, j: u32) -> Result<Done, PlayFault> {
        let core = self
            .members
            .servers
            .get_mut(j as usize)
            .ok_or(PlayFault::Unfit)?;
        let answer = core.close(rt)?;
        done_by(self.alloc, &answer)
    }

    /// What it answers to a payload.
    pub fn hears<R: Threads + Sync>(
        &mut self,
        rt: &R,
        j: u32,
        payload: &Bytes,
    ) -> Result<Done, PlayFault> {
        let core = self
            .members
            .servers
            .get_mut(j as usize)
            .ok_or(PlayFault::Unfit)?;
        let answer = deliver(rt, self.alloc, core, payload.get())?;
        done_by(self.alloc, &answer)
    }

    /// What it answers to those of these letters that go to it; the other letters stay away.
    pub fn gets<R: Threads + Sync>(
        &mut self,
        rt: &R,
        j: u32,
        letters: &[Letter],
    ) -> Result<Done, PlayFault> {
        let core = self
            .members
            .servers
            .get_mut(j as usize)
            .ok_or(PlayFault::Unfit)?;
        get_all(rt, self.alloc, core, letters)
    }

    /// Delivers letters in their order, and behind them those that follow.
    pub fn delivers<R: Threads + Sync>(
        &mut self,
        rt: &R,
        mut letters: Vec<Letter>,
    ) -> Result<(), PlayFault> {
        let _made = deliver_all(rt, self.alloc, &mut self.members.servers, &mut letters)?;
        Ok(())
    }

    /// The payload of a commitment that server `j` is made to sign.
    pub fn commits(&mut self, j: u32, r: u64, digest: [u8; 32]) -> Result<Bytes, PlayFault> {
        let core = self
            .members
            .servers
            .get_mut(j as usize)
            .ok_or(PlayFault::Unfit)?;
        signed_commit(self.alloc, core, r, digest)
    }

    /// The ciphertext of server `j`.
    pub fn sum(&self, j: u32) -> Result<Bits, PlayFault> {
        let core = self
            .members
            .servers
            .get(j as usize)
            .ok_or(PlayFault::Unfit)?;
        let sum = core.sum().ok_or(PlayFault::Unfit)?;
        Ok(sum.copy(self.alloc)?)
    }

    /// Client `i` says hello, so that it asks for a slot in the next round.
    pub fn says(&mut self, i: u32) -> Result<(), PlayFault> {
        let client = self
            .members
            .clients
            .get_mut(i as usize)
            .ok_or(PlayFault::Unfit)?;
        client.say(b"hello")?;
        Ok(())
    }

    /// What all clients submit for round `r`.
    pub fn submits(&mut self, r: u64) -> Result<Vec<Letter>, PlayFault> {
        submission_letters(self.alloc, &mut self.members, r)
    }

    /// What both clients of a group submit for round 2, in which the second jams the slot of the first.
    pub fn jams(&mut self) -> Result<Vec<Letter>, PlayFault> {
        jammed_letters(self.alloc, &self.dealt, &mut self.members.clients)
    }

    /// The payload of an accusation by client 0, at the first place that was jammed in round 2.
    pub fn accuses(&mut self) -> Result<Bytes, PlayFault> {
        let talker = self.members.clients.get_mut(0).ok_or(PlayFault::Unfit)?;
        accusation(self.alloc, talker)
    }

    /// Round `r` is played, with these submissions, and each client holds its certificate: what the certificates say.
    pub fn plays<R: Threads + Sync>(
        &mut self,
        rt: &R,
        r: u64,
        submissions: Vec<Letter>,
    ) -> Result<Vec<Outcome>, PlayFault> {
        let certificates = play(rt, self.alloc, &mut self.members, r, submissions)?;
        let mut outcomes = Vec::new(self.alloc);
        for certificate in &certificates {
            outcomes.push(outcome_of(certificate))?;
        }
        Ok(outcomes)
    }
}
