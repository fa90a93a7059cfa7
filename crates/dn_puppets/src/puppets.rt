ghost use Rattle.std.specs.Prelude.{◌≡◌, ◌≤◌, IfOk, length};
ghost use Rattle.dn_wire.specs.declared.limits.TheConstants.{MAX_TEXT};

use crate::client_puppet::{ClientPuppet, client_puppets};
use crate::injection::Injection;
use crate::jamming::first_zero;
use crate::server_core::ServerCall;
use crate::server_puppet::ServerPuppet;
use crate::servers::{put_puppet, server_puppets, take_puppet};
use crate::waiting::Aim;
use crate::watch::Watch;
use dn_client::Client;
use dn_memory::NoMemory;
use dn_pads::Seed;
use dn_roster::Roster;
use dn_script::Twist;
use dn_seal::Dealt;
use dn_wire::{ClientId, Member, Round, ServerId};
use dn_world::World;
use std::alloc::Global;
use std::marker::Model;
use std::thread::Threads;

/// The puppets of a group's corrupt members. Seen as the group's roster.
#[derive(Drop)]
pub struct Puppets {
    pub(crate) alloc: Global,
    pub(crate) roster: Roster,
    /// The seeds of all pairs, client by client.
    pub(crate) seeds: Vec<Seed>,
    /// The corrupt clients, by number.
    pub(crate) clients: Vec<Option<ClientPuppet>>,
    /// The corrupt servers, by number.
    pub(crate) servers: Vec<Option<ServerPuppet>>,
    pub(crate) watch: Watch,
}

impl Model for Puppets {
    ghost use Rattle.dn_roster.specs.Roster.{RosterView};
    ghost use Rattle.dn_puppets.specs.Puppets.{AreOfGroup};

    ghost Value = { RosterView };

    ghost view = { λ p. p.roster };

    ghost invariant = { λ p. AreOfGroup p.roster p.servers.items };
}

impl Puppets {
    /// The puppets of these members of a dealt group, which have done nothing yet. Their servers' sums have so many workers.
    pub fn make(
        alloc: Global,
        dealt: &Dealt,
        corrupt: &[Member],
        workers: u32,
    ) -> Result<Puppets, NoMemory>
        requires some { 1 ≤ workers }
        requires few { workers ≤ 16 }
        ensures roster { IfOk result (λ p. p ≡ dealt.now.roster) }
    {
        Ok(Puppets {
            alloc,
            roster: dealt.roster.copy(alloc)?,
            seeds: Vec::from_slice(alloc, &dealt.seeds)?,
            clients: client_puppets(alloc, dealt, corrupt)?,
            servers: server_puppets(alloc, dealt, corrupt, workers)?,
            watch: Watch::new(alloc),
        })
    }

    /// Looks at all that was put in the world since it looked last.
    pub fn look(&mut self, world: &World) -> Result<(), NoMemory>
        ensures { self.new ≡ self.old }
    {
        self.watch.look(world)
    }

    /// The core of a client, whether it is a puppet's or the world's.
    fn core<'a>(&'a self, world: &'a World, client: ClientId) -> Option<&'a Client> {
        match self.clients.get(client.0 as usize) {
            Some(Some(puppet)) => Some(puppet.core()),
            _ => world.client(client),
        }
    }

    /// The bit at which a ciphertext of round `r` is changed, where one is.
    fn place_of(&self, world: &World, aim: Option<Aim>, r: Round) -> Option<u32> {
        match aim? {
            Aim::Bit(k) => Some(k),
            Aim::SlotOf(client) => first_zero(self.core(world, client)?, r),
        }
    }

    /// A twist waits for a corrupt member.
    pub fn twist(&mut self, member: Member, twist: Twist) -> Result<(), NoMemory>
        ensures { self.new ≡ self.old }
    {
        match member {
            Member::Client(client) => match self.clients.get_mut(client.0 as usize) {
                Some(Some(puppet)) => puppet.wait_for(twist),
                _ => Ok(()),
            },
            Member::Server(server) => {
                let Some(mut puppet) = take_puppet(&mut self.servers, server) else {
                    return Ok(());
                };
                let added = puppet.wait_for(twist);
                put_puppet(&mut self.servers, server, puppet);
                added
            }
        }
    }

    /// A text joins a corrupt client's queue.
    pub fn say(&mut self, client: ClientId, text: &[u8]) -> Result<(), NoMemory>
        requires { length text.now ≤ MAX_TEXT }
        ensures { self.new ≡ self.old }
    {
        match self.clients.get_mut(client.0 as usize) {
            Some(Some(puppet)) => puppet.say(text),
            _ => Ok(()),
        }
    }

    /// A corrupt client leaves.
    pub fn leave(&mut self, client: ClientId)
        ensures { self.new ≡ self.old }
    {
        if let Some(Some(puppet)) = self.clients.get_mut(client.0 as usize) {
            puppet.leave();
        }
    }

    /// A corrupt client submits for round `r` to a server.
    pub fn submit(
        &mut self,
        world: &World,
        client: ClientId,
        server: ServerId,
        r: Round,
        out: &mut Vec<Injection>,
    ) -> Result<(), NoMemory>
        ensures { self.new ≡ self.old }
    {
        let aim = match self.clients.get_mut(client.0 as usize) {
            Some(Some(puppet)) => {
                puppet.prepare(r)?;
                puppet.aim()
            }
            _ => return Ok(()),
        };
        let at = self.place_of(world, aim, r);
        match self.clients.get_mut(client.0 as usize) {
            Some(Some(puppet)) => puppet.submit(server, r, at, out),
            _ => Ok(()),
        }
    }

    /// The bit at which a corrupt server's next sum is changed, where one is.
    fn sum_place(&self, world: &World, puppet: &ServerPuppet) -> Option<u32> {
        self.place_of(world, puppet.aim(), puppet.last_opened())
    }

    /// A corrupt server is called.
    pub fn call<R: Threads + Sync>(
        &mut self,
        rt: &R,
        world: &World,
        server: ServerId,
        call: ServerCall,
        out: &mut Vec<Injection>,
    ) -> Result<(), NoMemory>
        ensures { self.new ≡ self.old }
    {
        let Some(mut puppet) = take_puppet(&mut self.servers, server) else {
            return Ok(());
        };
        let at = self.sum_place(world, &puppet);
        puppet.call(rt, call, at, out)?;
        put_puppet(&mut self.servers, server, puppet);
        Ok(())
    }

    /// A unit of time passes at each corrupt server, by number.
    pub fn tick<R: Threads + Sync>(
        &mut self,
        rt: &R,
        world: &World,
        out: &mut Vec<Injection>,
    ) -> Result<(), NoMemory>
        ensures { self.new ≡ self.old }
    {
        for j in 0..self.roster.servers() {
            self.call(rt, world, ServerId(j), ServerCall::Tick, out)?;
        }
        Ok(())
    }

    /// A payload reached a member. If it is a corrupt one, its puppet does what it does then.
    pub fn reach<R: Threads + Sync>(
        &mut self,
        rt: &R,
        world: &World,
        to: Member,
        payload: u64,
        out: &mut Vec<Injection>,
    ) -> Result<(), NoMemory>
        requires { world.now.roster ≡ self.old }
        ensures { self.new ≡ self.old }
    {
        let Some(opened) = world.opened(payload) else {
            return Ok(());
        };
        match to {
            Member::Client(client) => match self.clients.get_mut(client.0 as usize) {
                Some(Some(puppet)) => puppet.reach(opened, out),
                _ => Ok(()),
            },
            Member::Server(server) => {
                let Some(mut puppet) = take_puppet(&mut self.servers, server) else {
                    return Ok(());
                };
                let at = self.sum_place(world, &puppet);
                puppet.reach(rt, opened, at, out)?;
                put_puppet(&mut self.servers, server, puppet);
                Ok(())
            }
        }
    }
}
