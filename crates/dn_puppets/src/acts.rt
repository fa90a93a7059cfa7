// What corrupt members do beside what their cores do: they accuse, speak, replay, lure, and complete certificates.
ghost use Rattle.std.specs.Prelude.{◌≡◌};
ghost use Rattle.dn_puppets.specs.Statements.{IsSignable};

use crate::accusing::first_place;
use crate::completing::{certificate_of, others};
use crate::injection::{Injection, put_to};
use crate::luring::{bits_for, challenge_of};
use crate::puppets::Puppets;
use crate::servers::{put_puppet, take_puppet};
use crate::speaking::spoken;
use dn_memory::NoMemory;
use dn_records::Statement;
use dn_server::{Place, plain_payload};
use dn_wire::{Bytes, ClientId, Member, Round, ServerId};
use dn_world::World;

impl Puppets {
    /// A corrupt client accuses at place `k` of round `r`, or without one at the least place of its slot at which the run's certificate
    /// has 1 and its own text hasn't; where there is none it signs nothing.
    pub fn accuse(
        &mut self,
        world: &World,
        client: ClientId,
        r: Round,
        k: Option<u32>,
        out: &mut Vec<Injection>,
    ) -> Result<(), NoMemory>
        ensures { self.new ≡ self.old }
    {
        let Some(Some(puppet)) = self.clients.get_mut(client.0 as usize) else {
            return Ok(());
        };
        let place = match k {
            Some(k) => Some(k),
            None => first_place(puppet, world, r),
        };
        match place {
            Some(k) => puppet.accuse(r, k, out),
            None => Ok(()),
        }
    }

    /// The envelope of a statement by a corrupt server's key; nothing where no leaf is left, or the server is none.
    fn signed_by_server(
        &mut self,
        server: ServerId,
        statement: &Statement,
    ) -> Result<Option<Vec<u8>>, NoMemory>
        requires { IsSignable statement.now }
        ensures { self.new ≡ self.old }
    {
        let Some(mut puppet) = take_puppet(&mut self.servers, server) else {
            return Ok(None);
        };
        let signed = puppet.signed(statement)?;
        put_puppet(&mut self.servers, server, puppet);
        Ok(signed)
    }

    /// The envelope of a statement by a corrupt member's own key; nothing where no leaf is left, or the member is none.
    fn signed(&mut self, from: Member, statement: &Statement) -> Result<Option<Vec<u8>>, NoMemory>
        requires { IsSignable statement.now }
        ensures { self.new ≡ self.old }
    {
        match from {
            Member::Client(client) => match self.clients.get_mut(client.0 as usize) {
                Some(Some(puppet)) => puppet.spoken(statement),
                _ => Ok(None),
            },
            Member::Server(server) => self.signed_by_server(server, statement),
        }
    }

    /// A corrupt member signs a statement and sends it; nothing where the bytes are none, or no leaf is left.
    pub fn speak(
        &mut self,
        from: Member,
        to: Member,
        statement: &[u8],
        out: &mut Vec<Injection>,
    ) -> Result<(), NoMemory>
        ensures { self.new ≡ self.old }
    {
        let Some(statement) = spoken(self.alloc, statement)? else {
            return Ok(());
        };
        let Some(envelope) = self.signed(from, &statement)? else {
            return Ok(());
        };
        let payload = plain_payload(self.alloc, envelope)?;
        put_to(self.alloc, from, &[to], payload.get(), out)
    }

    /// Who put a payload first puts it again; nothing where nobody put it.
    pub fn replay(
        &self,
        world: &World,
        payload: u64,
        to: Member,
        out: &mut Vec<Injection>,
    ) -> Result<(), NoMemory> {
        match (self.watch.sender(payload), world.payload(payload)) {
            (Some(from), Some(bytes)) => put_to(self.alloc, from, &[to], bytes, out),
            _ => Ok(()),
        }
    }

    /// Whether a server has what a lure takes of it: an honest one its pad bits at the place, a corrupt one a leaf.
    fn has_its_part(&self, server: ServerId, place: Place) -> bool {
        match self.servers.get(server.0 as usize) {
            Some(Some(puppet)) => puppet.can_sign(),
            _ => self.watch.pad_bits(server, place.r, place.k).is_some(),
        }
    }

    /// Whether all servers have what a lure takes of them.
    fn can_lure(&self, place: Place) -> bool {
        for j in 0..self.roster.servers() {
            if !self.has_its_part(ServerId(j), place) {
                return false;
            }
        }
        true
    }

    /// What an honest server said at a place, as it was put.
    fn put_envelope(
        &self,
        world: &World,
        server: ServerId,
        place: Place,
    ) -> Result<Option<Vec<u8>>, NoMemory> {
        let Some(payload) = self.watch.pad_bits(server, place.r, place.k) else {
            return Ok(None);
        };
        match world.said(payload) {
            Some(said) => Ok(Some(Vec::from_slice(self.alloc, said.bytes())?)),
            None => Ok(None),
        }
    }

    /// What a server says in a lure: an honest one what it said, a corrupt one true bits, but for the client that it lures.
    fn lure_envelope(
        &mut self,
        world: &World,
        server: ServerId,
        lured: Option<ClientId>,
        place: Place,
    ) -> Result<Option<Vec<u8>>, NoMemory>
        ensures { self.new ≡ self.old }
    {
        if !world.is_corrupt(Member::Server(server)) {
            return self.put_envelope(world, server, place);
        }
        let rows = match world.chain().body(place.r) {
            Some(body) => body.listed.get(),
            None => &[],
        };
        let statement = bits_for(
            self.alloc,
            &self.seeds,
            &self.roster,
            server,
            lured,
            rows,
            place,
        )?;
        self.signed_by_server(server, &statement)
    }

    /// A corrupt server challenges a client at the place of the last accusation of round `r`, with its own bit of that client wrong.
    pub fn lure(
        &mut self,
        world: &World,
        server: ServerId,
        client: ClientId,
        r: Round,
        out: &mut Vec<Injection>,
    ) -> Result<(), NoMemory>
        ensures { self.new ≡ self.old }
    {
        let place = match world.last_accused(r) {
            Some(k) => Place { r, k },
            None => return Ok(()),
        };
        if !self.can_lure(place) {
            return Ok(());
        }
        let mut envelopes = Vec::new(self.alloc);
        for j in 0..self.roster.servers() {
            let lured = if j == server.0 { Some(client) } else { None };
            if let Some(envelope) = self.lure_envelope(world, ServerId(j), lured, place)? {
                envelopes.push(Bytes::of(envelope))?;
            }
        }
        let Some(payload) = challenge_of(self.alloc, place, envelopes)? else {
            return Ok(());
        };
        let from = Member::Server(server);
        put_to(self.alloc, from, &[Member::Client(client)], &payload, out)
    }

    /// A corrupt server sends the certificate of round `r` that the signatures that were put make, to all clients and the other servers.
    pub fn complete(
        &self,
        world: &World,
        server: ServerId,
        r: Round,
        out: &mut Vec<Injection>,
    ) -> Result<(), NoMemory> {
        let signs = self.watch.signs(r);
        let Some(payload) = certificate_of(self.alloc, world, self.roster.servers(), signs)? else {
            return Ok(());
        };
        let to = others(
            self.alloc,
            server,
            self.roster.clients(),
            self.roster.servers(),
        )?;
        put_to(self.alloc, Member::Server(server), &to, &payload, out)
    }
}
