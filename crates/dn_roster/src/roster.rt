ghost use Rattle.std.specs.Prelude.{◌≡◌, ◌*◌, ◌%◌, ◌<◌, ◌≤◌, length, MatchOption, None, Some, IfOk, IfSome};
ghost use Rattle.dn_roster.specs.Roster.{RosterView, IsRoster, key_of, commitment_of, roster_bytes_of, digest_of, signed_bytes_of};

use dn_hash::group_tag;
use dn_memory::NoMemory;
use dn_wire::{ClientId, ServerId, SignerId, put_bytes, put_signer, put_u32};
use sha2::{Digest, Sha256};
use std::alloc::Global;
use std::marker::Model;

/// The roster of a group: its version, its typecodes, the public keys of its clients, servers and slots, and the commitments to the
/// seeds of all pairs.
#[derive(Drop)]
pub struct Roster {
    version: u8,
    ots: u32,
    client_lms: u32,
    server_lms: u32,
    clients: Vec<[u8; 56]>,
    servers: Vec<[u8; 56]>,
    slots: Vec<[u8; 56]>,
    seals: Vec<[u8; 32]>,
    digest: [u8; 32],
}

impl Model for Roster {
    ghost use Rattle.std.specs.Prelude.{◌≡◌};
    ghost use Rattle.dn_roster.specs.Roster.{RosterView, IsRoster, digest_of};

    ghost Value = { RosterView };

    ghost view = { λ r. record { version = r.version; ots = r.ots; client_lms = r.client_lms; server_lms = r.server_lms; clients = r.clients.items; servers = r.servers.items; slots = r.slots.items; seals = r.seals.items } };

    ghost invariant = { λ r.
        let v : RosterView = record { version = r.version; ots = r.ots; client_lms = r.client_lms; server_lms = r.server_lms; clients = r.clients.items; servers = r.servers.items; slots = r.slots.items; seals = r.seals.items } in
        IsRoster v × (r.digest ≡ digest_of v) };
}

impl Roster {
    /// The roster with this version, 1 or 2, and these typecodes and lists. `seals` are the commitments, client by client and within each server by
    /// server.
    pub fn make(
        version: u8,
        ots: u32,
        client_lms: u32,
        server_lms: u32,
        clients: Vec<[u8; 56]>,
        servers: Vec<[u8; 56]>,
        slots: Vec<[u8; 56]>,
        seals: Vec<[u8; 32]>,
    ) -> Roster
        requires { IsRoster record { version = version; ots = ots; client_lms = client_lms; server_lms = server_lms; clients = clients.items; servers = servers.items; slots = slots.items; seals = seals.items } }
        ensures { result ≡ record { version = version; ots = ots; client_lms = client_lms; server_lms = server_lms; clients = clients.items; servers = servers.items; slots = slots.items; seals = seals.items } }
    {
        let mut hasher = Sha256::new();
        hasher.update(group_tag(version));
        hasher.update((clients.len() as u32).to_be_bytes());
        hasher.update((servers.len() as u32).to_be_bytes());
        hasher.update(ots.to_be_bytes());
        hasher.update(client_lms.to_be_bytes());
        hasher.update(server_lms.to_be_bytes());
        hasher.update(clients.as_flattened());
        hasher.update(servers.as_flattened());
        hasher.update(slots.as_flattened());
        hasher.update(seals.as_flattened());
        let digest = hasher.finalize();
        Roster {
            version,
            ots,
            client_lms,
            server_lms,
            clients,
            servers,
            slots,
            seals,
            digest,
        }
    }

    /// An equal roster.
    pub fn copy(&self, alloc: Global) -> Result<Roster, NoMemory>
        ensures { IfOk result (λ r. r ≡ self.now) }
    {
        Ok(Roster {
            version: self.version,
            ots: self.ots,
            client_lms: self.client_lms,
            server_lms: self.server_lms,
            clients: Vec::from_slice(alloc, &self.clients)?,
            servers: Vec::from_slice(alloc, &self.servers)?,
            slots: Vec::from_slice(alloc, &self.slots)?,
            seals: Vec::from_slice(alloc, &self.seals)?,
            digest: self.digest,
        })
    }

    /// The version of the group.
    pub fn version(&self) -> u8
        ensures value { result ≡ self.now.version }
        ensures limits { IsRoster self.now }
    {
        self.version
    }

    /// The number of clients, which is that of the slots.
    pub fn clients(&self) -> u32
        ensures value { result ≡ length self.now.clients }
        ensures limits { IsRoster self.now }
    {
        self.clients.len() as u32
    }

    /// The number of servers.
    pub fn servers(&self) -> u32
        ensures value { result ≡ length self.now.servers }
        ensures limits { IsRoster self.now }
    {
        self.servers.len() as u32
    }

    /// The public key of a signer, 56 bytes; `None` exactly where its number isn't in the roster.
    pub fn key(&self, who: SignerId) -> Option<&[u8]>
        ensures value { MatchOption result (key_of self.now who ≡ None) (λ k. key_of self.now who ≡ Some k.now) }
        ensures long { IfSome result (λ k. length k.now ≡ 56) }
    {
        let keys = match who {
            SignerId::Client(i) => self.clients.get(i.0 as usize),
            SignerId::Server(j) => self.servers.get(j.0 as usize),
            SignerId::Slot(s) => self.slots.get(s.0 as usize),
        };
        match keys {
            Some(key) => Some(key),
            None => None,
        }
    }

    /// The commitment to the seed of client `i` and server `j`.
    pub fn commitment(&self, i: ClientId, j: ServerId) -> [u8; 32]
        requires { (i.0 < length self.now.clients) × (j.0 < length self.now.servers) }
        ensures { commitment_of self.now i.0 j.0 ≡ Some result }
    {
        self.seals[i.0 as usize * self.servers.len() + j.0 as usize]
    }

    /// The server to which client `i` sends.
    pub fn upstream(&self, i: ClientId) -> ServerId
        ensures value { result.0 ≡ i.0 % length self.now.servers }
        ensures within { result.0 < length self.now.servers }
    {
        ServerId(i.0 % self.servers())
    }

    /// The bytes of which the digest is taken. They don't tell the version.
    #[tactic(auto, unfolding(crate::specs::Roster::roster_bytes_of))]
    pub fn roster_bytes(&self, alloc: Global) -> Result<Vec<u8>, NoMemory>
        ensures { IfOk result (λ v. v.items ≡ roster_bytes_of self.now) }
    {
        let mut out = Vec::new(alloc);
        put_u32(&mut out, self.clients())?;
        put_u32(&mut out, self.servers())?;
        put_u32(&mut out, self.ots)?;
        put_u32(&mut out, self.client_lms)?;
        put_u32(&mut out, self.server_lms)?;
        put_bytes(&mut out, self.clients.as_flattened())?;
        put_bytes(&mut out, self.servers.as_flattened())?;
        put_bytes(&mut out, self.slots.as_flattened())?;
        put_bytes(&mut out, self.seals.as_flattened())?;
        Ok(out)
    }

    /// The digest of the group.
    pub fn digest(&self) -> [u8; 32]
        ensures { result ≡ digest_of self.now }
    {
        self.digest
    }

    /// The bytes that this signer signs to make a statement in this group.
    pub fn signed_bytes(
        &self,
        alloc: Global,
        who: SignerId,
        statement: &[u8],
    ) -> Result<Vec<u8>, NoMemory>
        ensures { IfOk result (λ v. v.items ≡ signed_bytes_of (digest_of self.now) who statement.now) }
    {
        signed_bytes_in(alloc, &self.digest, who, statement)
    }
}

/// The bytes that a signer signs to make a statement in the group with this digest. A member that keeps no roster signs by these.
#[tactic(auto, unfolding(crate::specs::Roster::signed_bytes_of))]
pub fn signed_bytes_in(
    alloc: Global,
    digest: &[u8; 32],
    who: SignerId,
    statement: &[u8],
) -> Result<Vec<u8>, NoMemory>
    ensures { IfOk result (λ v. v.items ≡ signed_bytes_of digest.now who statement.now) }
{
    let mut out = Vec::with_capacity(alloc, statement.len().saturating_add(43))?;
    put_bytes(&mut out, b"dnstmt")?;
    put_bytes(&mut out, digest)?;
    put_signer(&mut out, who)?;
    put_bytes(&mut out, statement)?;
    Ok(out)
}
