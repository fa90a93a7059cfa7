// What a world has, and what its audit says.
ghost use Rattle.std.specs.Prelude.{◌≡◌, None, Some, length, slice_get, IfSome, MatchOption};
ghost use Rattle.std.specs.Ordering.{nat_cmp};
ghost use Rattle.std.specs.BTreeMap.{is_at};
ghost use Rattle.std.specs.Map.{lookup};
ghost use Rattle.dn_seal.specs.Said.{IsUnder};
ghost use Rattle.dn_payloads.specs.Payloads.{IsFound};
ghost use Rattle.dn_flight.specs.Flight.{with_id};
ghost use Rattle.dn_audit.specs.Group.{is_corrupt};
ghost use Rattle.dn_state.specs.Sound.{IsOfGroup};
ghost use Rattle.dn_state.specs.Members.{client_at, server_at};
ghost use Rattle.dn_state.specs.Delivering.{opened_at, said_at, is_early_now};
ghost use Rattle.dn_state.specs.Auditing.{IsAudit};

use crate::delivering::{is_early, opened_in};
use crate::state::State;
use dn_cert::{Chain, Opened};
use dn_client::Client;
use dn_exchange::ServerCore;
use dn_flight::Flight;
use dn_seal::Said;
use dn_wire::{ClientId, Member, Round, ServerId};

/// What the audit of a run says: whether each signature is of what its key had signed, whether no two strings have one digest, and whether
/// some server is honest.
#[derive(Clone, Copy, Debug, PartialEq, Eq)]
pub struct Audit {
    pub signed: bool,
    pub digests: bool,
    pub honest: bool,
}

impl State {
    /// What the audit says of the run so far.
    pub fn audit(&self) -> Audit
        ensures { IsAudit self.now result }
    {
        Audit {
            signed: self.auditor.are_theirs(),
            digests: self.auditor.digests_differ(),
            honest: self.group.has_honest_server(),
        }
    }

    /// The bytes of payload `p`; None exactly where `p` isn't below their number.
    pub fn payload(&self, p: u64) -> Option<&[u8]>
        ensures { MatchOption result (slice_get self.now.payloads.items p ≡ None) (λ b. IsFound self.now.payloads p (λ x. x.bytes ≡ b.now)) }
    {
        self.payloads.bytes(p)
    }

    /// What payload `p` opens to; None exactly where `p` isn't below their number, or doesn't open.
    pub fn opened(&self, p: u64) -> Option<&Opened>
        ensures group { IfSome result (λ o. IsOfGroup self.now.roster o.now) }
        ensures value { MatchOption result (opened_at self.now p ≡ None) (λ x. opened_at self.now p ≡ Some x.now) }
    {
        opened_in(&self.payloads, p)
    }

    /// What plain payload `p` says; None exactly where `p` isn't below their number, doesn't open, or isn't plain.
    pub fn said(&self, p: u64) -> Option<&Said>
        ensures under { IfSome result (λ said. IsUnder self.now.roster said.now) }
        ensures value { MatchOption result (said_at self.now p ≡ None) (λ said. said_at self.now p ≡ Some said.now) }
    {
        match self.opened(p) {
            Some(Opened::Plain { said }) => Some(said),
            _ => None,
        }
    }

    /// How many payloads were put.
    pub fn payloads(&self) -> u64
        ensures { result ≡ length self.now.payloads.items }
    {
        self.payloads.len()
    }

    /// The messages in flight.
    pub fn flight(&self) -> &Flight
        ensures { result.now ≡ self.now.flight }
    {
        &self.flight
    }

    /// The run's certificates.
    pub fn chain(&self) -> &Chain
        ensures { result.now ≡ self.now.chain }
    {
        &self.chain
    }

    /// Whether a member is corrupt. Who isn't in the group isn't.
    pub fn is_corrupt(&self, member: Member) -> bool
        ensures { result ≡ is_corrupt self.now.group member }
    {
        self.group.is_corrupt(member)
    }

    /// An honest client; None exactly where that client is corrupt or out of range.
    pub fn client(&self, i: ClientId) -> Option<&Client>
        ensures { MatchOption result (client_at self.now i ≡ None) (λ core. client_at self.now i ≡ Some core.now) }
    {
        match self.clients.get(i.0 as usize) {
            Some(Some(core)) => Some(core),
            _ => None,
        }
    }

    /// An honest server; None exactly where that server is corrupt or out of range.
    pub fn server(&self, j: ServerId) -> Option<&ServerCore>
        ensures group { IfSome result (λ core. core.now.seat.roster ≡ self.now.roster) }
        ensures value { MatchOption result (server_at self.now j ≡ None) (λ core. server_at self.now j ≡ Some core.now) }
    {
        match self.servers.get(j.0 as usize) {
            Some(Some(core)) => Some(core),
            _ => None,
        }
    }

    /// The place of the accusation of a round that was put last; None exactly where none was.
    pub fn last_accused(&self, r: Round) -> Option<u32>
        ensures { result ≡ lookup (is_at (nat_cmp r.0)) self.now.accused }
    {
        self.accused.get(&r.0).copied()
    }

    /// Whether the delivery of a message would now be early.
    pub fn is_early(&self, id: u64) -> bool
        ensures { result ≡ is_early_now self.now (with_id id self.now.flight.msgs) }
    {
        is_early(self, id)
    }
}
