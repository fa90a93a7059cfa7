use dn_audit::{Auditor, Group};
use dn_cert::Chain;
use dn_client::Client;
use dn_exchange::ServerCore;
use dn_flight::Flight;
use dn_payloads::Payloads;
use dn_seal::Said;
use std::alloc::Global;
use std::collections::{BTreeMap, BTreeSet};
use std::marker::Model;

/// What a world is made of, but for its history.
#[derive(Drop)]
pub struct State {
    pub(crate) alloc: Global,
    pub(crate) group: Group,
    /// The honest clients, by number.
    pub(crate) clients: Vec<Option<Client>>,
    /// The honest servers, by number.
    pub(crate) servers: Vec<Option<ServerCore>>,
    /// Whether each client has left.
    pub(crate) left: Vec<bool>,
    pub(crate) payloads: Payloads,
    pub(crate) flight: Flight,
    /// The run's certificates: each that was put and could follow.
    pub(crate) chain: Chain,
    /// The rounds whose lines were told.
    pub(crate) told: BTreeSet<u64>,
    /// What was said: by servers, in what was put; by clients and slots, in what reached a server.
    pub(crate) heard: Vec<Said>,
    /// The payloads that reached a server.
    pub(crate) delivered: BTreeSet<u64>,
    /// The place of the last accusation of each round that was put.
    pub(crate) accused: BTreeMap<u64, u32>,
    pub(crate) auditor: Auditor,
}

impl Model for State {
    ghost use Rattle.dn_state.specs.Parts.{PartsView};

    ghost Value = { PartsView };

    ghost use Rattle.dn_state.specs.Inside.{parts_of, Keeps};

    ghost view = { parts_of };

    ghost invariant = { Keeps };
}
