// What a lure and a completed certificate take from what was put.

use dn_cert::Opened;
use dn_memory::NoMemory;
use dn_records::Statement;
use dn_report::Outcome;
use dn_seal::Said;
use dn_wire::{Member, Round, ServerId, SignerId};
use dn_world::World;
use std::alloc::Global;
use std::collections::BTreeMap;

/// A payload in which a server said something of a place or a round.
#[derive(Clone, Copy, Debug, PartialEq, Eq)]
pub struct Shown {
    pub server: ServerId,
    pub payload: u64,
}

/// What was put so far, as far as corrupt members use it.
#[derive(Drop)]
pub struct Watch {
    alloc: Global,
    /// How many steps of the world were looked at.
    seen: usize,
    /// Who put each payload first, by its number.
    senders: Vec<Member>,
    /// The signatures of each round, in the order in which they were put.
    signs: BTreeMap<u64, Vec<Shown>>,
    /// The pad bits of each place of a round, in that order.
    pad_bits: BTreeMap<(u64, u32), Vec<Shown>>,
}

/// Adds a value to the list at a key.
fn add<K: Ord + Drop>(
    alloc: Global,
    map: &mut BTreeMap<K, Vec<Shown>>,
    key: K,
    shown: Shown,
) -> Result<(), NoMemory> {
    if let Some(list) = map.get_mut(&key) {
        list.push(shown)?;
        return Ok(());
    }
    map.insert(key, vec![in alloc; shown]?)?;
    Ok(())
}

impl Watch {
    /// Nothing was put.
    pub fn new(alloc: Global) -> Watch {
        Watch {
            alloc,
            seen: 0,
            senders: Vec::new(alloc),
            signs: BTreeMap::new(alloc),
            pad_bits: BTreeMap::new(alloc),
        }
    }

    fn note(&mut self, said: &Said, payload: u64) -> Result<(), NoMemory> {
        let SignerId::Server(server) = said.signer() else {
            return Ok(());
        };
        let shown = Shown { server, payload };
        match said.statement() {
            Statement::Sign(body) => add(self.alloc, &mut self.signs, body.r.0, shown),
            Statement::PadBits { r, k, .. } => {
                add(self.alloc, &mut self.pad_bits, (r.0, *k), shown)
            }
            _ => Ok(()),
        }
    }

    fn look_at(&mut self, world: &World, outcome: &Outcome) -> Result<(), NoMemory> {
        let Outcome::Post { payload, by, .. } = outcome else {
            return Ok(());
        };
        self.senders.push(*by)?;
        if let Some(Opened::Plain { said }) = world.opened(*payload) {
            self.note(said, *payload)?;
        }
        Ok(())
    }

    /// Looks at all that was put since it looked last.
    pub fn look(&mut self, world: &World) -> Result<(), NoMemory> {
        let history = world.history();
        for step in &history[self.seen.min(history.len())..] {
            for outcome in step.outcomes.get() {
                self.look_at(world, outcome)?;
            }
        }
        self.seen = history.len();
        Ok(())
    }

    /// Who put a payload first; None exactly where nobody put it.
    pub fn sender(&self, payload: u64) -> Option<Member> {
        self.senders.get(payload as usize).copied()
    }

    /// The payloads with signatures of a round, in order.
    pub fn signs(&self, r: Round) -> &[Shown] {
        match self.signs.get(&r.0) {
            Some(list) => list,
            None => &[],
        }
    }

    /// The first payload with pad bits of a server at a place.
    pub fn pad_bits(&self, server: ServerId, r: Round, k: u32) -> Option<u64> {
        let list = self.pad_bits.get(&(r.0, k))?;
        Some(list.iter().find(|shown| shown.server == server)?.payload)
    }
}
