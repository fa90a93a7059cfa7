ghost use Rattle.std.specs.Prelude.{◌≡◌, false, true, OnOk, if◌then◌else◌};

use dn_memory::NoMemory;
use dn_wire::{ClientId, Round, ServerId};
use std::alloc::Global;
use std::collections::BTreeSet;

/// What a client was told by a server in a round.
#[derive(Clone, Copy)]
pub struct ToldKey {
    pub client: ClientId,
    pub server: ServerId,
    pub r: Round,
}

/// Which clients were told, by which servers and in which rounds.
#[derive(Drop)]
pub struct Told {
    keys: BTreeSet<(u64, (u32, u32))>,
}

impl Told {
    ghost use Rattle.dn_verify.specs.Course.{is_told_key};
    ghost use Rattle.dn_verify.specs.Kept.{has_told, key_of};

    pub fn new(alloc: Global) -> Told
        ensures { (key : ToldKey) → has_told result key ≡ false }
    {
        Told {
            keys: BTreeSet::new(alloc),
        }
    }

    pub fn has(&self, key: ToldKey) -> bool
        ensures { result ≡ has_told self.now key }
    {
        self.keys.contains(&number_of(key))
    }

    pub fn note(&mut self, key: ToldKey) -> Result<(), NoMemory>
        ensures { OnOk result ((q : ToldKey) → has_told self.new q ≡ (if is_told_key key q then true else has_told self.old q)) }
    {
        self.keys.insert(number_of(key))?;
        Ok(())
    }
}

ghost use Rattle.dn_verify.specs.Kept.{key_of};

fn number_of(key: ToldKey) -> (u64, (u32, u32))
    ensures { result ≡ key_of key }
{
    (key.r.0, (key.client.0, key.server.0))
}
