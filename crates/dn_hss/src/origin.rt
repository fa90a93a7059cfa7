ghost use Rattle.std.specs.Prelude.{◌≡◌, ◌*◌, ◌+◌, ◌^◌, ◌<◌, IfOk, IfErr};
ghost use Rattle.dn_lms.specs.Fault.{IsFault};
ghost use Rattle.dn_lms.specs.Key.{IsKey};
ghost use Rattle.dn_hss.specs.Hss.{tree_at, top_of, second_of};
ghost use Rattle.dn_hss.specs.Origin.{key_from};

use dn_lms::{KeyFault, KeyPair};
use dn_roster::deal_into;
use std::alloc::Global;

/// What all trees of a key are made from: its type codes and its seed.
#[derive(Clone, Copy)]
pub struct Origin {
    pub lms: u32,
    pub ots: u32,
    pub seed: [u8; 32],
}

/// The stream of the top tree.
const TOP: u64 = 10;

/// The stream of the second trees.
const SECONDS: u64 = 11;

/// The tree whose identifier and seed stand at a place of a stream.
fn tree_at(alloc: Global, origin: &Origin, stream: u64, place: u128) -> Result<KeyPair, KeyFault>
    requires { place < 2 ^ 64 }
    ensures value { IfOk result (λ tree. tree ≡ tree_at (key_from origin.now) stream place) }
    ensures key { IfOk result IsKey }
    ensures fault { IfErr result (IsFault origin.now.lms origin.now.ots) }
{
    let mut id = [0; 16];
    deal_into(&origin.seed, stream, place, &mut id);
    let mut seed = [0; 32];
    deal_into(&origin.seed, stream, place + 4, &mut seed);
    KeyPair::make(alloc, origin.lms, origin.ots, id, seed)
}

/// The top tree.
#[tactic(auto, unfolding(dn_hss_definitions::specs::Hss::top_of))]
pub fn top_tree(alloc: Global, origin: &Origin) -> Result<KeyPair, KeyFault>
    ensures value { IfOk result (λ tree. tree ≡ top_of (key_from origin.now)) }
    ensures key { IfOk result IsKey }
    ensures fault { IfErr result (IsFault origin.now.lms origin.now.ots) }
{
    tree_at(alloc, origin, TOP, 0)
}

/// Second tree t.
#[tactic(auto, unfolding(dn_hss_definitions::specs::Hss::second_of))]
pub fn second_tree(alloc: Global, origin: &Origin, t: u32) -> Result<KeyPair, KeyFault>
    ensures value { IfOk result (λ tree. tree ≡ second_of (key_from origin.now) t) }
    ensures key { IfOk result IsKey }
    ensures fault { IfErr result (IsFault origin.now.lms origin.now.ots) }
{
    tree_at(alloc, origin, SECONDS, 16 * u128::from(t))
}
