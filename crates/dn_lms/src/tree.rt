// A tree in memory: place r has node r, and place 0 is free.

ghost use Rattle.std.specs.Prelude.{◌≡◌, ℕ, ◌+◌, ◌-◌, ◌*◌, ◌/◌, ◌^◌, ◌<◌, ◌≤◌, ◌++◌, [], length, slice_index_or, IfOk, OnOk};
ghost use Rattle.dn_ots.specs.Ots.{joined};
ghost use Rattle.dn_lms.specs.Key.{IsKey, IsLms, Key, leaves_of, height};
ghost use Rattle.dn_lms.specs.Tree.{leaf_hash, path_node};
ghost use Rattle.dn_lms.specs.Filled.{HasLeaves, HasTree};

use crate::nodes::{height_of, inner_hash, leaf_hash, sibling};
use dn_memory::NoMemory;
use dn_ots::{Params, ots_public_four};
use std::alloc::Global;

/// The number of leaves of a type code.
pub(crate) fn leaves_of(lms: u32) -> u32
    requires { IsLms lms }
    ensures { result ≡ leaves_of lms }
{
    1 << height_of(lms)
}

/// Writes the four leaves from node r on, by their one-time public keys.
fn fill_four(tree: &mut [[u8; 32]], id: &[u8; 16], r: u32, keys: &[[u8; 32]; 4])
    requires few { r < 2 ^ 31 }
    requires within { r + 4 ≤ length tree.old }
    ensures written { (k : ℕ) → k < 4 → slice_index_or tree.new (r + k) [] ≡ leaf_hash id.now (r + k) (slice_index_or keys.now k []) }
    ensures kept { (i : ℕ) → i < r → slice_index_or tree.new i [] ≡ slice_index_or tree.old i [] }
{
    'lanes: for k in 0..4u32 {
        tree[(r + k) as usize] = leaf_hash(id, r + k, &keys[k as usize]);
    }
}

/// Fills the last level, four leaves at a time.
fn fill_leaves(tree: &mut [[u8; 32]], lms: u32, params: Params, id: &[u8; 16], seed: &[u8; 32])
    requires known { IsLms lms }
    requires size { length tree.old ≡ 2 * leaves_of lms }
    ensures { HasLeaves (record { lms = lms; ots = params.code; id = id.now; seed = seed.now }) tree.new }
{
    let count = leaves_of(lms);
    'fours: for four in 0..count / 4 {
        let keys = ots_public_four(params, id, 4 * four, seed);
        fill_four(tree, id, count + 4 * four, &keys);
    }
}

/// Fills the other levels, from the last node to the root.
fn fill_inner(tree: &mut [[u8; 32]], id: &[u8; 16])
    requires { length tree.old < 2 ^ 32 }
    ensures { (key : Key) → IsLms key.lms → key.id ≡ id.now → length tree.old ≡ 2 * leaves_of key.lms
        → HasLeaves key tree.old → HasTree key tree.new }
{
    let count = tree.len() / 2;
    'nodes: for done in 1..count {
        let r = count - done;
        let value = inner_hash(id, r as u32, &tree[2 * r], &tree[2 * r + 1]);
        tree[r] = value;
    }
}

/// The tree of a key.
pub(crate) fn tree_of(
    alloc: Global,
    lms: u32,
    params: Params,
    id: &[u8; 16],
    seed: &[u8; 32],
) -> Result<Vec<[u8; 32]>, NoMemory>
    requires { IsLms lms }
    ensures { IfOk result (λ tree. HasTree (record { lms = lms; ots = params.code; id = id.now; seed = seed.now }) tree.items) }
{
    let mut tree = vec![in alloc; [0; 32]; 2 * leaves_of(lms) as usize]?;
    fill_leaves(&mut tree, lms, params, id, seed);
    fill_inner(&mut tree, id);
    Ok(tree)
}

/// Appends the path of leaf q.
pub(crate) fn append_path(
    tree: &[[u8; 32]],
    lms: u32,
    q: u32,
    out: &mut Vec<u8>,
) -> Result<(), NoMemory>
    requires known { IsLms lms }
    requires leaf { q < leaves_of lms }
    requires size { length tree.now ≡ 2 * leaves_of lms }
    ensures { OnOk result ((key : Key) → key.lms ≡ lms → HasTree key tree.now
        → out.new.items ≡ out.old.items ++ joined (path_node key q) (height lms)) }
{
    let leaf = leaves_of(lms) + q;
    'levels: for i in 0..height_of(lms) {
        out.extend_from_slice(&tree[sibling(leaf >> i) as usize])?;
    }
    Ok(())
}
