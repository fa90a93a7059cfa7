//! The protocol's digests: SHA-256 (FIPS 180-4, section 6.2) of a tag and what the tag stands for, each as `specs/Digests.antt` has it.
//! Numbers go in with their high byte first. No call takes memory.
#![tactic(auto)]

mod digests;
mod laws;

pub use digests::{
    block_check, cipher_digest, group_digest, group_tag, mask_key, mask_seed, seed_commitment,
    server_digest, tagged,
};
pub use laws::inputs_have_their_parts;
