// Each digest feeds its pieces to the hasher in turn.
ghost use Rattle.std.specs.Prelude.{◌≡◌};
ghost use Rattle.dn_hash.specs.Digests.{tagged_digest, seed_commitment_of, cipher_digest_of, server_digest_of, mask_key_of, block_check_of, mask_seed_of, group_digest_of};
ghost use Rattle.dn_hash.specs.Inputs.{group_tag_of};

use sha2::{Digest, Sha256};

/// The digest of a tag and two pieces.
#[tactic(auto, unfolding(crate::specs::Digests::tagged_digest))]
pub fn tagged(tag: &[u8], a: &[u8], b: &[u8]) -> [u8; 32]
    ensures { result ≡ tagged_digest tag.now a.now b.now }
{
    let mut hasher = Sha256::new();
    hasher.update(tag);
    hasher.update(a);
    hasher.update(b);
    hasher.finalize()
}

/// What binds client i and server j to the seed that they share, 32 bytes.
pub fn seed_commitment(i: u32, j: u32, seed: &[u8; 32]) -> [u8; 32]
    ensures { result ≡ seed_commitment_of i j seed.now }
{
    let mut hasher = Sha256::new();
    hasher.update("dnseed");
    hasher.update(i.to_be_bytes());
    hasher.update(j.to_be_bytes());
    hasher.update(seed);
    hasher.finalize()
}

/// The digest of the ciphertext of client i in round r, given as bytes.
pub fn cipher_digest(r: u64, i: u32, c: &[u8]) -> [u8; 32]
    ensures { result ≡ cipher_digest_of r i c.now }
{
    let mut hasher = Sha256::new();
    hasher.update("dnsub");
    hasher.update(r.to_be_bytes());
    hasher.update(i.to_be_bytes());
    hasher.update(c);
    hasher.finalize()
}

/// The digest of the server ciphertext of server j in round r, given as bytes.
pub fn server_digest(r: u64, j: u32, s: &[u8]) -> [u8; 32]
    ensures { result ≡ server_digest_of r j s.now }
{
    let mut hasher = Sha256::new();
    hasher.update("dnsrv");
    hasher.update(r.to_be_bytes());
    hasher.update(j.to_be_bytes());
    hasher.update(s);
    hasher.finalize()
}

/// The ChaCha20 key of a block's mask, from the block's mask seed of 16 bytes.
#[tactic(auto, unfolding(crate::specs::Digests::mask_key_of, crate::specs::Digests::tagged_digest))]
pub fn mask_key(z: &[u8; 16]) -> [u8; 32]
    ensures { result ≡ mask_key_of z.now }
{
    tagged(b"dnmask", z, b"")
}

/// The check of a block, over all bytes that follow the check.
#[tactic(auto, unfolding(crate::specs::Digests::block_check_of, crate::specs::Digests::tagged_digest))]
pub fn block_check(rest: &[u8]) -> [u8; 8]
    ensures { result ≡ block_check_of rest.now }
{
    let mut check = [0; 8];
    check.copy_from_slice(&tagged(b"dnblock", rest, b"")[..8]);
    check
}

/// The mask seed, in round r, of the client with this mask secret.
#[tactic(auto, unfolding(crate::specs::Digests::mask_seed_of, crate::specs::Digests::tagged_digest))]
pub fn mask_seed(secret: &[u8; 32], r: u64) -> [u8; 16]
    ensures { result ≡ mask_seed_of secret.now r }
{
    let mut seed = [0; 16];
    seed.copy_from_slice(&tagged(b"dnmasks", secret, &r.to_be_bytes())[..16]);
    seed
}

/// The tag of the digest of a group, by the group's version: `dngroup` for version 1, and `dngrp2` for version 2.
pub fn group_tag(version: u8) -> &'static [u8]
    ensures { result.now ≡ group_tag_of version }
{
    if version == 2 { b"dngrp2" } else { b"dngroup" }
}

/// The digest of a group of this version, from its roster's bytes.
#[tactic(auto, unfolding(crate::specs::Digests::group_digest_of, crate::specs::Digests::tagged_digest))]
pub fn group_digest(version: u8, roster: &[u8]) -> [u8; 32]
    ensures { result ≡ group_digest_of version roster.now }
{
    tagged(group_tag(version), roster, b"")
}
