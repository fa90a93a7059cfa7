// Laws of dealt groups, for those who build on them.
ghost use Rattle.std.specs.Prelude.{◌≡◌, ℕ, ◌+◌, ◌*◌, ◌^◌, ◌<◌, ◌≤◌, List, length, Some, None, slice_get};
ghost use Rattle.dn_wire.specs.declared.ids.SignerId.{SignerId};
ghost use Rattle.dn_hash.specs.Digests.{seed_commitment_of};
ghost use Rattle.dn_lms.specs.Key.{Key, IsKey, leaf_count};
ghost use Rattle.dn_lms.specs.Signature.{public_key};
ghost use Rattle.dn_wire.specs.Signer.{number_of};
ghost use Rattle.dn_roster.specs.Dealing.{mask_secret_of};
ghost use Rattle.dn_roster.specs.Roster.{RosterView, key_of, commitment_of, digest_of};
ghost use Rattle.dn_records.specs.Records.{statement_bytes, IsStatement};
ghost use Rattle.dn_record_types.specs.declared.statement.Statement.{Statement};
ghost use Rattle.dn_seal.specs.Said.{SaidView, IsSaid, IsUnder, Unseals};
ghost use Rattle.dn_seal.specs.Signer.{CanSign, sealed_in};
ghost use Rattle.dn_seal.specs.Sizes.{HasShortSignatures, most_bytes, longest_signature};
ghost use Rattle.dn_seal.specs.Dealt.{IsMember, signers_like, client, server, slot, key_dealt_to, seed_dealt_to};

use crate::dealt::Dealt;

/// The roster's key of each member of a dealt group is the public key of the key that is dealt to it, and others have none. Each
/// list of keys has the key that is dealt to a member at its number.
pub fn members_have_their_keys(dealt: &Dealt)
    ensures member { (who : SignerId) → IsMember dealt.now.spec who → key_of dealt.now.roster who ≡ Some (public_key (key_dealt_to dealt.now.spec who)) }
    ensures stranger { (who : SignerId) → signers_like dealt.now.spec who ≤ number_of who → key_of dealt.now.roster who ≡ None }
    ensures clients { (i : ℕ) → i < dealt.now.spec.clients → slice_get dealt.now.client_keys.items i ≡ Some (key_dealt_to dealt.now.spec (client i)) }
    ensures servers { (j : ℕ) → j < dealt.now.spec.servers → slice_get dealt.now.server_keys.items j ≡ Some (key_dealt_to dealt.now.spec (server j)) }
    ensures slots { (s : ℕ) → s < dealt.now.spec.clients → slice_get dealt.now.slot_keys.items s ≡ Some (key_dealt_to dealt.now.spec (slot s)) }
{}

/// The roster's commitment of each pair of a dealt group is that to the seed that is dealt to the pair, which stands in the list of
/// seeds at the pair's place.
pub fn pairs_have_their_seeds(dealt: &Dealt)
    ensures commitments { (i j : ℕ) → i < dealt.now.spec.clients → j < dealt.now.spec.servers
        → commitment_of dealt.now.roster i j ≡ Some (seed_commitment_of i j (seed_dealt_to dealt.now.spec i j)) }
    ensures seeds { (i j : ℕ) → i < dealt.now.spec.clients → j < dealt.now.spec.servers
        → slice_get dealt.now.seeds.items (i * dealt.now.spec.servers + j) ≡ Some (seed_dealt_to dealt.now.spec i j) }
    ensures masks { (i : ℕ) → i < dealt.now.spec.clients → slice_get dealt.now.masks.items i ≡ Some (mask_secret_of dealt.now.spec.seed i) }
{}

/// Under one roster, what was said is what its bytes spell: bytes unseal as one signer's one statement.
pub fn bytes_say_one_thing()
    ensures one { (roster : RosterView) (x y : SaidView) → IsSaid x → IsSaid y → IsUnder roster x → IsUnder roster y → x.bytes ≡ y.bytes → x ≡ y }
    ensures unseals { (roster : RosterView) (x : SaidView) → IsSaid x → IsUnder roster x → Unseals roster x.bytes x.signer x.statement }
    ensures alone { (roster : RosterView) (bytes : List ℕ) (i j : SignerId) (s t : Statement) → Unseals roster bytes i s → Unseals roster bytes j t → (i ≡ j) × (s ≡ t) }
{}

/// What a key seals in a group, at any of its leaves, unseals under each roster of the group that has its public key.
pub fn sealed_bytes_unseal()
    ensures { (roster : RosterView) (digest : List ℕ) (who : SignerId) (key : Key) (q : ℕ) (s : Statement) → digest ≡ digest_of roster → key_of roster who ≡ Some (public_key key)
        → IsKey key → q < leaf_count key → CanSign who s → Unseals roster (sealed_in digest who key q s) who s }
{}

/// Each statement within its limits can be sealed, as long as the signatures in it are short, which those that verify are. `bytes` and
/// `said` tell how long a statement and what was said of it can be.
pub fn statements_fit()
    ensures can { (who : SignerId) (s : Statement) → number_of who < 2 ^ 32 → IsStatement s → HasShortSignatures s → CanSign who s }
    ensures bytes { (s : Statement) → IsStatement s → HasShortSignatures s → length (statement_bytes s) ≤ most_bytes s }
    ensures said { (x : SaidView) → IsSaid x → HasShortSignatures x.statement → length x.bytes ≤ 9 + most_bytes x.statement + longest_signature }
{}
