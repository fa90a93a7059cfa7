ghost use Rattle.std.specs.Prelude.{◌≡◌, Some, IfOk};
ghost use Rattle.dn_lms.specs.Signature.{public_key};
ghost use Rattle.dn_roster.specs.Roster.{key_of};
ghost use Rattle.dn_seal.specs.Dealt.{client};
ghost use Rattle.dn_seal.specs.Signer.{CanSign};

use crate::{
    Challenge, Dealt, SealFault, Signer, SigningKey, Unopened, deal, members_have_their_keys,
    unseal,
};
use dn_hash::seed_commitment;
use dn_leaf::LeafPass;
use dn_lms::KeyPair;
use dn_memory::NoMemory;
use dn_records::{ByteLists, Payload, RecordFault, Statement};
use dn_roster::GroupSpec;
use dn_wire::{Bytes, ClientId, Round, ServerId, SignerId};
use std::alloc::Global;
use std::test::Fail;

const GROUP: GroupSpec = GroupSpec {
    version: 1,
    clients: 3,
    servers: 2,
    ots: 2,
    client_lms: 5,
    server_lms: 5,
    seed: [7; 32],
};

// The digest of this group by another implementation.
const DIGEST: [u8; 32] = [
    0x3c, 0x8f, 0x52, 0x9e, 0xe7, 0x4d, 0x60, 0xbd, 0xbc, 0xf9, 0xe2, 0xbf, 0x4a, 0xb3, 0x23, 0x97,
    0xfb, 0x13, 0xf7, 0xf3, 0xaf, 0x2e, 0xfc, 0x04, 0xdb, 0xb1, 0x58, 0x78, 0x0f, 0xba, 0xa8, 0xc5,
];

// That of the same group in version 2.
const SECOND_DIGEST: [u8; 32] = [
    0xc3, 0x94, 0xf2, 0xa6, 0x77, 0x62, 0xbe, 0x9e, 0x08, 0x54, 0xd1, 0x57, 0x93, 0x0a, 0x93, 0x09,
    0xec, 0x13, 0x63, 0x62, 0x8b, 0xbf, 0xfd, 0xfe, 0xda, 0xcf, 0xe3, 0xa8, 0xc4, 0x6e, 0x1f, 0x52,
];

// The length of an envelope in which a client concedes.
const LENGTH: usize = 9 + 13 + 4460;

// The signer of client 0, and its only pass.
fn first_client(alloc: Global, dealt: &Dealt) -> Result<(Signer<KeyPair>, LeafPass), NoMemory>
    ensures key { IfOk result (λ r. key_of dealt.now.roster (client 0) ≡ Some (public_key r.0.key)) }
    ensures pass { IfOk result (λ r. r.1.drawer ≡ r.0.drawer) }
{
    members_have_their_keys(dealt);
    let key = dealt.client_keys[0].copy(alloc)?;
    let (signer, mut passes) = Signer::make(alloc, key, 1)?;
    let pass = passes.pop().unwrap();
    Ok((signer, pass))
}

// What client 0 says: it concedes in round r.
fn concession(r: u64) -> Statement
    ensures { CanSign (client 0) result }
{
    Statement::Concede { r: Round(r), k: 7 }
}

fn seal(
    alloc: Global,
    dealt: &Dealt,
    signer: &Signer<KeyPair>,
    pass: &mut LeafPass,
    r: u64,
) -> Result<Vec<u8>, SealFault>
    requires key { key_of dealt.now.roster (client 0) ≡ Some (public_key signer.now.key) }
    requires pass { pass.old.drawer ≡ signer.now.drawer }
    ensures { pass.new.drawer ≡ pass.old.drawer }
{
    let who = SignerId::Client(ClientId(0));
    signer.seal(alloc, &dealt.roster, who, pass, &concession(r))
}

// Whether an envelope unseals to the concession of client 0 in round r.
fn concedes(alloc: Global, dealt: &Dealt, envelope: &[u8], r: u64) -> bool {
    match unseal(alloc, &dealt.roster, envelope) {
        Ok(said) => {
            said.signer() == SignerId::Client(ClientId(0))
                && said.statement().equals(&concession(r))
                && said.bytes() == envelope
        }
        Err(_) => false,
    }
}

fn refusal(alloc: Global, dealt: &Dealt, envelope: &[u8]) -> Option<Unopened> {
    unseal(alloc, &dealt.roster, envelope).err()
}

fn open(alloc: Global, dealt: &Dealt, envelopes: Vec<Bytes>) -> Result<Challenge, Unopened> {
    let payload = Payload::Challenge {
        r: Round(1),
        k: 7,
        envelopes: ByteLists::of(envelopes),
    };
    Challenge::open(alloc, &dealt.roster, &payload)
}

#[test]
fn deals_as_another_implementation_does(rt: HostRuntime) -> Result<(), Fail> {
    let dealt = deal(rt.alloc(), &GROUP)?;
    assert_eq!(rt; dealt.client_keys.len(), 3);
    assert_eq!(rt; dealt.server_keys.len(), 2);
    assert_eq!(rt; dealt.slot_keys.len(), 3);
    assert_eq!(rt; dealt.seeds.len(), 6);
    assert_eq!(rt; dealt.masks.len(), 3);
    assert_eq!(rt; dealt.roster.digest(), DIGEST);
    let owners = [ClientId(1), ClientId(0), ClientId(2)];
    assert!(rt; dealt.owners.as_slice() == owners.as_slice());
    assert!(rt; dealt.roster.clients() == 3 && dealt.roster.servers() == 2);
    for place in 0..6u32 {
        let (i, j) = (place / 2, place % 2);
        let sealed = dealt.roster.commitment(ClientId(i), ServerId(j));
        assert_eq!(rt; sealed, seed_commitment(i, j, &dealt.seeds[place as usize]));
    }
    Ok(())
}

#[test]
fn a_key_of_32_leaves_seals_32_envelopes(rt: HostRuntime) -> Result<(), Fail> {
    let dealt = deal(rt.alloc(), &GROUP)?;
    let (signer, mut pass) = first_client(rt.alloc(), &dealt)?;
    for r in 0..32u32 {
        assert_eq!(rt; signer.left(&mut pass), 32 - r);
        let envelope = seal(rt.alloc(), &dealt, &signer, &mut pass, r.into()).expect(&rt, "leaf");
        assert!(rt;
            concedes(rt.alloc(), &dealt, &envelope, r.into()),
            "round {r}"
        );
    }
    let fault = seal(rt.alloc(), &dealt, &signer, &mut pass, 32).err();
    assert_eq!(rt; fault, Some(SealFault::Exhausted { seen: 32 }));
    assert_eq!(rt; signer.left(&mut pass), 0);
    let again = seal(rt.alloc(), &dealt, &signer, &mut pass, 32).err();
    assert_eq!(rt; again, Some(SealFault::Exhausted { seen: 32 }));
    Ok(())
}

#[test]
fn envelopes_are_refused_by_their_first_fault(rt: HostRuntime) -> Result<(), Fail> {
    let dealt = deal(rt.alloc(), &GROUP)?;
    let (signer, mut pass) = first_client(rt.alloc(), &dealt)?;
    let mut envelope = seal(rt.alloc(), &dealt, &signer, &mut pass, 1).expect(&rt, "leaf");
    assert_eq!(rt; envelope.len(), LENGTH);
    let cut = refusal(rt.alloc(), &dealt, &envelope[..8]);
    assert_eq!(rt; cut, Some(Unopened::Form(RecordFault::Cut { at: 5 })));
    envelope[LENGTH - 1] ^= 1;
    let changed = refusal(rt.alloc(), &dealt, &envelope);
    assert_eq!(rt; changed, Some(Unopened::Signature));
    envelope[4] = 3;
    let stranger = refusal(rt.alloc(), &dealt, &envelope);
    let who = SignerId::Client(ClientId(3));
    assert_eq!(rt; stranger, Some(Unopened::Stranger { who }));
    envelope[9] = 12;
    let kind = refusal(rt.alloc(), &dealt, &envelope);
    assert_eq!(rt; kind, Some(Unopened::Form(RecordFault::Kind { byte: 12 })));
    Ok(())
}

#[test]
fn versions_are_groups_of_their_own(rt: HostRuntime) -> Result<(), Fail> {
    let dealt = deal(rt.alloc(), &GROUP)?;
    let second = deal(
        rt.alloc(),
        &GroupSpec {
            version: 2,
            ..GROUP
        },
    )?;
    assert_eq!(rt; second.roster.version(), 2);
    assert_eq!(rt; second.roster.digest(), SECOND_DIGEST);
    let (signer, mut pass) = first_client(rt.alloc(), &dealt)?;
    let envelope = seal(rt.alloc(), &dealt, &signer, &mut pass, 1).expect(&rt, "leaf");
    let fault = refusal(rt.alloc(), &second, &envelope);
    assert_eq!(rt; fault, Some(Unopened::Signature));
    Ok(())
}

#[test]
fn challenges_open_to_their_envelopes(rt: HostRuntime) -> Result<(), Fail> {
    let dealt = deal(rt.alloc(), &GROUP)?;
    let none = open(rt.alloc(), &dealt, Vec::new(rt.alloc()))
        .ok()
        .expect(&rt, "nothing is bad");
    assert!(rt; none.r == Round(1) && none.k == 7 && none.shown.is_empty());
    let (signer, mut pass) = first_client(rt.alloc(), &dealt)?;
    let mut envelope = seal(rt.alloc(), &dealt, &signer, &mut pass, 1).expect(&rt, "leaf");
    let good = vec![in rt.alloc(); Bytes::of(envelope.clone()?)]?;
    let one = open(rt.alloc(), &dealt, good)
        .ok()
        .expect(&rt, "it unseals");
    assert_eq!(rt; one.shown.len(), 1);
    assert!(rt; one.shown[0].bytes() == envelope.as_slice());
    assert_eq!(rt; envelope.len(), LENGTH);
    envelope[4] = 3;
    let bad = vec![in rt.alloc(); Bytes::of(envelope)]?;
    let who = SignerId::Client(ClientId(3));
    assert_eq!(rt;
        open(rt.alloc(), &dealt, bad).err(),
        Some(Unopened::Stranger { who })
    );
    Ok(())
}

#[test]
fn a_twin_signs_on_with_the_same_bytes(rt: HostRuntime) -> Result<(), Fail> {
    let dealt = deal(rt.alloc(), &GROUP)?;
    let (signer, mut pass) = first_client(rt.alloc(), &dealt)?;
    seal(rt.alloc(), &dealt, &signer, &mut pass, 1).expect(&rt, "leaf 0");
    seal(rt.alloc(), &dealt, &signer, &mut pass, 2).expect(&rt, "leaf 1");
    assert!(rt; 2 <= signer.left(&mut pass));
    let (twin, mut twin_pass) = signer.twin(rt.alloc(), 2)?;
    let sealed = seal(rt.alloc(), &dealt, &signer, &mut pass, 3).expect(&rt, "leaf 2");
    let by_twin = seal(rt.alloc(), &dealt, &twin, &mut twin_pass, 3).expect(&rt, "leaf 2");
    assert!(rt; by_twin == sealed);
    assert_eq!(rt; sealed.get(25), Some(&2));
    assert_eq!(rt; twin.left(&mut twin_pass), 29);
    Ok(())
}

#[test]
fn a_signing_key_seals_at_its_next_leaf(rt: HostRuntime) -> Result<(), Fail> {
    let dealt = deal(rt.alloc(), &GROUP)?;
    let key = dealt.client_keys[0].copy(rt.alloc())?;
    let who = SignerId::Client(ClientId(0));
    let mut key = SigningKey::make(rt.alloc(), key, dealt.roster.digest(), who)?;
    assert_eq!(rt; key.leaves(), 32);
    assert!(rt; 0 < key.left());
    let sealed = key.seal(rt.alloc(), concession(1))?;
    assert!(rt; concedes(rt.alloc(), &dealt, &sealed, 1));
    assert_eq!(rt; sealed.get(25), Some(&0));
    assert_eq!(rt; key.left(), 31);
    Ok(())
}
