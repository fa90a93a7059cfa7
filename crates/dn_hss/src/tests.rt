use crate::{HssKey, hss_leaves, hss_verify};
use dn_lms::{KeyFault, SigKey};
use dn_memory::NoMemory;
use std::alloc::Global;
use std::test::Fail;
use std::thread;

const MESSAGE: &[u8] = b"a message";

const SEED: [u8; 32] = [9; 32];

// The public key that another implementation derives from the codes 5 and 3 and the seed of 31 zeros and a 7.
const PUBLIC: [u8; 60] = [
    0x00, 0x00, 0x00, 0x02, 0x00, 0x00, 0x00, 0x05, 0x00, 0x00, 0x00, 0x03, 0x0c, 0x32, 0x0d, 0xd7,
    0x29, 0xb0, 0x72, 0x03, 0xd1, 0xc9, 0x2b, 0x8c, 0x5c, 0x3b, 0xf3, 0xc1, 0x2a, 0xb2, 0x20, 0xdc,
    0xca, 0xa0, 0x2a, 0x8b, 0xc0, 0x79, 0x73, 0xa1, 0x94, 0xa0, 0xb2, 0x36, 0x81, 0x88, 0xf3, 0x2b,
    0x9b, 0x35, 0x72, 0x95, 0x2d, 0x38, 0x13, 0x10, 0xe2, 0x48, 0xff, 0xd7,
];

#[test]
fn the_public_key_is_another_implementations(rt: HostRuntime) -> Result<(), Fail> {
    let mut seed = [0; 32];
    seed[31] = 7;
    let key = HssKey::make(rt.alloc(), 5, 3, seed)?;
    assert_eq!(rt; key.public(rt.alloc())?.as_slice(), PUBLIC.as_slice());
    Ok(())
}

#[test]
fn leaves_of_the_first_and_the_last_tree_sign(rt: HostRuntime) -> Result<(), Fail> {
    let key = HssKey::make(rt.alloc(), 5, 2, SEED)?;
    let public = key.public(rt.alloc())?;
    assert_eq!(rt; public.len(), 60);
    assert!(rt; 1_023 < key.leaves());
    for (q, leaves) in [
        (0, (0, 0)),
        (31, (0, 31)),
        (32, (1, 0)),
        (33, (1, 1)),
        (1_023, (31, 31)),
    ] {
        assert!(rt; q < key.leaves());
        let mut sig = key.sign_at(rt.alloc(), q, MESSAGE)?;
        assert_eq!(rt; sig.len(), 8_980);
        assert_eq!(rt; hss_leaves(&public, &sig), Some(leaves));
        assert!(rt; HssKey::check(&public, MESSAGE, &sig));
        assert!(rt; !hss_verify(&public, b"another", &sig), "another message");
        sig.push(0)?;
        assert!(rt; !hss_verify(&public, MESSAGE, &sig), "one byte more");
    }
    Ok(())
}

#[test]
fn what_is_no_signature_is_refused(rt: HostRuntime) -> Result<(), Fail> {
    let key = HssKey::make(rt.alloc(), 5, 4, SEED)?;
    let public = key.public(rt.alloc())?;
    assert!(rt; 40 < key.leaves());
    let mut sig = key.sign_at(rt.alloc(), 40, MESSAGE)?;
    assert_eq!(rt; sig.len(), 2_644);
    assert_eq!(rt; public.len(), 60);
    assert!(rt; hss_verify(&public, MESSAGE, &sig));
    for at in [3, 7, 20, 1_200, 1_295, 1_300, 1_340, 2_643] {
        assert!(rt; at < sig.len());
        sig[at] ^= 1;
        assert!(rt; !hss_verify(&public, MESSAGE, &sig), "a byte changed");
        sig[at] ^= 1;
    }
    sig.truncate(1_356);
    assert!(rt; !hss_verify(&public, MESSAGE, &sig), "cut");
    assert_eq!(rt; hss_leaves(&public, &sig), Some((1, 8)));
    sig.truncate(1_355);
    assert_eq!(rt; hss_leaves(&public, &sig), None);
    Ok(())
}

#[test]
fn other_public_keys_are_refused(rt: HostRuntime) -> Result<(), Fail> {
    let key = HssKey::make(rt.alloc(), 5, 4, SEED)?;
    let mut public = key.public(rt.alloc())?;
    assert!(rt; 40 < key.leaves());
    let sig = key.sign_at(rt.alloc(), 40, MESSAGE)?;
    assert_eq!(rt; public.len(), 60);
    public[3] = 1;
    assert!(rt; !hss_verify(&public, MESSAGE, &sig), "a key of one level");
    public[3] = 2;
    public[7] = 8;
    assert!(rt; !hss_verify(&public, MESSAGE, &sig), "an unknown code");
    assert_eq!(rt; hss_leaves(&public, &sig), None);
    Ok(())
}

#[test]
fn unknown_type_codes(rt: HostRuntime) {
    let ots = HssKey::make(rt.alloc(), 5, 5, SEED).err();
    assert_eq!(rt; ots, Some(KeyFault::UnknownOts { code: 5 }));
    let both = HssKey::make(rt.alloc(), 8, 5, SEED).err();
    assert_eq!(rt; both, Some(KeyFault::UnknownLms { code: 8 }));
}

// The signature at a leaf, if the key has it.
fn signed(alloc: Global, key: &HssKey, q: u32) -> Result<Vec<u8>, NoMemory> {
    if q < key.leaves() {
        key.sign_at(alloc, q, MESSAGE)
    } else {
        Err(NoMemory)
    }
}

#[test]
fn threads_share_a_key(rt: HostRuntime) -> Result<(), Fail> {
    let alloc: Global = rt.alloc();
    let key = HssKey::make(alloc, 5, 4, SEED)?;
    let public = key.public(alloc)?;
    let shared = &key;
    let leaves = vec![in alloc; 64, 65, 66, 67, 96, 97]?;
    let sigs = thread::map_vec(&rt, leaves, &|q| signed(alloc, shared, q))?;
    assert_eq!(rt; sigs.len(), 6);
    for sig in sigs {
        assert!(rt; hss_verify(&public, MESSAGE, &sig.expect(&rt, "memory")));
    }
    Ok(())
}
