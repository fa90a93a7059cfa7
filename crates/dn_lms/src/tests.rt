use crate::{KeyFault, KeyPair, SigKey, verify};
use std::test::Fail;

const ID: [u8; 16] = [7; 16];

const SEED: [u8; 32] = [9; 32];

const MESSAGE: &[u8] = b"a message";

// A key made by another implementation.
const OTHER_ID: [u8; 16] = [
    0x54, 0x3d, 0x87, 0x75, 0xc3, 0x2c, 0x15, 0xf9, 0xbd, 0x94, 0xc8, 0x06, 0xaa, 0xf1, 0x7c, 0x54,
];

const OTHER_SEED: [u8; 32] = [
    0xdb, 0x2f, 0xad, 0x1b, 0xf5, 0xb0, 0xba, 0xb5, 0x4a, 0x81, 0x0c, 0x50, 0x87, 0xf6, 0xec, 0x23,
    0x88, 0x8a, 0xde, 0x03, 0x35, 0xb6, 0x5c, 0x27, 0x9a, 0xed, 0xfa, 0x11, 0x91, 0x9a, 0x92, 0x29,
];

const OTHER_PUBLIC: [u8; 56] = [
    0x00, 0x00, 0x00, 0x05, 0x00, 0x00, 0x00, 0x02, 0x54, 0x3d, 0x87, 0x75, 0xc3, 0x2c, 0x15, 0xf9,
    0xbd, 0x94, 0xc8, 0x06, 0xaa, 0xf1, 0x7c, 0x54, 0x52, 0xbb, 0x5c, 0x51, 0xb1, 0x85, 0x3f, 0x40,
    0xae, 0x5f, 0x2b, 0x9a, 0x05, 0xd1, 0x83, 0xfd, 0x57, 0x2e, 0x35, 0x7e, 0xe8, 0x39, 0x6b, 0xca,
    0x47, 0x1f, 0xc1, 0x30, 0x73, 0x94, 0x59, 0x56,
];

#[test]
fn lowest_tree_with_widest_digits(rt: HostRuntime) -> Result<(), Fail> {
    let key = KeyPair::make(rt.alloc(), 5, 4, ID, SEED)?.copy(rt.alloc())?;
    let public = key.public(rt.alloc())?;
    assert_eq!(rt; public.len(), 56);
    assert!(rt; 3 < key.leaves());
    let mut sig = key.sign_at(rt.alloc(), 3, MESSAGE)?;
    assert_eq!(rt; sig.len(), 1292);
    assert!(rt; KeyPair::check(&public, MESSAGE, &sig));
    sig[3] = 32;
    assert!(rt; !verify(&public, MESSAGE, &sig), "leaf 32 of 32");
    sig[3] = 3;
    sig.push(0)?;
    assert!(rt; !verify(&public, MESSAGE, &sig), "one byte more");
    Ok(())
}

#[test]
fn lowest_tree_with_digits_of_two_bits(rt: HostRuntime) -> Result<(), Fail> {
    let key = KeyPair::make(rt.alloc(), 5, 2, OTHER_ID, OTHER_SEED)?;
    let public = key.public(rt.alloc())?;
    assert_eq!(rt; public.as_slice(), OTHER_PUBLIC.as_slice());
    assert!(rt; 31 < key.leaves());
    let mut sig = key.sign_at(rt.alloc(), 31, MESSAGE)?;
    assert_eq!(rt; sig.len(), 4460);
    assert!(rt; verify(&public, MESSAGE, &sig));
    sig[4299] = 6;
    assert!(rt; !verify(&public, MESSAGE, &sig), "another type code");
    sig[4299] = 5;
    let _ = sig.pop();
    assert!(rt; !verify(&public, MESSAGE, &sig), "one byte less");
    Ok(())
}

#[test]
fn highest_tree(rt: HostRuntime) -> Result<(), Fail> {
    let key = KeyPair::make(rt.alloc(), 7, 1, ID, SEED)?;
    let public = key.public(rt.alloc())?;
    assert!(rt; 32_767 < key.leaves());
    let sig = key.sign_at(rt.alloc(), 32_767, MESSAGE)?;
    assert_eq!(rt; sig.len(), 9004);
    assert!(rt; verify(&public, MESSAGE, &sig));
    Ok(())
}

#[test]
fn unknown_type_codes(rt: HostRuntime) {
    let ots = KeyPair::make(rt.alloc(), 5, 5, ID, SEED).err();
    assert_eq!(rt; ots, Some(KeyFault::UnknownOts { code: 5 }));
    let both = KeyPair::make(rt.alloc(), 8, 5, ID, SEED).err();
    assert_eq!(rt; both, Some(KeyFault::UnknownLms { code: 8 }));
}
