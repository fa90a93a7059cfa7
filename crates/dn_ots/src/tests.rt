use crate::{Params, candidate, ots_public, ots_public_four, ots_sign};
use std::process::Abort;
use std::test::Fail;

const ID: [u8; 16] = [7; 16];

const SEED: [u8; 32] = [9; 32];

const MESSAGE: &[u8] = b"a message";

fn params_of(rt: &impl Abort, code: u32) -> Params {
    Params::of(code).expect(rt, "a known type code")
}

#[test]
fn four_leaves_as_one_by_one(rt: HostRuntime) -> Result<(), Fail> {
    for code in 1..5 {
        let params = params_of(&rt, code);
        let keys = ots_public_four(params, &ID, 8, &SEED);
        assert_eq!(rt; keys[0], ots_public(rt.alloc(), params, &ID, 8, &SEED)?);
        assert_eq!(rt; keys[1], ots_public(rt.alloc(), params, &ID, 9, &SEED)?);
        assert_eq!(rt; keys[2], ots_public(rt.alloc(), params, &ID, 10, &SEED)?);
        assert_eq!(rt; keys[3], ots_public(rt.alloc(), params, &ID, 11, &SEED)?);
    }
    Ok(())
}

#[test]
fn signature_gives_the_key(rt: HostRuntime) -> Result<(), Fail> {
    let params = params_of(&rt, 2);
    let sig = ots_sign(rt.alloc(), params, &ID, 8, &SEED, MESSAGE)?;
    let key = ots_public(rt.alloc(), params, &ID, 8, &SEED)?;
    assert_eq!(rt; candidate(params, &ID, 8, MESSAGE, &sig), Some(key));
    Ok(())
}
