ghost use Rattle.std.specs.Prelude.{◌≡◌, ◌++◌, IfOk, OnOk};
ghost use Rattle.dn_ots.specs.Ots.{ots_signature};

use crate::Params;
use crate::block::{leaf_block, run, start_chain};
use crate::digits::{coef, with_checksum};
use crate::hashers::{message_hash, randomizer};
use dn_memory::NoMemory;
use std::alloc::Global;

/// Appends the signature of a message at leaf q, of `sig_len` bytes (RFC 8554 section 4.5): the type code, the randomizer C, and a value of
/// each chain.
pub fn append_signature(
    out: &mut Vec<u8>,
    params: Params,
    id: &[u8; 16],
    q: u32,
    seed: &[u8; 32],
    msg: &[u8],
) -> Result<(), NoMemory>
    ensures { OnOk result (out.new.items ≡ out.old.items ++ ots_signature params.code id.now q seed.now msg.now) }
{
    let c = randomizer(id, q, seed);
    out.extend_from_slice(&params.code.to_be_bytes())?;
    out.extend_from_slice(&c)?;
    let digits = with_checksum(params, message_hash(id, q, &c, msg));
    let mut block = leaf_block(id, q);
    'chains: for i in 0..params.p {
        start_chain(&mut block, i as u16, seed);
        run(&mut block, 0, coef(params, &digits, i));
        out.extend_from_slice(&block[23..])?;
    }
    Ok(())
}

/// The signature of a message at leaf q, as `append_signature` appends it.
pub fn ots_sign(
    alloc: Global,
    params: Params,
    id: &[u8; 16],
    q: u32,
    seed: &[u8; 32],
    msg: &[u8],
) -> Result<Vec<u8>, NoMemory>
    ensures { IfOk result (λ sig. sig.items ≡ ots_signature params.code id.now q seed.now msg.now) }
{
    let mut sig = Vec::with_capacity(alloc, params.sig_len as usize)?;
    append_signature(&mut sig, params, id, q, seed, msg)?;
    Ok(sig)
}
