// Signing a list of entries.

ghost use Rattle.std.specs.Prelude.{◌≡◌, ◌+◌, ◌++◌, ◌<◌, ◌≤◌, None, IfOk, OnOk, length};
ghost use Rattle.dn_hss.specs.Hss.{hss_count};
ghost use Rattle.dn_notary.specs.Signed.{key_text, line, notary_key, notary_text, seed_of, sign_text, signed, signed_lines};
ghost use Rattle.dn_notary.specs.declared.limits.TheConstants.{MAX_ENTRIES};

use dn_hss::HssKey;
use dn_leaf::LeafPass;
use dn_lines::{add_hex, add_number};
use dn_lms::SigKey;
use dn_memory::NoMemory;
use dn_seal::{SealFault, Signer};
use dn_wire::{Bytes, put_bytes, put_u8};
use std::alloc::Global;

/// The type code of the trees of the notary's key: five levels.
const LMS: u32 = 5;

/// The type code of their one-time signatures: digits of four bits.
const OTS: u32 = 3;

/// The seed of the notary's key: the number in its last eight bytes, the high byte first.
fn seed_of(num: u64) -> [u8; 32]
    ensures { result ≡ seed_of num }
{
    let mut seed = [0; 32];
    seed[24..].copy_from_slice(&num.to_be_bytes());
    seed
}

/// The key of the notary of this number.
fn notary_key(alloc: Global, num: u64) -> Result<HssKey, NoMemory>
    ensures { IfOk result (λ key. key ≡ notary_key num) }
{
    HssKey::make(alloc, LMS, OTS, seed_of(num)).map_err(|_| NoMemory)
}

/// Appends the line of a public key.
fn put_key_line(out: &mut Vec<u8>, key: &[u8]) -> Result<(), NoMemory>
    ensures { OnOk result (out.new.items ≡ out.old.items ++ line (key_text key.now)) }
{
    put_bytes(out, b"key")?;
    add_hex(out, key)?;
    put_u8(out, b'\n')
}

/// Appends the line of an entry with its number and its signature.
fn put_sign_line(out: &mut Vec<u8>, q: u32, entry: &[u8], signature: &[u8]) -> Result<(), NoMemory>
    ensures { OnOk result (out.new.items ≡ out.old.items ++ line (sign_text (record { q = q; entry = entry.now; signature = signature.now }))) }
{
    put_bytes(out, b"sign")?;
    add_number(out, u64::from(q))?;
    add_hex(out, entry)?;
    add_hex(out, signature)?;
    put_u8(out, b'\n')
}

/// Signs an entry at the next leaf, and appends its line.
fn sign_entry(
    alloc: Global,
    out: &mut Vec<u8>,
    signer: &Signer<HssKey>,
    pass: &mut LeafPass,
    entry: &[u8],
) -> Result<(), NoMemory>
    requires drawer { pass.old.drawer ≡ signer.now.drawer }
    requires alone { pass.old.stands ≡ signer.now.drawer.passes }
    requires open { pass.old.seen ≡ None }
    requires left { length pass.old.draws < hss_count signer.now.key }
    ensures written { OnOk result (out.new.items ≡ out.old.items ++ line (sign_text (signed signer.now.key (length pass.old.draws) entry.now))) }
    ensures drawn { OnOk result (length pass.new.draws ≡ length pass.old.draws + 1) }
    ensures pass { OnOk result ((pass.new.drawer ≡ pass.old.drawer) × (pass.new.stands ≡ pass.old.stands) × (pass.new.seen ≡ None)) }
{
    let (q, signature) = match signer.sign(alloc, pass, entry) {
        Ok(signed) => signed,
        Err(SealFault::NoMemory) => return Err(NoMemory),
        Err(SealFault::Exhausted { .. }) => unreachable!(),
    };
    put_sign_line(out, q, entry, &signature)
}

/// Signs all entries, each at the next leaf, and appends their lines.
fn sign_entries(
    alloc: Global,
    out: &mut Vec<u8>,
    signer: &Signer<HssKey>,
    pass: &mut LeafPass,
    entries: &[Bytes],
) -> Result<(), NoMemory>
    requires drawer { pass.old.drawer ≡ signer.now.drawer }
    requires alone { pass.old.stands ≡ signer.now.drawer.passes }
    requires open { pass.old.seen ≡ None }
    requires fresh { length pass.old.draws ≡ 0 }
    requires left { length entries.now ≤ hss_count signer.now.key }
    ensures { OnOk result (out.new.items ≡ out.old.items ++ signed_lines signer.now.key entries.now (length entries.now)) }
{
    for entry in entries {
        sign_entry(alloc, out, signer, pass, entry.get())?;
    }
    Ok(())
}

/// Appends the lines of all entries, signed with this key.
fn put_sign_lines(
    alloc: Global,
    out: &mut Vec<u8>,
    key: HssKey,
    entries: &[Bytes],
) -> Result<(), NoMemory>
    requires { length entries.now ≤ hss_count key }
    ensures { OnOk result (out.new.items ≡ out.old.items ++ signed_lines key entries.now (length entries.now)) }
{
    let (signer, mut passes) = Signer::make(alloc, key, 1)?;
    let mut pass = passes.pop().unwrap();
    sign_entries(alloc, out, &signer, &mut pass, entries)
}

/// The signed list of these entries by the notary of this number.
#[tactic(auto, unfolding(crate::specs::Signed::notary_text))]
pub fn signed_list(alloc: Global, num: u64, entries: &[Bytes]) -> Result<Vec<u8>, NoMemory>
    requires { length entries.now ≤ MAX_ENTRIES }
    ensures { IfOk result (λ text. text.items ≡ notary_text num entries.now) }
{
    let key = notary_key(alloc, num)?;
    let public = key.public(alloc)?;
    let mut text = Vec::new(alloc);
    put_bytes(&mut text, b"dissent-notary 1\n")?;
    put_key_line(&mut text, &public)?;
    put_sign_lines(alloc, &mut text, key, entries)?;
    put_bytes(&mut text, b"end\n")?;
    Ok(text)
}
