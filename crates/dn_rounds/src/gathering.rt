// What servers say to each other of a round, all of one kind together.
ghost use Rattle.std.specs.Prelude.{◌≡◌, ◌<◌, Some, IsSome, IfOk, All};
ghost use Rattle.dn_records.specs.Records.{IsBody};
ghost use Rattle.dn_cert.specs.Trim.{IsInventory};
ghost use Rattle.dn_record_types.specs.declared.statement.Statement.TheVariants as kinds;
ghost use Rattle.dn_server.specs.Server.{kept_of, statement_of, AreKept};
ghost use Rattle.dn_server.specs.Keeping.{AreOfRound, HasAll};

use dn_bits::Bits;
use dn_memory::NoMemory;
use dn_records::{Body, Inventory, Statement};
use dn_server::{Kept, RoundKind};
use dn_wire::{Round, ServerId};
use std::alloc::Global;

/// Server `j`'s inventory.
pub fn inventory_by(kept: &Kept, j: ServerId) -> &Inventory
    requires { IsSome (kept_of kept.now 3 j.0) }
    ensures value { statement_of kept.now 3 j.0 ≡ Some (kinds.Inventory result.now) }
    ensures fits { IsInventory result.now }
{
    let Some(said) = kept.of(RoundKind::Inventory, j) else {
        unreachable!()
    };
    let Statement::Inventory(inventory) = said.statement() else {
        unreachable!()
    };
    inventory
}

/// The digest to which server `j` is committed.
pub fn digest_by(kept: &Kept, _r: Round, j: ServerId) -> [u8; 32]
    requires round { AreOfRound _r kept.now }
    requires one { IsSome (kept_of kept.now 4 j.0) }
    ensures { statement_of kept.now 4 j.0 ≡ Some (kinds.Commit _r result) }
{
    let Some(said) = kept.of(RoundKind::Commit, j) else {
        unreachable!()
    };
    let Statement::Commit { digest, .. } = said.statement() else {
        unreachable!()
    };
    *digest
}

/// Server `j`'s ciphertext.
pub fn string_by(kept: &Kept, _r: Round, j: ServerId) -> &Bits
    requires round { AreOfRound _r kept.now }
    requires one { IsSome (kept_of kept.now 5 j.0) }
    ensures { statement_of kept.now 5 j.0 ≡ Some (kinds.Reveal _r result.now) }
{
    let Some(said) = kept.of(RoundKind::Reveal, j) else {
        unreachable!()
    };
    let Statement::Reveal { s, .. } = said.statement() else {
        unreachable!()
    };
    s
}

/// The body that server `j` signed.
pub fn body_by(kept: &Kept, j: ServerId) -> &Body
    requires { IsSome (kept_of kept.now 6 j.0) }
    ensures value { statement_of kept.now 6 j.0 ≡ Some (kinds.Sign result.now) }
    ensures fits { IsBody result.now }
{
    let Some(said) = kept.of(RoundKind::Sign, j) else {
        unreachable!()
    };
    let Statement::Sign(body) = said.statement() else {
        unreachable!()
    };
    body
}

/// The digests to which `n` servers are committed.
pub(crate) fn digests(
    alloc: Global,
    kept: &Kept,
    r: Round,
    n: u32,
) -> Result<Vec<[u8; 32]>, NoMemory>
    requires round { AreOfRound r kept.now }
    requires all { HasAll 4 kept.now n }
    ensures { IfOk result (λ v. AreKept (kinds.Commit r) 4 kept.now n v.items) }
{
    let mut all = Vec::new(alloc);
    for j in 0..n {
        all.push(digest_by(kept, r, ServerId(j)))?;
    }
    Ok(all)
}

/// The ciphertexts of `n` servers.
pub(crate) fn strings(alloc: Global, kept: &Kept, r: Round, n: u32) -> Result<Vec<Bits>, NoMemory>
    requires round { AreOfRound r kept.now }
    requires all { HasAll 5 kept.now n }
    ensures { IfOk result (λ v. AreKept (kinds.Reveal r) 5 kept.now n v.items) }
{
    let mut all = Vec::new(alloc);
    for j in 0..n {
        let s = string_by(kept, r, ServerId(j)).copy(alloc)?;
        all.push(s)?;
    }
    Ok(all)
}
