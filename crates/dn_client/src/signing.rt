// Statements of others that a client's keys sign.
ghost use Rattle.std.specs.Prelude.{◌≡◌, ◌≢◌, true, false, IfOk, IfErr, IsErrOf, Err};
ghost use Rattle.dn_seal.specs.Signer.{CanSign};
ghost use Rattle.dn_seal.specs.declared.signer.SealFault.TheVariants as faults;
ghost use Rattle.dn_client.specs.Client.{IsClient, IsSpent};
ghost use Rattle.dn_client.specs.Signing.{signer_of, IsSignedFor, IsNotSigned, IsSealedNext, IsUnsealed};

use crate::client::Client;
use dn_records::Statement;
use dn_seal::{SealFault, SigningKey};
use std::alloc::Global;

/// The envelope of a copy of a statement, which is the next that the key signs.
fn seal_copy(key: &mut SigningKey, alloc: Global, s: &Statement) -> Result<Vec<u8>, SealFault>
    requires whole { key.old.lost ≡ false }
    requires fits { CanSign key.old.who s.now }
    ensures sealed { IfOk result (λ v. IsSealedNext key.old s.now v.items key.new) }
    ensures unsealed { IfErr result (λ f. IsUnsealed key.old f key.new) }
{
    if key.left() == 0 {
        let seen = u64::from(key.leaves());
        return Err(SealFault::Exhausted { seen });
    }
    let copy = s.copy(alloc)?;
    Ok(key.seal(alloc, copy)?)
}

impl Client {
    /// The envelope of any statement, signed by the key of the client's slot where `as_slot` is true, and else by the client's key. From then on
    /// the client is bent: of what its keys signed nothing is promised.
    pub fn sign(&mut self, as_slot: bool, s: &Statement) -> Result<Vec<u8>, SealFault>
        requires { CanSign (signer_of self.old.who as_slot) s.now }
        ensures signed { IfOk result (λ v. IsSignedFor self.old as_slot s.now v.items self.new) }
        ensures refused { IfErr result (IsNotSigned self.old as_slot) }
        ensures same { IfErr result (λ f. f ≢ faults.NoMemory → self.new ≡ record self.old { bent = true }) }
        ensures no_memory { IsErrOf result faults.NoMemory → IsSpent self.old self.new }
        ensures spent { self.old.spent ≡ true → (result ≡ Err faults.NoMemory) × (self.new ≡ self.old) }
        ensures client { IsClient self.new }
    {
        if self.spent {
            return Err(SealFault::NoMemory);
        }
        if as_slot {
            self.sign_as_slot(s)
        } else {
            self.sign_as_client(s)
        }
    }

    /// The envelope of a statement, signed by the key of the client's slot.
    fn sign_as_slot(&mut self, s: &Statement) -> Result<Vec<u8>, SealFault>
        requires unspent { self.old.spent ≡ false }
        requires fits { CanSign (signer_of self.old.who true) s.now }
        ensures signed { IfOk result (λ v. IsSignedFor self.old true s.now v.items self.new) }
        ensures refused { IfErr result (IsNotSigned self.old true) }
        ensures same { IfErr result (λ f. f ≢ faults.NoMemory → self.new ≡ record self.old { bent = true }) }
        ensures no_memory { IsErrOf result faults.NoMemory → IsSpent self.old self.new }
        ensures client { IsClient self.new }
    {
        self.bent = true;
        match seal_copy(&mut self.slot_key, self.alloc, s) {
            Ok(sealed) => Ok(sealed),
            Err(SealFault::Exhausted { seen }) => Err(SealFault::Exhausted { seen }),
            Err(SealFault::NoMemory) => {
                self.spent = true;
                Err(SealFault::NoMemory)
            }
        }
    }

    /// The envelope of a statement, signed by the client's key.
    fn sign_as_client(&mut self, s: &Statement) -> Result<Vec<u8>, SealFault>
        requires unspent { self.old.spent ≡ false }
        requires fits { CanSign (signer_of self.old.who false) s.now }
        ensures signed { IfOk result (λ v. IsSignedFor self.old false s.now v.items self.new) }
        ensures refused { IfErr result (IsNotSigned self.old false) }
        ensures same { IfErr result (λ f. f ≢ faults.NoMemory → self.new ≡ record self.old { bent = true }) }
        ensures no_memory { IsErrOf result faults.NoMemory → IsSpent self.old self.new }
        ensures client { IsClient self.new }
    {
        self.bent = true;
        match seal_copy(&mut self.key, self.alloc, s) {
            Ok(sealed) => Ok(sealed),
            Err(SealFault::Exhausted { seen }) => Err(SealFault::Exhausted { seen }),
            Err(SealFault::NoMemory) => {
                self.spent = true;
                Err(SealFault::NoMemory)
            }
        }
    }
}
