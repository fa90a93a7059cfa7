// Statements that a script has a corrupt member sign.
ghost use Rattle.std.specs.Prelude.{◌≡◌, IfOk, IfSome};
ghost use Rattle.dn_records.specs.Records.{statement_bytes};
ghost use Rattle.dn_puppets.specs.Statements.{IsSignable};

use dn_memory::NoMemory;
use dn_records::{RecordFault, Statement, decode};
use dn_wire::MAX_STATEMENT_BYTES;
use std::alloc::Global;

/// The statement that bytes are; nothing where they are none, or too many for an envelope.
pub fn spoken(alloc: Global, bytes: &[u8]) -> Result<Option<Statement>, NoMemory>
    ensures spelled { IfOk result (λ s. IfSome s (λ x. statement_bytes x ≡ bytes.now)) }
    ensures signable { IfOk result (λ s. IfSome s IsSignable) }
{
    if bytes.len() > MAX_STATEMENT_BYTES as usize {
        return Ok(None);
    }
    match decode(alloc, bytes) {
        Ok(statement) => Ok(Some(statement)),
        Err(RecordFault::NoMemory) => Err(NoMemory),
        Err(_) => Ok(None),
    }
}
