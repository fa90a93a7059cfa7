// Want of memory as an error of this program.

ghost use Rattle.std.specs.Prelude.{◌≡◌, IfOk, Ok};

use anyhow::{Result, bail};
use dn_memory::NoMemory;

/// The value, where memory served for it.
pub fn given<T>(outcome: std::result::Result<T, NoMemory>) -> Result<T>
    ensures { IfOk result (λ value. outcome ≡ Ok value) }
{
    match outcome {
        Ok(value) => Ok(value),
        Err(NoMemory) => bail!("no memory"),
    }
}
