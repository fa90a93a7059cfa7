ghost use Rattle.dn_io.specs.Task.{EndsUnread};
ghost use Rattle.dn_gen.specs.Generated.{generated};

use dn_gen::script;
use dn_io::{Sink, Status, write_whole};
use std::alloc::Global;

/// Writes the large script of this number.
pub fn gen_script<K: Sink>(alloc: Global, num: u64, output: &mut K) -> Status
    ensures { EndsUnread (generated num) (K.held output.old) (K.held output.new) (K.faults output.old) (K.faults output.new) result }
{
    let Ok(due) = script(alloc, num) else {
        return Status::NoMemory;
    };
    match write_whole(output, &due) {
        Ok(()) => Status::Ok,
        Err(end) => Status::from(end),
    }
}
