ghost use Rattle.std.specs.Prelude.{◌≡◌};

use crate::script_line::ScriptLine;
use dn_io::Cause;
use dn_memory::NoMemory;
use std::alloc::AllocFailed;
use std::marker::Model;

/// A script: its lines that count, in order, each with its number. Lines are counted from 1, blank ones and comments too.
#[derive(Drop)]
pub struct Script {
    lines: Vec<(u64, ScriptLine)>,
}

impl Model for Script {
    ghost use Rattle.dn_script.specs.Script.{Lines};

    ghost Value = { Lines };

    ghost view = { λ s. s.lines.items };
}

impl Script {
    /// The script of these lines.
    pub fn of(lines: Vec<(u64, ScriptLine)>) -> Script
        ensures { result ≡ lines.items }
    {
        Script { lines }
    }

    /// The lines with their numbers.
    pub fn lines(&self) -> &[(u64, ScriptLine)]
        ensures { result.now ≡ self.now }
    {
        &self.lines
    }
}

/// Why a text is no script.
#[derive(Clone, Copy, Debug, PartialEq, Eq)]
pub enum ScriptFault {
    /// The first bad line, counted from 1, and the first of the causes that hold there.
    BadLine { number: u64, cause: Cause },
    /// The allocator refused a growth.
    NoMemory,
}

impl From<NoMemory> for ScriptFault {
    ghost use Rattle.std.specs.Prelude.{◌≡◌};
    ghost use Rattle.dn_script.specs.declared.script.ScriptFault.TheVariants.{NoMemory as Refused};

    ghost from_gives = { λ _ e. e ≡ Refused };

    fn from(_: NoMemory) -> Self {
        ScriptFault::NoMemory
    }
}

impl<T: Drop> From<AllocFailed<T>> for ScriptFault {
    ghost use Rattle.std.specs.Prelude.{◌≡◌};
    ghost use Rattle.dn_script.specs.declared.script.ScriptFault.TheVariants.{NoMemory as Refused};

    ghost from_gives = { λ _ e. e ≡ Refused };

    fn from(_: AllocFailed<T>) -> Self {
        ScriptFault::NoMemory
    }
}
