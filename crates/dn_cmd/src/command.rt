ghost use Rattle.std.specs.Prelude.{◌≡◌, ◌↔◌, ◌⊎◌, ℕ, map, string_bytes, Some, None, IfSome};
ghost use Rattle.dn_io.specs.Faults.{Rose};
ghost use Rattle.dn_cmd.specs.Command.{command_of};
ghost use Rattle.dn_cmd.specs.Answers.{outside, Answers, IsAnswer};

use crate::checking::check_script;
use crate::generating::gen_script;
use crate::running::run;
use crate::showing::demo;
use dn_crew::Crew;
use dn_io::{Sink, Source, Status};
use dn_lines::number;
use dn_notary::{notarized, notary};
use dn_verify::verify_report;
use std::alloc::Global;
use std::sync::Wait;
use std::thread::Threads;

/// What the program is asked to do.
#[derive(Clone, Copy, Debug, PartialEq, Eq)]
pub enum Command {
    /// Run a script, and write what it does.
    Run,
    /// Judge a report, and write what it tells, where it is accepted.
    Verify,
    /// Read a script, and write how many lines of it count.
    Check,
    /// Write the large script of this number.
    Gen(u64),
    /// Run the large script of this number, and write how many rounds were certified in it, how many messages came, and the digest of its report.
    Demo(u64),
    /// Sign a list of entries with the key of the notary of this number.
    Notary(u64),
    /// Judge a signed list of entries, and write how many it has, where it is accepted.
    Notarized,
}

/// The command that the words are, if they are one.
fn read_command(words: &[String]) -> Option<Command>
    ensures { result ≡ command_of (map string_bytes words.now) }
{
    match words {
        [word] => {
            if word.as_str() == "run" {
                Some(Command::Run)
            } else if word.as_str() == "verify" {
                Some(Command::Verify)
            } else if word.as_str() == "check" {
                Some(Command::Check)
            } else if word.as_str() == "notarized" {
                Some(Command::Notarized)
            } else {
                None
            }
        }
        [word, text] => {
            if word.as_str() == "gen" {
                Some(Command::Gen(number(0, u64::MAX, text.as_bytes())?))
            } else if word.as_str() == "demo" {
                Some(Command::Demo(number(0, u64::MAX, text.as_bytes())?))
            } else if word.as_str() == "notary" {
                Some(Command::Notary(number(0, u64::MAX, text.as_bytes())?))
            } else {
                None
            }
        }
        _ => None,
    }
}

/// Runs the command that the words are, from the input to the output. It takes the runtime for the work that a run of a group shares
/// among threads, and the crew for the threads' work of its races and live runs.
pub fn dissent<R: Threads + Wait + Sync, S: Source, K: Sink, C: Crew>(
    rt: &R,
    alloc: Global,
    words: &[String],
    input: &mut S,
    output: &mut K,
    crew: &mut C,
) -> Status
    // The words are no command. Then the input and the output stay as they are.
    ensures usage { (result ≡ Status.Usage) ↔ (command_of (map string_bytes words.now) ≡ None) }
    ensures idle { result ≡ Status.Usage → (input.new ≡ input.old) × (output.new ≡ output.old) }

    // How the command ended, what it had read then, and what it had written.
    ensures ends { IfSome (command_of (map string_bytes words.now)) (λ command. Answers command
        (outside (S.left input.old) (K.held output.old) (S.faults input.old) (K.faults output.old))
        (outside (S.left input.new) (K.held output.new) (S.faults input.new) (K.faults output.new)) result) }

    // `gen` and `demo` read nothing.
    ensures unread { (num : ℕ) → (command_of (map string_bytes words.now) ≡ Some (Command.Gen num)) ⊎ (command_of (map string_bytes words.now) ≡ Some (Command.Demo num))
        → input.new ≡ input.old }

    // With no fault of the outside a command ends as its input asks, unless memory is refused.
    ensures complete { (Rose (S.faults input.old) (S.faults input.new) → ⊥)
        → (Rose (K.faults output.old) (K.faults output.new) → ⊥)
        → IfSome (command_of (map string_bytes words.now)) (λ command.
        IfSome (S.left input.old) (λ text. IsAnswer command text result ⊎ (result ≡ Status.NoMemory))) }
{
    match read_command(words) {
        Some(Command::Run) => run(rt, alloc, input, output, crew),
        Some(Command::Verify) => verify_report(alloc, input, output),
        Some(Command::Check) => check_script(alloc, input, output),
        Some(Command::Gen(num)) => gen_script(alloc, num, output),
        Some(Command::Demo(num)) => demo(rt, alloc, crew, num, output),
        Some(Command::Notary(num)) => notary(alloc, num, input, output),
        Some(Command::Notarized) => notarized(alloc, input, output),
        None => Status::Usage,
    }
}
