//! The program: the command that its words are, from standard input to standard output. A fault is
//! one line on standard error, and the process ends with the status's number.
#![tactic(auto)]

use dn_cmd::dissent;
use dn_crew::ThreadCrew;
use dn_io::{Hold, ReadEdge, Status, WriteEdge};
use std::process::ExitCode;
use std::{env, io};

/// The words behind the program's name. `NoMemory` where the allocator refuses them, `Usage` where one isn't text.
fn words(rt: &HostRuntime) -> Result<Vec<String>, Status> {
    let args = match env::args(rt) {
        Ok(args) => args,
        Err(error) if error.kind() == io::ErrorKind::OutOfMemory => return Err(Status::NoMemory),
        Err(_) => return Err(Status::Usage),
    };
    let mut words = Vec::new(rt.alloc());
    for word in args.skip(1) {
        if words.push(word).is_err() {
            return Err(Status::NoMemory);
        }
    }
    Ok(words)
}

/// Lets all workers go on.
#[derive(Drop)]
struct Free {}

impl Hold for Free {
    fn reached(&self, _place: u32) {}
}

fn main(rt: HostRuntime) -> ExitCode {
    let status = match (words(&rt), Box::new(rt.alloc(), Free {})) {
        (Ok(words), Ok(hold)) => {
            let mut crew = ThreadCrew::make(rt.alloc(), hold);
            let mut input = ReadEdge::make(rt.reader());
            let mut output = WriteEdge::make(io::writer(&rt));
            dissent(&rt, rt.alloc(), &words, &mut input, &mut output, &mut crew)
        }
        (Err(status), _) => status,
        (Ok(_), Err(_)) => Status::NoMemory,
    };
    if status != Status::Ok {
        let _ = eprintln!(rt; "{status}");
    }
    ExitCode::from(status.exit_number())
}
