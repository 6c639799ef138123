// The program: the calls of a log whose lines may also join, write and read lists of resources.
#![tactic(auto)]

mod replaying;

use replaying::run_replay;
use running::files::Failure;
use std::env;
use std::process::ExitCode;

// Says how to use the program.
fn misused(rt: &HostRuntime) -> Result<(), Failure> {
    eprintln!(rt;
        "usage: list_replay LOG\n\nruns the calls of a log, a line each, and prints each answer; - is standard input"
    )?;
    Err(Failure::Told)
}

fn run(rt: &HostRuntime) -> Result<(), Failure> {
    let words: Vec<String> = env::args(rt)?.skip(1).collect(rt.alloc())?;
    match words.as_slice() {
        [path] => run_replay(rt, path.as_str()),
        _ => misused(rt),
    }
}

fn main(rt: HostRuntime) -> ExitCode {
    let Err(failure) = run(&rt) else {
        return ExitCode::SUCCESS;
    };
    match failure {
        Failure::Told => {},
        Failure::Memory => {
            let _ = eprintln!(rt; "list_replay: out of memory");
        },
        Failure::Output => {
            let _ = eprintln!(rt; "list_replay: cannot write");
        },
    }
    ExitCode::FAILURE
}
