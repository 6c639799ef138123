// The program: a thin layer over the libraries, which reads files and prints what they answer.
#![tactic(auto)]

mod dumping;
mod filling;
mod judging;
mod replaying;

use dump::Values;
use dumping::{Detail, run_dump};
use filling::run_book;
use judging::run_judge;
use replaying::run_replay;
use running::files::Failure;
use std::env;
use std::process::ExitCode;

const USAGE: &str = "zapuhoti: an offline validator of RPKI objects

usage: zapuhoti COMMAND ..

  dump [--all | --quiet] FILE
                  print the tree of elements of a DER file, a line each: offset, nesting,
                  the tag's name, the length and the value. Values are cut after 128 octets,
                  with --all none is; --quiet only counts the elements
  replay LOG      run the calls of a log, a line each, and print each answer;
                  - is standard input
  book LIST OUT   write a verdict book: a record for each line of LIST (- is standard input),
                  digest OCTETS DIGEST or verdict KEY MESSAGE SIGNATURE, each hex: and digits
                  or @ and a path
  judge LIST PREFIX/LENGTH ORIGIN
                  print the verdict on a route by the printed payloads of LIST (- is standard
                  input): valid, invalid or not-found, and then each payload that covers it,
                  with the reason where it does not match. ORIGIN is an AS number or none
  --help          print this text
";

// Says what is wrong with the words of the command, and how to use the program.
fn misused(rt: &HostRuntime, what: &str) -> Result<(), Failure> {
    eprintln!(rt; "zapuhoti: {what}\n\n{USAGE}")?;
    Err(Failure::Told)
}

// Runs the command that the words say.
fn run_words(rt: &HostRuntime, words: &[&str]) -> Result<(), Failure> {
    match words {
        [] => misused(rt, "a command is missing"),
        ["--help" | "-h"] => Ok(print!(rt; "{USAGE}")?),
        ["dump", path] => run_dump(rt, path, Detail::Lines(Values::Cut)),
        ["dump", "--all", path] => run_dump(rt, path, Detail::Lines(Values::Whole)),
        ["dump", "--quiet", path] => run_dump(rt, path, Detail::Count),
        ["replay", log] => run_replay(rt, log),
        ["book", list, out] => run_book(rt, list, out),
        ["judge", list, route, origin] => run_judge(rt, list, route, origin),
        _ => misused(rt, "these words are no command"),
    }
}

fn run(rt: &HostRuntime) -> Result<(), Failure> {
    let args: Vec<String> = env::args(rt)?.skip(1).collect(rt.alloc())?;
    let words: Vec<&str> = args.iter().map(|word| word.as_str()).collect(rt.alloc())?;
    run_words(rt, words.as_slice())
}

fn main(rt: HostRuntime) -> ExitCode {
    let Err(failure) = run(&rt) else {
        return ExitCode::SUCCESS;
    };
    match failure {
        Failure::Told => {},
        Failure::Memory => {
            let _ = eprintln!(rt; "zapuhoti: out of memory");
        },
        Failure::Output => {
            let _ = eprintln!(rt; "zapuhoti: cannot write");
        },
    }
    ExitCode::FAILURE
}
