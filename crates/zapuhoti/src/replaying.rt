// `zapuhoti replay`: the calls of a log, and the answer of each.
use log_lines::Call;
use running::calls::{Answers, answer, answer_calls};
use running::files::{Failure, read_log};
use running::lines::Stop;

// Answers the calls on elements and oracles.
#[derive(Clone, Copy)]
struct Replay<'r> {
    rt: &'r HostRuntime,
}

impl<'a> Answers<Call<'a>> for Replay<'_> {
    fn answer(&self, call: Call<'a>) -> Result<String, Stop> {
        answer(self.rt, call)
    }
}

// Runs the lines of a log in order, up to the first that is no call.
pub fn run_replay(rt: &HostRuntime, path: &str) -> Result<(), Failure> {
    let log = read_log(rt, path)?;
    answer_calls(rt, log.as_slice(), &Replay { rt })
}
