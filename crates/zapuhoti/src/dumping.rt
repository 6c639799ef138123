// `zapuhoti dump`: the elements of a file, a line each.
use dump::{Line, Values, push_line};
use fault::{Breach, ElementFault, Fault};
use running::files::{Failure, flush, read_file};
use walk::{Walk, WalkError};

// Says how a walk ended before the end of its file.
fn tell_stop(rt: &HostRuntime, error: WalkError) -> Failure {
    match error {
        WalkError::Memory => Failure::Memory,
        WalkError::Fault(fault) => {
            let report = fault.report();
            let number = report.rule.number();
            let place = report.place;
            let breach = fault.breach;
            match eprintln!(rt; "fault {number} at {place}: {breach}") {
                Ok(()) => Failure::Told,
                Err(_) => Failure::Output,
            }
        },
    }
}

// What a dump prints: a line for each element, or only how many there are.
#[derive(Clone, Copy, PartialEq, Eq)]
pub enum Detail {
    Lines(Values),
    Count,
}

// Prints the lines of the elements of a file, up to its end or to the first octets that are no element.
fn walk_file(
    rt: &HostRuntime,
    file: &[u8],
    detail: Detail,
    text: &mut String,
) -> Result<usize, Failure> {
    let mut walk = Walk::new(rt.alloc(), file);
    for count in 0..file.len() {
        let node = match walk.step() {
            Ok(Some(node)) => node,
            Ok(None) => return Ok(count),
            Err(error) => {
                flush(rt, text, true)?;
                return Err(tell_stop(rt, error));
            },
        };
        if let Detail::Lines(values) = detail {
            push_line(text, Line::from(&node), values)?;
            flush(rt, text, false)?;
        }
    }
    Ok(file.len())
}

pub fn run_dump(rt: &HostRuntime, path: &str, detail: Detail) -> Result<(), Failure> {
    let file = read_file(rt, path)?;
    if file.is_empty() {
        let fault = ElementFault {
            breach: Breach::NoTag,
            place: 0,
        };
        return Err(tell_stop(rt, WalkError::Fault(fault)));
    }
    let mut text = String::new(rt.alloc());
    let count = walk_file(rt, file.as_slice(), detail, &mut text)?;
    flush(rt, &mut text, true)?;
    if let Detail::Count = detail {
        println!(rt; "{count} elements")?;
    }
    Ok(())
}
