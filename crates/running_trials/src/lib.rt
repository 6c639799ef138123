// Trials of a log whose calls a closure answers: which calls are made, and how the run ends.
#![tactic(auto)]

#[cfg(test)]
mod tests {
    use log_lines::Call;
    use running::calls::{answer, run_calls};
    use running::files::Failure;
    use running::lines::Stop;
    use std::cell::Cell;

    #[test]
    fn a_closure_answers_each_call_up_to_the_first_line_that_is_none(rt: HostRuntime) {
        for (log, calls, well) in [
            ("", 0usize, true),
            ("# a comment\n\n", 0, true),
            ("element hex:0500\n", 1, true),
            ("# a comment\nelement hex:0500\n", 1, true),
            ("element hex:0500\n\ndigest scheme hex:", 2, true),
            ("element hex:0500\nelement\nelement hex:0500\n", 1, false),
            ("elements hex:0500\n", 0, false),
            (
                "element hex:0500\nelement @no-such-file\nelement hex:0500\n",
                2,
                false,
            ),
        ] {
            let made = Cell::new(0usize);
            let run = run_calls(&rt, log.as_bytes(), |call: Call<'_>| {
                made.set(made.get().wrapping_add(1));
                answer(&rt, call)
            });
            assert_eq!(rt; made.get(), calls, "the calls of {log:?}");
            assert_eq!(rt; matches!(run, Ok(())), well, "the end of {log:?}");
        }
    }

    #[test]
    fn a_closure_that_stops_ends_the_run(rt: HostRuntime) {
        let run = run_calls(&rt, b"element hex:0500\n", |_: Call<'_>| Err(Stop::Memory));
        assert!(rt; matches!(run, Err(Failure::Memory)), "no memory");
        let run = run_calls(
            &rt,
            b"element hex:0500\n",
            |_: Call<'_>| Err(Stop::NoDigest),
        );
        assert!(rt; matches!(run, Err(Failure::Told)), "a message");
    }
}
