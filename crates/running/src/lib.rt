// What the programs have in common: files, standard input and output, the lines of a log or of a list of records, and the calls on elements and oracles.
//
// `files` reads and prints, and says why a run ends before its end. `lines` finds the octets that a word of a line says, and tells at which line a run
// stopped, and why. `calls` runs the calls of a log in order and prints the answer of each, which a program gives by the trait `Answers`
// (`answer_calls`), or a closure that may be called at any call (`run_calls`, which asks that of it). Else nothing here has a contract but that it is
// safe and ends: what a file holds and what becomes of the printed text is outside what can be said. It rests on `log_lines` for the lines and on
// `replay` for the answers.
#![tactic(auto)]

pub mod calls;
pub mod files;
pub mod lines;
