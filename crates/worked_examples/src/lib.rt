// Octets, ranges, payloads and routes worked out by hand, as one theorem on the definitions.
//
// `worked_examples_stand` says what some octets of address lists read as, that 10.0.0.0/9 followed by 10.128.0.0/9 is out of
// order, and the verdicts on three routes under one payload. The crate has no code beside it, and rests on the definitions
// of `element`, `entries`, `lists` and `verdict`: a change of one that gave another answer would not be proved.
#![tactic(auto)]

ghost use Rattle.std.specs.Prelude.{◌≡◌, true};
ghost use Rattle.worked_examples.specs.Examples.{Worked};

// Each example reads, and is judged, as it was worked out by hand.
pub fn worked_examples_stand() -> bool
    ensures shown { result ≡ true }
    ensures worked { Worked }
{
    true
}
