// What public calls answer: a value, or the refusal by which a call is turned away; and, in specs/, document 01's number and
// the value of each answer.
#![tactic(auto)]

ghost use Rattle.std.specs.Prelude.{◌≡◌};
ghost use Rattle.answers.specs.Answers.{outcome_number};

pub mod refusal;

pub use refusal::Refusal;

// Document 01's number of what a call answers that gives nothing back: 0 where it is accepted.
pub fn outcome_number(outcome: Result<(), Refusal>) -> u32
    ensures { result ≡ outcome_number outcome }
{
    match outcome {
        Ok(()) => 0,
        Err(refusal) => u32::from(refusal),
    }
}
