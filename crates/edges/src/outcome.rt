// What a line came to, and what the second evaluator says at its end.
use compare::evaluated::Difference;
use std::fmt;

// A case that was run; one that was put to the evaluator too, which agrees or differs.
#[derive(Clone, Copy, Debug)]
pub enum Outcome {
    Run,
    Agrees,
    Differs(Difference),
}

impl From<Result<(), Difference>> for Outcome {
    fn from(said: Result<(), Difference>) -> Outcome {
        match said {
            Ok(()) => Outcome::Agrees,
            Err(d) => Outcome::Differs(d),
        }
    }
}

// The end of a line: nothing more where the evaluator agrees or is not asked, else what it says.
impl fmt::Display for Outcome {
    fn fmt<W: fmt::Write>(&self, f: &mut fmt::Formatter<W>) -> fmt::Result {
        match self {
            Outcome::Run | Outcome::Agrees => Ok(()),
            Outcome::Differs(d) => write!(f, ", the evaluator differs: {d}"),
        }
    }
}
