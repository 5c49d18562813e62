// A join beside what the second evaluator says of it.
use compare::evaluated::{Difference, same_number};
use compare::rows::first_difference;
use model::WriteResult;
use unions::Refusal;

// What two joins hand back, the engine's and the evaluator's, and their rows: the number, the count, every byte.
pub fn same(
    got: WriteResult,
    row: &[u8],
    other: Result<usize, Refusal>,
    others: &[u8],
) -> Result<(), Difference> {
    let (number, count) = match other {
        Ok(count) => (0, count),
        Err(refusal) => (refusal as u32, 0),
    };
    same_number(got.number, number)?;
    if count != got.count {
        return Err(Difference::Count(count));
    }
    match first_difference(row, others) {
        Some((at, says)) => Err(Difference::Byte(at, says)),
        None => Ok(()),
    }
}
