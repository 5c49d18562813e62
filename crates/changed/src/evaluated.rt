// A change beside what the second evaluator says of it.
use crate::lent::{Left, Request, Updated};
use compare::evaluated::{Difference, same_number};
use compare::rows::first_difference;

// What is handed back of a change beside what the evaluator says: the number, the ends of all lists and the count.
fn handed_back(left: &Updated, other: &Updated) -> Result<(), Difference> {
    same_number(left.number, other.number)?;
    if let Some((at, says)) = first_difference(&left.lists.ends, &other.lists.ends) {
        return Err(Difference::End(at, says));
    }
    if other.count != left.count {
        return Err(Difference::Count(other.count));
    }
    Ok(())
}

// A change of these lists and this kept row: what is handed back, and the numbers and the kept row as they are left, all that were
// lent. The evaluator writes what it says into copies of the rows.
pub fn update(
    request: Request,
    left: Left,
    other_numbers: &mut [u32],
    other_kept: &mut [u32],
) -> Result<(), Difference> {
    let said = evaluator::update(
        request.source.numbers,
        request.source.lists,
        request.source.packed,
        request.change,
        request.kept,
        request.count,
        other_numbers,
        other_kept,
    );
    let other = match said {
        Ok(then) => Updated {
            number: 0,
            lists: then.lists,
            count: then.count,
        },
        Err(refusal) => Updated {
            number: refusal as u32,
            lists: request.source.lists,
            count: request.count,
        },
    };
    handed_back(&left.updated, &other)?;
    if let Some((at, says)) = first_difference(left.numbers, other_numbers) {
        return Err(Difference::ListNumber(at, says));
    }
    if let Some((at, says)) = first_difference(left.kept, other_kept) {
        return Err(Difference::KeptNumber(at, says));
    }
    Ok(())
}
