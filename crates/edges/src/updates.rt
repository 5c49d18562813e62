// A change of a list as one case: what is handed in, and the rows as they are left.
use crate::fault::Fault;
use crate::outcome::Outcome;
use crate::text::{Bytes, Lent, Lying, Numbers, Refused, RowsHold};
use changed::lent::{Left, Request};
use changed::{evaluated, lent};
use evaluator::Change;
use std::alloc::Global;
use std::fmt;

pub fn update<R: Print>(
    rt: &R,
    alloc: Global,
    name: &[u8],
    request: Request,
) -> Result<Outcome, Fault> {
    let mut numbers = request.source.numbers.to_vec(alloc)?;
    let mut kept = request.kept.to_vec(alloc)?;
    let updated = lent::update(request, &mut numbers, &mut kept);
    let left = Left {
        updated,
        numbers: &numbers,
        kept: &kept,
    };
    let outcome = evaluate(alloc, request, left)?;
    let came_back = CameBack { request, left };
    rt.write_all(name)?;
    println!(rt; ", update{}:{came_back}{outcome}", Asked(request))?;
    Ok(outcome)
}

// What the evaluator says, which has rows of its own.
fn evaluate(alloc: Global, request: Request, left: Left) -> Result<Outcome, Fault> {
    let mut numbers = request.source.numbers.to_vec(alloc)?;
    let mut kept = request.kept.to_vec(alloc)?;
    let said = evaluated::update(request, left, &mut numbers, &mut kept);
    Ok(Outcome::from(said))
}

// What is handed in.
#[derive(Clone, Copy)]
struct Asked<'a>(Request<'a>);

impl fmt::Display for Asked<'_> {
    fn fmt<W: fmt::Write>(&self, f: &mut fmt::Formatter<W>) -> fmt::Result {
        let source = self.0.source;
        let lent = Lent(source.numbers, &source.lists);
        let changes = Changes(self.0.change);
        let kept = Kept(self.0.kept, self.0.count);
        write!(f, "{lent}, packed{}{changes}{kept}", Bytes(source.packed))
    }
}

#[derive(Clone, Copy)]
pub struct Changes(pub Change);

impl fmt::Display for Changes {
    fn fmt<W: fmt::Write>(&self, f: &mut fmt::Formatter<W>) -> fmt::Result {
        let c = self.0;
        write!(f, ", list {}, number {}, add {}", c.list, c.number, c.add)
    }
}

// The kept row and the count.
#[derive(Clone, Copy)]
struct Kept<'a>(&'a [u32], usize);

impl fmt::Display for Kept<'_> {
    fn fmt<W: fmt::Write>(&self, f: &mut fmt::Formatter<W>) -> fmt::Result {
        write!(f, ", kept{}, count {}", Numbers(self.0), self.1)
    }
}

// The rows as they are left, or the refusal, with which they are left alone.
#[derive(Clone, Copy)]
struct CameBack<'a, 'b> {
    request: Request<'a>,
    left: Left<'b>,
}

impl CameBack<'_, '_> {
    fn is_left_alone(&self) -> bool {
        let source = self.request.source;
        let left = self.left;
        source.numbers == left.numbers
            && self.request.kept == left.kept
            && source.lists.ends == left.updated.lists.ends
            && self.request.count == left.updated.count
    }
}

impl fmt::Display for CameBack<'_, '_> {
    fn fmt<W: fmt::Write>(&self, f: &mut fmt::Formatter<W>) -> fmt::Result {
        let left = self.left;
        let updated = left.updated;
        if updated.number == 0 {
            let lying = Lying(left.numbers, &updated.lists);
            return write!(f, "{lying}{}", Kept(left.kept, updated.count));
        }
        let refused = Refused {
            number: updated.number,
            others_are_zero: true,
        };
        write!(f, " {refused}{}", RowsHold(self.is_left_alone()))
    }
}
