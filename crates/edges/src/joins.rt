// Two deliveries joined as one case: the bytes that are handed in, and the outcome.
use crate::fault::Fault;
use crate::outcome::Outcome;
use crate::text::{Bytes, Counted, MARK, Refused, RowsHold};
use compare::rows::{front, hold};
use joined::evaluated;
use model::WriteResult;
use std::alloc::{AllocError, Global};
use std::fmt;

// The first bytes of a delivery, and how many zero bytes it has behind them.
#[derive(Clone, Copy)]
pub struct Delivery<'a> {
    pub bytes: &'a [u8],
    pub zeros: usize,
}

impl Delivery<'_> {
    fn whole(self, alloc: Global) -> Result<Vec<u8>, AllocError> {
        let mut row = self.bytes.to_vec(alloc)?;
        row.resize(self.bytes.len().wrapping_add(self.zeros), 0)?;
        Ok(row)
    }
}

impl fmt::Display for Delivery<'_> {
    fn fmt<W: fmt::Write>(&self, f: &mut fmt::Formatter<W>) -> fmt::Result {
        write!(f, "{}", Bytes(self.bytes))?;
        if self.zeros != 0 {
            write!(f, " and {}", Counted(self.zeros, "zero"))?;
        }
        Ok(())
    }
}

// Two deliveries, into so many bytes, at most 16,384.
pub fn join<R: Print>(
    rt: &R,
    alloc: Global,
    name: &[u8],
    full: Delivery,
    daily: Delivery,
    room: usize,
) -> Result<Outcome, Fault> {
    let one = full.whole(alloc)?;
    let other = daily.whole(alloc)?;
    let mut row = [MARK; 16384];
    let n = room % 16385;
    let result = join::join_deliveries(&one, &other, &mut row[..n]);
    let outcome = evaluate(alloc, &one, &other, n, result, &row)?;
    let joined = Joined { result, row: &row };
    rt.write_all(name)?;
    println!(rt; ", join{full} with{daily}, into {room}: {joined}{outcome}")?;
    Ok(outcome)
}

fn evaluate(
    alloc: Global,
    full: &[u8],
    daily: &[u8],
    room: usize,
    got: WriteResult,
    row: &[u8],
) -> Result<Outcome, Fault> {
    let mut others = [MARK; 16384];
    let mut a = vec![in alloc; 0u32; 65536]?;
    let mut b = vec![in alloc; 0u32; 65536]?;
    let n = room % 16385;
    let other = unions::join(full, daily, &mut others[..n], &mut a, &mut b);
    Ok(Outcome::from(evaluated::same(got, row, other, &others)))
}

// Of a long outcome the first twelve bytes; the evaluator is asked for every one.
#[derive(Clone, Copy)]
struct Joined<'a> {
    result: WriteResult,
    row: &'a [u8],
}

impl fmt::Display for Joined<'_> {
    fn fmt<W: fmt::Write>(&self, f: &mut fmt::Formatter<W>) -> fmt::Result {
        let w = self.result;
        if w.number != 0 {
            let refused = Refused {
                number: w.number,
                others_are_zero: w.count == 0,
            };
            return write!(f, "{refused}{}", RowsHold(hold(self.row, 0, &MARK)));
        }
        let (shown, more) = if w.count < 80 {
            (w.count, "")
        } else {
            (12, " ..")
        };
        let bytes = Bytes(front(self.row, shown));
        write!(f, "{}{bytes}{more}", Counted(w.count, "byte"))?;
        write!(f, "{}", RowsHold(hold(self.row, w.count, &MARK)))
    }
}
