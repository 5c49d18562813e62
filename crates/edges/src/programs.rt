// The work of the program `members`: the input, and the members or the refusal.
use crate::fault::Fault;
use crate::outcome::Outcome;
use crate::text::{Bytes, Counted, MARK_32, Numbers, Refused, RowsHold};
use compare::evaluated;
use compare::rows::{front, hold};
use model::MembersResult;
use std::alloc::Global;
use std::fmt;

// An input of some bytes with zero bytes behind it, and a row of at most 4,096 places for its members.
pub fn list<R: Print>(
    rt: &R,
    alloc: Global,
    name: &[u8],
    bytes: &[u8],
    zeros: usize,
    room: usize,
) -> Result<Outcome, Fault> {
    let mut input = bytes.to_vec(alloc)?;
    input.resize(bytes.len().wrapping_add(zeros), 0)?;
    let mut row = [MARK_32; 4096];
    let n = room % 4097;
    let result = listing::list_members(&input, &mut row[..n]);
    let members = front(&row, result.count);
    let said = evaluated::input(&input, n, result.number, members);
    let outcome = said.map_or(Outcome::Run, Outcome::from);
    let listed = Listed { result, row: &row };
    rt.write_all(name)?;
    println!(rt;
        ", members{}, into {room}: {listed}{outcome}",
        Input(&input)
    )?;
    Ok(outcome)
}

// Of a long input only its size.
#[derive(Clone, Copy)]
struct Input<'a>(&'a [u8]);

impl fmt::Display for Input<'_> {
    fn fmt<W: fmt::Write>(&self, f: &mut fmt::Formatter<W>) -> fmt::Result {
        if 80 < self.0.len() {
            write!(f, " of {}", Counted(self.0.len(), "byte"))
        } else {
            write!(f, "{}", Bytes(self.0))
        }
    }
}

#[derive(Clone, Copy)]
struct Listed<'a> {
    result: MembersResult,
    row: &'a [u32],
}

impl fmt::Display for Listed<'_> {
    fn fmt<W: fmt::Write>(&self, f: &mut fmt::Formatter<W>) -> fmt::Result {
        let r = self.result;
        if r.number == 0 {
            let members = Numbers(front(self.row, r.count));
            write!(
                f,
                "{}{members}, moves {}",
                Counted(r.count, "member"),
                r.moves
            )?;
        } else {
            let refused = Refused {
                number: r.number,
                others_are_zero: r.count == 0 && r.moves == 0,
            };
            write!(f, "{refused}")?;
        }
        write!(f, "{}", RowsHold(hold(self.row, r.count, &MARK_32)))
    }
}
