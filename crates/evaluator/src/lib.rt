// A second evaluator for runs: what the paper's plain machine replies, over membership that is decided number by number.
// It has no readers and no steps, so that it shares nothing with an engine that it is compared with. And one for a change of a
// list, with the kept row of members: both are worked out afresh, and nothing is moved in a row. And one for how large it can get.
#![tactic(auto)]

mod bound;
mod change;
mod lent;
mod member;
mod plain;
mod tokens;

pub use bound::{Bounded, bounds, lengths};
pub use change::{Change, Updated, members, update};
pub use lent::{Lists, laid};
use member::Expression;
use plain::{Machine, TOP};
use tokens::nodes_of;

// What is refused, by the paper's numbers.
#[derive(Clone, Copy, Debug, PartialEq, Eq)]
pub enum Refusal {
    BitsRunOut = 1,
    TooManyNodes = 2,
    TooDeep = 3,
    NoSuchList = 4,
    BadFill = 5,
    NoRoom = 6,
    BadListCount = 7,
    BadEnds = 10,
    NotAscending = 11,
    BadBookmark = 12,
    BadLengths = 13,
    AlreadySo = 15,
    ListFull = 16,
    NotKept = 17,
    NotDelivered = 18,
}

// Where a run begins, and where each of its calls leaves it: the floor, which is the bookmark of the next run.
#[derive(Clone, Copy, PartialEq, Eq)]
pub struct Begin {
    pub bookmark: u64,
}

// What is refused of where a run begins and of the rows' lengths.
fn check_call(begin: Begin, codes: usize, arguments: usize, replies: usize) -> Result<(), Refusal> {
    if TOP < begin.bookmark {
        return Err(Refusal::BadBookmark);
    }
    if codes != arguments || replies < codes {
        return Err(Refusal::BadLengths);
    }
    Ok(())
}

// A run's replies by the plain machine over membership, encoded as in the paper into the lent row, and where the next run begins;
// elements behind the replies are left alone, and with a refusal the whole row.
pub fn answer(
    numbers: &[u32],
    lists: Lists,
    packed: &[u8],
    begin: Begin,
    codes: &[u8],
    arguments: &[u32],
    replies: &mut [u64],
) -> Result<Begin, Refusal> {
    lists.check(numbers)?;
    let nodes = nodes_of(packed, &lists)?;
    check_call(begin, codes.len(), arguments.len(), replies.len())?;
    let mut machine = Machine {
        expression: Expression {
            numbers,
            lists: &lists,
            nodes: nodes.read(),
            change: None,
        },
        floor: begin.bookmark,
    };
    for ((code, d), reply) in codes.iter().zip(arguments).zip(replies) {
        *reply = u64::from(machine.call(*code, *d));
    }
    Ok(Begin {
        bookmark: machine.floor,
    })
}
