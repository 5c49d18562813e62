// What the engine handed back, beside what the second evaluator says of the same input.
use crate::What;
use crate::lent::{Calls, Source, first, last_of, same_begin};
use crate::replies::{FINISHED, MARK, Reply};
use crate::rows::{first_difference, front};
use evaluator::{Begin, Bounded, Lists, Refusal};
use model::{BoundsResult, RunResult};
use std::fmt;

// The first thing in which the evaluator differs, at which place where it is one of a row, and what the evaluator says there. The last
// six are of changes and joins.
#[derive(Clone, Copy, Debug)]
pub enum Difference {
    Number(u32),
    Reply(usize, u64),
    Bookmark(u64),
    Bound(usize, u64),
    Member(usize, u64),
    Count(usize),
    ListNumber(usize, u32),
    End(usize, u32),
    KeptNumber(usize, u32),
    Byte(usize, u8),
}

impl From<Difference> for What {
    fn from(d: Difference) -> What {
        match d {
            Difference::Number(_) => What::Number,
            Difference::Reply(_, _) => What::Replies,
            Difference::Bookmark(_) => What::Bookmark,
            Difference::Bound(_, _) => What::Bounds,
            Difference::Member(_, _) => What::Members,
            Difference::Count(_) => What::Count,
            Difference::ListNumber(_, _) => What::Numbers,
            Difference::End(_, _) => What::Ends,
            Difference::KeptNumber(_, _) => What::Kept,
            Difference::Byte(_, _) => What::Bytes,
        }
    }
}

impl fmt::Display for Difference {
    fn fmt<W: fmt::Write>(&self, f: &mut fmt::Formatter<W>) -> fmt::Result {
        match self {
            Difference::Number(0) => f.write_str("accepted"),
            Difference::Number(n) => write!(f, "refused {n}"),
            Difference::Reply(at, MARK) | Difference::Member(at, MARK) => {
                write!(f, "reply {at} is left alone")
            }
            Difference::Reply(at, n) | Difference::Member(at, n) => {
                let reply = Reply::from(*n);
                write!(f, "reply {at} is {reply}")
            }
            Difference::Bookmark(n) => write!(f, "bookmark {n}"),
            Difference::Bound(at, n) => write!(f, "bound {at} is {n}"),
            Difference::Count(n) => write!(f, "count {n}"),
            Difference::ListNumber(at, n) => write!(f, "number {at} is {n}"),
            Difference::End(at, n) => write!(f, "end {at} is {n}"),
            Difference::KeptNumber(at, n) => write!(f, "kept number {at} is {n}"),
            Difference::Byte(at, n) => write!(f, "byte {at} is {n}"),
        }
    }
}

// The number of a refusal, or 0, and the evaluator's.
pub fn same_number(number: u32, other: u32) -> Result<(), Difference> {
    if other == number {
        Ok(())
    } else {
        Err(Difference::Number(other))
    }
}

// The number of what the evaluator refuses, 0 where it refuses nothing.
fn number_of<T>(said: &Result<T, Refusal>) -> u32 {
    match said {
        Ok(_) => 0,
        Err(refusal) => *refusal as u32,
    }
}

// A run into so many places, at most 64, of a reply row that held its marks: the number, the whole row and the bookmark.
pub fn run(
    source: Source,
    begin: Begin,
    calls: Calls,
    room: usize,
    ran: &RunResult,
    replies: &[u64],
) -> Result<(), Difference> {
    let n = room % 65;
    let mut others = [MARK; 64];
    let other = evaluator::answer(
        source.numbers,
        source.lists,
        source.packed,
        begin,
        calls.codes,
        calls.arguments,
        &mut others[..n],
    );
    same_number(ran.number, number_of(&other))?;
    if let Some((at, says)) = first_difference(replies, &others) {
        return Err(Difference::Reply(at, says));
    }
    let last = other.unwrap_or(first());
    if same_begin(last, last_of(ran)) {
        Ok(())
    } else {
        Err(Difference::Bookmark(last.bookmark))
    }
}

// Bounds: the number, then the three, members, moves and bytes, counted from 0.
pub fn bounds(lists: Lists, packed: &[u8], got: &BoundsResult) -> Result<(), Difference> {
    let other = evaluator::bounds(lists, packed);
    same_number(got.number, number_of(&other))?;
    let other = other.unwrap_or(Bounded {
        members: 0,
        moves: 0,
        bytes: 0,
    });
    let three = [
        u64::from(got.members),
        u64::from(got.moves),
        got.bytes as u64,
    ];
    let others = [
        u64::from(other.members),
        u64::from(other.moves),
        other.bytes as u64,
    ];
    match first_difference(&three, &others) {
        Some((at, says)) => Err(Difference::Bound(at, says)),
        None => Ok(()),
    }
}

// The number of a list: that of the run which draws it, or 6 where a member is drawn that has no place.
fn list_number(drawn: u32, behind: u64) -> u32 {
    match Reply::from(behind) {
        Reply::Member(_) if drawn == 0 => 6,
        _ => drawn,
    }
}

// Members listed into so many places, at most 4,096: the number, or each member and that it is the last. Where the list is refused,
// the evaluator is to draw as many as have a place.
pub fn list(source: Source, room: usize, number: u32, members: &[u32]) -> Result<(), Difference> {
    let mut replies = [MARK; 4097];
    let wanted = if number == 0 { members.len() } else { room };
    let nexts = Calls::nexts(wanted % 4097 + 1);
    let drawn = evaluator::answer(
        source.numbers,
        source.lists,
        source.packed,
        first(),
        nexts.codes,
        nexts.arguments,
        &mut replies,
    );
    let behind = replies.get(room).copied().unwrap_or(MARK);
    same_number(number, list_number(number_of(&drawn), behind))?;
    if number != 0 {
        return Ok(());
    }
    listed(&replies, members)
}

// Members beside the replies to a next for each and one more.
pub fn listed(replies: &[u64], members: &[u32]) -> Result<(), Difference> {
    let at = members
        .iter()
        .zip(replies)
        .take_while(|(member, reply)| u64::from(**member) == **reply)
        .count();
    let says = replies.get(at).copied().unwrap_or(MARK);
    if at == members.len() && says == FINISHED {
        Ok(())
    } else {
        Err(Difference::Member(at, says))
    }
}

// What the program's input is listed as, into so many places, at most 4,096. The evaluator reads no delivery: it has the lists that
// `decode` reads, and is not asked where these, the input's size or the expression's length are refused.
pub fn input(
    bytes: &[u8],
    room: usize,
    number: u32,
    members: &[u32],
) -> Option<Result<(), Difference>> {
    if 65535 < bytes.len() {
        return None;
    }
    let (length, behind) = bytes.split_first()?;
    let (packed, delivery) = behind.split_at_checked(usize::from(*length))?;
    let mut row = [0u32; 4096];
    let mut stops = [0u32; 32];
    let got = decode::decode_delivery(delivery, &mut row, &mut stops);
    if got.number != 0 {
        return None;
    }
    let source = Source {
        numbers: front(&row, got.numbers),
        lists: evaluator::laid(front(&stops, got.lists), got.word),
        packed,
    };
    Some(list(source, room, number, members))
}
