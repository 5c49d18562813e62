// A run as one case: what is handed in, each call with its reply, and what is handed back.
use crate::outcome::Outcome;
use crate::text::{Braced, Bytes, Lent, MARK_64, Numbers, Refused, RowsHold, Spaced, Word};
use compare::evaluated;
use compare::lent::{Calls, Source};
use compare::replies::Reply;
use compare::rows::{are_moves, front, hold, rest, total};
use evaluator::Begin;
use model::RunResult;
use std::{fmt, io};

// What the engine handed back of a run, the reply row, and how many nodes the expression has.
#[derive(Clone, Copy)]
struct Ran<'a> {
    result: RunResult,
    calls: Calls<'a>,
    replies: [u64; 64],
    nodes: usize,
}

// A run of lists, an expression and calls, where the expression reads.
pub fn run_from<R: Print>(
    rt: &R,
    name: &[u8],
    source: Source,
    begin: Begin,
    calls: Calls,
) -> io::Result<Outcome> {
    let lists = Braced(source.numbers, &source.lists);
    rt.write_all(name)?;
    print!(rt; ",{lists}{}", Word(source.lists.word))?;
    if begin.bookmark != 0 {
        print!(rt; ", bookmark {}", begin.bookmark)?;
    }
    outcome(rt, source, begin, calls, 64)
}

// A run of the rows themselves, with a reply row of so many elements, at most 64.
pub fn run_rows<R: Print>(
    rt: &R,
    name: &[u8],
    source: Source,
    begin: Begin,
    calls: Calls,
    room: usize,
) -> io::Result<Outcome> {
    rt.write_all(name)?;
    print!(rt;
        ", run{}, packed{}, bookmark {}, codes{}, arguments{}, replies {room}",
        Lent(source.numbers, &source.lists),
        Bytes(source.packed),
        begin.bookmark,
        Spaced(calls.codes),
        Numbers(calls.arguments)
    )?;
    outcome(rt, source, begin, calls, room)
}

// How many nodes a packed expression has.
fn node_count(source: Source) -> usize {
    let mut row = [0u8; 48];
    let lists = source.lists;
    forms::unpack_expression(source.packed, lists.count, lists.word, &mut row).count
}

// The run, by the engine and by the evaluator, and the rest of its line.
fn outcome<R: Print>(
    rt: &R,
    source: Source,
    begin: Begin,
    calls: Calls,
    room: usize,
) -> io::Result<Outcome> {
    let mut replies = [MARK_64; 64];
    let n = room % 65;
    let result = source.run(begin, calls, &mut replies[..n]);
    let said = evaluated::run(source, begin, calls, n, &result, &replies);
    let outcome = Outcome::from(said);
    let ran = Ran {
        result,
        calls,
        replies,
        nodes: node_count(source),
    };
    println!(rt; ": {ran}{outcome}")?;
    Ok(outcome)
}

// What the engine handed back, and whether it left the reply row behind its replies alone.
impl fmt::Display for Ran<'_> {
    fn fmt<W: fmt::Write>(&self, f: &mut fmt::Formatter<W>) -> fmt::Result {
        if self.result.number != 0 {
            let refused = Refused {
                number: self.result.number,
                others_are_zero: self.other_parts_zero(),
            };
            return write!(f, "{refused}{}", self.rows_hold(0));
        }
        let replied = Replied(self.calls, &self.replies);
        let places = front(&self.result.places, self.nodes);
        write!(f, "{replied}; bookmark {}", self.result.bookmark)?;
        write!(f, ", moves {}, places{}", self.result.moves, Spaced(places))?;
        if !hold(rest(&self.result.places, self.nodes), 0, &0) {
            f.write_str(", a place behind the nodes is not 0")?;
        }
        if !are_moves(&self.result.places, self.result.moves) {
            f.write_str(", the moves are not those of hops and single moves")?;
        }
        write!(f, "{}", self.rows_hold(self.calls.codes.len()))
    }
}

impl Ran<'_> {
    fn other_parts_zero(&self) -> bool {
        let ran = self.result;
        ran.moves == 0 && ran.bookmark == 0 && total(&ran.places) == 0
    }

    fn rows_hold(&self, from: usize) -> RowsHold {
        RowsHold(hold(&self.replies, from, &MARK_64))
    }
}

// Each call with its reply.
#[derive(Clone, Copy)]
struct Replied<'a>(Calls<'a>, &'a [u64]);

impl fmt::Display for Replied<'_> {
    fn fmt<W: fmt::Write>(&self, f: &mut fmt::Formatter<W>) -> fmt::Result {
        if self.0.codes.is_empty() {
            f.write_str("no call")?;
        }
        let calls = self.0.codes.iter().zip(self.0.arguments);
        for (i, ((code, argument), reply)) in calls.zip(self.1).enumerate() {
            if 0 < i {
                f.write_str(", ")?;
            }
            let call = Call(*code, *argument);
            let reply = Reply::from(*reply);
            write!(f, "{call} -> {reply}")?;
        }
        Ok(())
    }
}

#[derive(Clone, Copy)]
struct Call(u8, u32);

impl fmt::Display for Call {
    fn fmt<W: fmt::Write>(&self, f: &mut fmt::Formatter<W>) -> fmt::Result {
        match self {
            Call(0, _) => f.write_str("next"),
            Call(1, d) => write!(f, "at or past {d}"),
            Call(2, d) => write!(f, "past {d}"),
            Call(3, d) => write!(f, "check {d}"),
            Call(code, _) => write!(f, "code {code}"),
        }
    }
}
