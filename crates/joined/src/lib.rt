// One generated pair of deliveries joined by the engine and by the second evaluator; the other way round, and one with itself.
#![tactic(auto)]

pub mod evaluated;

use compare::What;
use compare::lent::{ends_of, lists_of};
use compare::rows::front;
use model::WriteResult;

// What a lent byte holds before a call.
pub const MARK_8: u8 = 170;

// What came out differently, and what the engine handed back.
#[derive(Clone, Copy)]
pub struct Outcome {
    pub differs: Option<What>,
    pub number: u32,
    pub count: usize,
}

// A delivery, which may be damaged. Rows are of fixed length here and below: a case allocates nothing.
#[derive(Clone, Copy)]
pub struct Stored {
    row: [u8; 2560],
    count: usize,
}

impl Stored {
    pub fn bytes(&self) -> &[u8] {
        front(&self.row, self.count)
    }
}

// A case's full delivery and its daily one.
#[derive(Clone, Copy)]
pub struct Pair {
    pub full: Stored,
    pub daily: Stored,
}

// Lists written by the engine, and damaged as the first or the second delivery of a case.
fn written(case: u64, which: u64, made: cases::Lists) -> Stored {
    let mut row = [0u8; 2560];
    let lists = lists_of(&made);
    let numbers = front(&made.numbers, made.used);
    let w = encode::encode_delivery(numbers, ends_of(&lists), lists.word, &mut row);
    let count = cases::spoiled(case, which, &mut row, w.count);
    Stored { row, count }
}

pub fn pair_of(case: u64) -> Pair {
    Pair {
        full: written(case, 0, cases::lists(case)),
        daily: written(case, 1, cases::daily_lists(case)),
    }
}

// What two deliveries are joined to, and the bytes lent.
#[derive(Clone, Copy)]
struct Made {
    result: WriteResult,
    row: [u8; 5120],
}

impl Made {
    // What was written.
    fn bytes(&self) -> &[u8] {
        front(&self.row, self.result.count)
    }
}

// The engine's join, into so many bytes, at most 5,120.
fn join_into(full: &[u8], daily: &[u8], room: usize) -> Made {
    let n = room % 5121;
    let mut row = [MARK_8; 5120];
    let result = join::join_deliveries(full, daily, &mut row[..n]);
    Made { result, row }
}

// A join beside what the evaluator says, all lent bytes and those behind them.
fn evaluate(full: &[u8], daily: &[u8], room: usize, made: &Made) -> Result<(), What> {
    let n = room % 5121;
    let mut others = [MARK_8; 5120];
    let mut a = [0u32; 4096];
    let mut b = [0u32; 4096];
    let other = unions::join(full, daily, &mut others[..n], &mut a, &mut b);
    evaluated::same(made.result, &made.row, other, &others)?;
    Ok(())
}

// Whether the two joined the other way round, into all bytes, come to the same: where the bytes lent were too few, to what was not
// written. Which of two damaged deliveries is refused is not the same both ways.
fn is_round(one: &Made, other: &Made) -> bool {
    match one.result.number {
        0 => other.result.number == 0 && one.bytes() == other.bytes(),
        6 => other.result.number == 0,
        20 => other.result.number == 20,
        _ => other.result.number != 0,
    }
}

// Whether a delivery joined with itself is the bytes that it was.
fn is_itself(delivery: &[u8]) -> bool {
    let made = join_into(delivery, delivery, 5120);
    made.result.number == 0 && made.bytes() == delivery
}

// A join beside the evaluator's, the one the other way round, and, where it is accepted, that of the full delivery with itself.
fn hold_against(
    full: &[u8],
    daily: &[u8],
    room: usize,
    made: &Made,
    round: &Made,
) -> Result<(), What> {
    evaluate(full, daily, room, made)?;
    if !is_round(made, round) {
        return Err(What::Round);
    }
    if made.result.number == 0 && !is_itself(full) {
        return Err(What::Itself);
    }
    Ok(())
}

// One case of two deliveries joined.
pub fn join_case(case: u64) -> Outcome {
    let pair = pair_of(case);
    let full = pair.full.bytes();
    let daily = pair.daily.bytes();
    let round = join_into(daily, full, 5120);
    let room = cases::join_room(case, round.result.count);
    let made = join_into(full, daily, room);
    Outcome {
        differs: hold_against(full, daily, room, &made, &round).err(),
        number: made.result.number,
        count: made.result.count,
    }
}
