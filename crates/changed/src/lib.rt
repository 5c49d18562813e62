// One generated change given to the engine and to the second evaluator; what a run over the changed lists draws, and the change taken
// back.
#![tactic(auto)]

pub mod evaluated;
pub mod lent;

use cases::{Bytes, Kept};
use compare::lent::{Calls, Source, ends_of, lists_of};
use compare::replies::MARK;
use compare::rows::{copy, front};
use compare::{MARK_32, What, inputs};
use evaluator::{Change, Lists};
use lent::{Left, Request, Updated};

// What came out differently, the engine's number, and whether a member came or went.
#[derive(Clone, Copy)]
pub struct Outcome {
    pub differs: Option<What>,
    pub number: u32,
    pub came: bool,
    pub went: bool,
}

// What a case is made of: its numbers, of which so many are lent, how the lists lie in them, the expression, the change, and the kept
// row. Rows are of fixed length here and below: a case allocates nothing.
#[derive(Clone, Copy)]
pub struct Asked {
    numbers: [u32; 512],
    room: usize,
    lists: Lists,
    expression: Bytes,
    change: Change,
    kept: Kept,
}

impl Asked {
    pub fn request(&self) -> Request<'_> {
        Request {
            source: Source {
                numbers: front(&self.numbers, self.room),
                lists: self.lists,
                packed: front(&self.expression.bytes, self.expression.count),
            },
            change: self.change,
            kept: front(&self.kept.row, self.kept.room),
            count: self.kept.count,
        }
    }
}

// Copies of a change's rows, which can be changed; marks are behind them.
#[derive(Clone, Copy)]
struct Rows {
    numbers: [u32; 512],
    lent: usize,
    kept: [u32; 520],
    lent_kept: usize,
}

impl Rows {
    fn of(numbers: &[u32], kept: &[u32]) -> Rows {
        let mut rows = Rows {
            numbers: [MARK_32; 512],
            lent: numbers.len() % 513,
            kept: [MARK_32; 520],
            lent_kept: kept.len() % 521,
        };
        copy(&mut rows.numbers, numbers);
        copy(&mut rows.kept, kept);
        rows
    }

    // The engine's change in them: what it hands back, and the rows as they are left.
    fn updated(mut self, request: Request) -> (Updated, Rows) {
        let n = self.lent % 513;
        let k = self.lent_kept % 521;
        let updated = lent::update(request, &mut self.numbers[..n], &mut self.kept[..k]);
        (updated, self)
    }

    fn left(&self, updated: Updated) -> Left<'_> {
        Left {
            updated,
            numbers: front(&self.numbers, self.lent),
            kept: front(&self.kept, self.lent_kept),
        }
    }

    // The evaluator's change in them, beside the engine's.
    fn evaluated(mut self, request: Request, left: Left) -> Result<(), What> {
        let n = self.lent % 513;
        let k = self.lent_kept % 521;
        evaluated::update(request, left, &mut self.numbers[..n], &mut self.kept[..k])?;
        Ok(())
    }
}

// The kept row of a case: the members that the evaluator finds, marks behind them, and what the generator does to these.
fn kept_of(case: u64, source: Source) -> Kept {
    let mut row = [MARK_32; 520];
    let count = evaluator::members(source.numbers, source.lists, source.packed, &mut row[..512]);
    cases::kept_of(case, row, count)
}

// Case i of the changes. Every eighth has its lists or its expression damaged.
pub fn asked_of(case: u64) -> Asked {
    let made = inputs(case, case % 8 == 7);
    let change = cases::change_of(case, made.lists);
    let mut numbers = [MARK_32; 512];
    copy(&mut numbers, front(&made.lists.numbers, made.lists.used));
    let lists = lists_of(&made.lists);
    let kept = kept_of(
        case,
        Source {
            numbers: front(&numbers, change.room),
            lists,
            packed: front(&made.expression.bytes, made.expression.count),
        },
    );
    Asked {
        numbers,
        room: change.room,
        lists,
        expression: made.expression,
        change: lent::change_of(change),
        kept,
    }
}

// Whether a run of a next for each of these members and one more replies them, and then finished.
fn is_afresh(source: Source, members: &[u32]) -> bool {
    let mut replies = [MARK; 513];
    let nexts = Calls::nexts(members.len() % 513 + 1);
    let ran = source.run(compare::lent::first(), nexts, &mut replies);
    ran.number == 0 && compare::evaluated::listed(&replies, members).is_ok()
}

// The last end.
fn used(lists: &Lists) -> usize {
    ends_of(lists).last().map_or(0, |end| *end as usize)
}

fn same_ends(a: &Lists, b: &Lists) -> bool {
    a.count == b.count && a.ends == b.ends
}

// Whether the opposite change of rows that a change has left gives their used parts back.
fn is_taken_back(request: Request, left: Left) -> bool {
    let opposite = Request {
        source: Source {
            lists: left.updated.lists,
            ..request.source
        },
        change: lent::opposite(request.change),
        kept: left.kept,
        count: left.updated.count,
    };
    let (back, rows) = Rows::of(left.numbers, left.kept).updated(opposite);
    let last = used(&request.source.lists);
    back.number == 0
        && back.count == request.count
        && same_ends(&back.lists, &request.source.lists)
        && front(&rows.numbers, last) == front(request.source.numbers, last)
        && front(&rows.kept, request.count) == front(request.kept, request.count)
}

// An accepted change beside the members drawn afresh, and the change taken back.
fn accepted(request: Request, left: Left) -> Result<(), What> {
    let changed = Source {
        numbers: left.numbers,
        lists: left.updated.lists,
        packed: request.source.packed,
    };
    if !is_afresh(changed, front(left.kept, left.updated.count)) {
        return Err(What::Afresh);
    }
    if !is_taken_back(request, left) {
        return Err(What::TakenBack);
    }
    Ok(())
}

// A change beside what the evaluator says, which has rows of its own.
fn hold_against(request: Request, left: Left) -> Result<(), What> {
    Rows::of(request.source.numbers, request.kept).evaluated(request, left)?;
    if left.updated.number == 0 {
        accepted(request, left)?;
    }
    Ok(())
}

// One case of a change, of at most 512 numbers and 520 kept ones, by both.
pub fn update_case(case: u64) -> Outcome {
    let asked = asked_of(case);
    let request = asked.request();
    let (updated, rows) = Rows::of(request.source.numbers, request.kept).updated(request);
    Outcome {
        differs: hold_against(request, rows.left(updated)).err(),
        number: updated.number,
        came: request.count < updated.count,
        went: updated.count < request.count,
    }
}
