// One generated case given to the engine and to the second evaluator: both stored forms written and read back, the delivery moved to
// its old form and back, a run, the run broken off and resumed, the bounds, and the program's list.
#![tactic(auto)]

pub mod evaluated;
pub mod lent;
pub mod replies;
pub mod rows;
pub mod stored;
pub mod totals;

use cases::Bytes;
use evaluator::Begin;
use lent::{Calls, Source, begin_of, last_of, lists_of, same_begin};
use replies::{MARK, Reply};
use rows::{are_joined, are_places, front, hold};
use std::fmt;
use stored::Delivery;

// What a lent number holds before a call.
pub const MARK_32: u32 = 2863311530;

// The comparisons, by what came out differently where one fails: those of a case, of a change, of two deliveries joined, and of an
// expression and its regrouping.
#[derive(Clone, Copy, Debug)]
pub enum What {
    Expression,
    Delivery,
    Number,
    Replies,
    Bookmark,
    Places,
    Broken,
    Members,
    Bounds,
    Numbers,
    Ends,
    Kept,
    Count,
    Afresh,
    TakenBack,
    Bytes,
    Round,
    Itself,
    Stored,
    OtherNumber,
    OtherReplies,
    OtherBookmark,
}

impl fmt::Display for What {
    fn fmt<W: fmt::Write>(&self, f: &mut fmt::Formatter<W>) -> fmt::Result {
        f.write_str(match self {
            What::Expression => "the expression's stored forms",
            What::Delivery => "the delivery",
            What::Number => "the number",
            What::Replies => "the replies",
            What::Bookmark => "the bookmark",
            What::Places => "the places or moves",
            What::Broken => "the run broken off",
            What::Members => "the program's list",
            What::Bounds => "the bounds",
            What::Numbers => "the numbers",
            What::Ends => "the ends",
            What::Kept => "the kept row",
            What::Count => "the count",
            What::Afresh => "the members drawn afresh",
            What::TakenBack => "the change taken back",
            What::Bytes => "the bytes",
            What::Round => "the join the other way round",
            What::Itself => "the join with itself",
            What::Stored => "the regrouped expression's stored forms",
            What::OtherNumber => "the regrouped expression's number",
            What::OtherReplies => "the regrouped expression's replies",
            What::OtherBookmark => "the regrouped expression's bookmark",
        })
    }
}

// What the engine's run handed back, of the places their sum. The replies' row is of fixed length: a case allocates nothing.
#[derive(Clone, Copy)]
pub struct Verdict {
    pub number: u32,
    pub moves: u32,
    pub places: u64,
    pub last: Begin,
    pub replies: [u64; 32],
}

// How far each node's reader can have moved: to the end of its list; not at all in a run that is refused.
fn reaches(number: u32, source: Source) -> [u32; 48] {
    if number == 0 {
        return evaluator::lengths(source.numbers.len(), source.lists, source.packed);
    }
    [0; 48]
}

// One run by both, into so many replies, at most 32: number, the whole reply row, bookmark, and the places within their bounds.
pub fn run_both(source: Source, begin: Begin, calls: Calls, room: usize) -> Result<Verdict, What> {
    let n = room % 33;
    let mut replies = [MARK; 32];
    let r = source.run(begin, calls, &mut replies[..n]);
    evaluated::run(source, begin, calls, n, &r, &replies)?;
    if !are_places(&r.places, &reaches(r.number, source), r.moves) {
        return Err(What::Places);
    }
    Ok(Verdict {
        number: r.number,
        moves: r.moves,
        places: rows::total(&r.places),
        last: last_of(&r),
        replies,
    })
}

// Whether the bounds that the engine gives are the evaluator's, and, of what was accepted, none is below what came: so many members
// and moves, and so many bytes of the lists' delivery.
fn is_bounded(source: Source, number: u32, members: usize, moves: u32, bytes: usize) -> bool {
    let b = source.bounds();
    if evaluated::bounds(source.lists, source.packed, &b).is_err() {
        return false;
    }
    if number != 0 {
        return true;
    }
    b.number == 0 && members as u64 <= u64::from(b.members) && moves <= b.moves && bytes <= b.bytes
}

// What came of a run, once the bounds hold for it.
fn bounded(v: Verdict, source: Source, bytes: usize) -> Result<Verdict, What> {
    let drawn = |reply: &u64| matches!(Reply::from(*reply), Reply::Member(_));
    let members = v.replies.iter().filter(|r| drawn(*r)).count();
    if is_bounded(source, v.number, members, v.moves, bytes) {
        Ok(v)
    } else {
        Err(What::Bounds)
    }
}

// The same calls in two runs, broken off before call k: whether their replies, one after the other, and the last bookmark are
// those of the whole run, and the places of each within their bounds.
fn breaks(source: Source, begin: Begin, calls: Calls, k: usize, whole: &Verdict) -> bool {
    let mut one = [MARK; 32];
    let first = source.run(begin, calls.before(k), &mut one);
    let mut two = [MARK; 32];
    let second = source.run(last_of(&first), calls.from(k), &mut two);
    let bound = evaluator::lengths(source.numbers.len(), source.lists, source.packed);
    let placed = are_places(&first.places, &bound, first.moves)
        && are_places(&second.places, &bound, second.moves);
    let accepted = first.number == 0 && second.number == 0;
    let ended = same_begin(last_of(&second), whole.last);
    accepted && placed && ended && are_joined(&whole.replies, &one, &two, k)
}

// How many moves the readers make in a run of so many nexts, at most 513.
fn moves_of(source: Source, nexts: usize) -> u32 {
    let mut replies = [MARK; 513];
    source
        .run(lent::first(), Calls::nexts(nexts), &mut replies)
        .moves
}

// Whether the program's work lists every member that the evaluator draws by next, nothing behind them, its moves are those of a run of
// a next for each and one more, and both are within their bounds; or is refused by the evaluator's number, with its row as it was.
fn is_listed(source: Source, input: &[u8]) -> bool {
    let mut row = [MARK_32; 512];
    let listed = listing::list_members(input, &mut row);
    let members = front(&row, listed.count);
    if !hold(&row, listed.count, &MARK_32)
        || evaluated::list(source, 512, listed.number, members).is_err()
    {
        return false;
    }
    if listed.number != 0 {
        return listed.count == 0 && listed.moves == 0;
    }
    let moves = moves_of(source, listed.count % 513 + 1);
    listed.moves == moves && is_bounded(source, 0, listed.count, moves, 0)
}

// Whether the program's input, the expression's length, the expression and the delivery, is listed.
fn lists_all(source: Source, delivery: &[u8]) -> Result<(), What> {
    let mut input = [0u8; 5120];
    let length = [(source.packed.len() % 256) as u8];
    let parts = length.iter().chain(source.packed).chain(delivery);
    for (place, b) in input.iter_mut().zip(parts) {
        *place = *b;
    }
    let size = 1 + source.packed.len() % 256 + delivery.len() % 4097;
    if is_listed(source, front(&input, size)) {
        Ok(())
    } else {
        Err(What::Members)
    }
}

// A case's calls, by both, whole and broken off; then the program's list.
fn compare_calls(
    source: Source,
    delivery: &Delivery,
    begin: Begin,
    calls: Calls,
    k: usize,
) -> Result<Verdict, What> {
    let v = bounded(run_both(source, begin, calls, 32)?, source, delivery.count)?;
    if !breaks(source, begin, calls, k, &v) {
        return Err(What::Broken);
    }
    lists_all(source, front(&delivery.bytes, delivery.count))?;
    Ok(v)
}

// A case's lists, packed expression and bookmark. Where it is damaged, a third of the cases have their expression damaged, a third
// their lists, and any may have its bookmark damaged.
#[derive(Clone, Copy)]
pub struct Made {
    pub lists: cases::Lists,
    pub expression: Bytes,
    pub begin: cases::Begin,
}

impl Made {
    fn damaged(self, case: u64) -> Made {
        Made {
            lists: if case % 3 == 1 {
                cases::damaged_lists(case, self.lists)
            } else {
                self.lists
            },
            expression: if case % 3 == 0 {
                cases::damaged(case, self.expression)
            } else {
                self.expression
            },
            begin: cases::bad_begins(case, self.begin),
        }
    }
}

// The expression is packed by the engine; whether it reads back is compared beside it.
pub fn inputs(case: u64, damaged: bool) -> Made {
    let lists = cases::lists(case);
    let row = cases::expression(case, lists.count, lists.word);
    let made = Made {
        lists,
        expression: stored::packed(&row, &lists_of(&lists)),
        begin: cases::begins(case, lists),
    };
    if damaged { made.damaged(case) } else { made }
}

// One case, all of it to be accepted.
pub fn compare_case(case: u64) -> Result<Verdict, What> {
    let l = cases::lists(case);
    let lists = lists_of(&l);
    let row = cases::expression(case, l.count, l.word);
    let expression = stored::pack(&row, &lists)?;
    let source = Source {
        numbers: front(&l.numbers, l.used),
        lists,
        packed: front(&expression.bytes, expression.count),
    };
    let delivery = stored::deliver(source.numbers, &lists)?;
    let c = cases::calls(case, l);
    compare_calls(
        source,
        &delivery,
        begin_of(cases::begins(case, l)),
        Calls::of(&c),
        cases::breaking(case, c.count),
    )
}

// Some damaged cases have half as many numbers as codes, and some half as many places for replies.
fn numbers_of(case: u64, count: usize) -> usize {
    if case % 16 == 5 { count / 2 } else { count }
}

fn room_of(case: u64, count: usize) -> usize {
    if case % 16 == 9 { count / 2 } else { 32 }
}

// Whether the program's work is right about a damaged expression, over a delivery of the case's own lists.
fn lists_damaged(case: u64, packed: &[u8]) -> Result<(), What> {
    let l = cases::lists(case);
    let source = Source {
        numbers: front(&l.numbers, l.used),
        lists: lists_of(&l),
        packed,
    };
    let d = stored::deliver(source.numbers, &source.lists)?;
    lists_all(source, front(&d.bytes, d.count))
}

// One case damaged: mostly to be refused, and by the same number.
pub fn compare_damaged(case: u64) -> Result<Verdict, What> {
    let made = inputs(case, true);
    let source = Source {
        numbers: front(&made.lists.numbers, made.lists.used),
        lists: lists_of(&made.lists),
        packed: front(&made.expression.bytes, made.expression.count),
    };
    let c = cases::calls(case, cases::lists(case));
    let calls = Calls {
        codes: front(&c.codes, c.count),
        arguments: front(&c.arguments, numbers_of(case, c.count)),
    };
    let ran = run_both(source, begin_of(made.begin), calls, room_of(case, c.count))?;
    let v = bounded(ran, source, 0)?;
    lists_damaged(case, source.packed)?;
    Ok(v)
}
