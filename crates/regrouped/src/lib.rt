// One generated expression and one that it was regrouped to, over the same lists, both put to the engine and to the second evaluator.
#![tactic(auto)]

pub mod totals;

use cases::{Begin, Bytes, Lists, Row};
use compare::lent::{Calls, Source, begin_of, lists_of, same_begin};
use compare::rows::front;
use compare::stored::pack;
use compare::{Verdict, What};
use regroup::{Regrouped, widest};

// A case's lists, where its runs begin, its expression and the regrouped one.
#[derive(Clone, Copy)]
pub struct Pair {
    pub lists: Lists,
    pub begin: Begin,
    pub row: Row,
    pub other: Regrouped,
}

// What came of the regrouped expression's run, or what differs; how often it was regrouped by each kind, its nodes and the most members
// of one; and whether its row and its moves are others.
#[derive(Clone, Copy)]
pub struct Outcome {
    pub verdict: Result<Verdict, What>,
    pub kinds: [u64; 6],
    pub nodes: usize,
    pub widest: usize,
    pub other_row: bool,
    pub other_moves: bool,
}

// In every eighth case the bookmark may be refused.
fn begins(case: u64, lists: Lists) -> Begin {
    let begin = cases::begins(case, lists);
    if case % 8 == 7 {
        return cases::bad_begins(case, begin);
    }
    begin
}

pub fn pair_of(case: u64) -> Pair {
    let lists = cases::lists(case);
    let row = regroup::nested(cases::expression(case, lists.count, lists.word), case);
    Pair {
        lists,
        begin: begins(case, lists),
        row,
        other: regroup::regrouping(row, case),
    }
}

// The case's calls of one expression, by the engine and by the evaluator.
fn run(case: u64, pair: &Pair, expression: &Bytes) -> Result<Verdict, What> {
    let c = cases::calls(case, pair.lists);
    let source = Source {
        numbers: front(&pair.lists.numbers, pair.lists.used),
        lists: lists_of(&pair.lists),
        packed: front(&expression.bytes, expression.count),
    };
    compare::run_both(source, begin_of(pair.begin), Calls::of(&c), 32)
}

// Two runs beside each other: the number, the whole reply row, the last bookmark.
fn same(one: &Verdict, other: &Verdict) -> Result<(), What> {
    if one.number != other.number {
        return Err(What::OtherNumber);
    }
    if one.replies != other.replies {
        return Err(What::OtherReplies);
    }
    if !same_begin(one.last, other.last) {
        return Err(What::OtherBookmark);
    }
    Ok(())
}

// The runs of both expressions, once both are accepted and read back, and neither differs from the evaluator's or from the other.
fn runs(case: u64, pair: &Pair) -> Result<(Verdict, Verdict), What> {
    let lists = lists_of(&pair.lists);
    let expression = pack(&pair.row, &lists)?;
    let Ok(regrouped) = pack(&pair.other.row, &lists) else {
        return Err(What::Stored);
    };
    let one = run(case, pair, &expression)?;
    let other = run(case, pair, &regrouped)?;
    same(&one, &other)?;
    Ok((one, other))
}

fn same_row(one: &Row, other: &Row) -> bool {
    front(&one.bytes, one.count) == front(&other.bytes, other.count)
}

// One case of an expression and its regrouping.
pub fn regroup_case(case: u64) -> Outcome {
    let pair = pair_of(case);
    let ran = runs(case, &pair);
    let other = pair.other.row;
    Outcome {
        verdict: ran.map(|(_, other)| other),
        kinds: pair.other.kinds,
        nodes: other.count,
        widest: widest(&other),
        other_row: !same_row(&pair.row, &other),
        other_moves: ran.is_ok_and(|(one, other)| one.moves != other.moves),
    }
}
