// Regroupings drawn from a case's number, one after another.
use crate::limits::is_within;
use crate::rows::{DIFFERENCE, INTERSECTION, is_intersection, is_union, member, members, node};
use crate::steps;
use crate::steps::is_many;
use cases::Row;
use cases::dice::pick;
use std::ops::Range;

// What the numbers of this file are drawn for.
const KIND: u64 = 800;

const PLACE: u64 = 801;

const MEMBER: u64 = 802;

const SIZE: u64 = 803;

// The kinds, which `kinds` counts in this order: members exchanged, opened out, closed in, a difference divided, differences gathered,
// distributed.
#[derive(Clone, Copy, Debug, PartialEq, Eq)]
pub enum Kind {
    Exchanged,
    Opened,
    Closed,
    Divided,
    Gathered,
    Distributed,
}

const KINDS: [Kind; 6] = [
    Kind::Exchanged,
    Kind::Opened,
    Kind::Closed,
    Kind::Divided,
    Kind::Gathered,
    Kind::Distributed,
];

impl Kind {
    // Whether a node is one that the kind is for.
    fn is_for(self, node: u8) -> bool {
        match self {
            Kind::Divided | Kind::Gathered => node == DIFFERENCE,
            Kind::Distributed => is_intersection(node),
            Kind::Exchanged | Kind::Opened | Kind::Closed => is_many(node),
        }
    }
}

// A row regrouped, and how often by each kind.
#[derive(Clone, Copy)]
pub struct Regrouped {
    pub row: Row,
    pub kinds: [u64; 6],
}

// Among so many.
fn among(case: u64, purpose: u64, turn: u64, below: usize) -> usize {
    pick(case, purpose, turn, below as u64) as usize
}

// The place of a node that a kind is for, the first from a place on and then from the front; that place where there is none.
fn place_of(row: &Row, start: usize, kind: Kind) -> usize {
    (start..row.count)
        .chain(0..start)
        .find(|at| kind.is_for(node(row, *at)))
        .unwrap_or(start)
}

// The same of a node's members, a union or an intersection as is wanted.
fn member_of<F: Fn(u8) -> bool>(row: &Row, at: usize, start: usize, wanted: F) -> usize
    requires { F.IsAlwaysCallable wanted }
{
    (start..members(node(row, at)))
        .chain(0..start)
        .find(|k| wanted(node(row, member(row, at, *k))))
        .unwrap_or(start)
}

// A member that is a union where the node is one, and an intersection where it is one.
fn alike_of(row: &Row, at: usize, start: usize) -> usize {
    if node(row, at) < INTERSECTION {
        member_of(row, at, start, is_union)
    } else {
        member_of(row, at, start, is_intersection)
    }
}

// A row regrouped by a kind at a place that is drawn; none where the kind does not apply there.
fn step(row: &Row, case: u64, turn: u64, kind: Kind) -> Option<Row> {
    let at = place_of(row, among(case, PLACE, turn, row.count), kind);
    let n = members(node(row, at));
    let k = among(case, MEMBER, turn, n);
    let other = among(case, SIZE, turn, n);
    match kind {
        Kind::Exchanged => steps::exchanged(row, at, k.min(other), k.max(other)),
        Kind::Opened => steps::opened(row, at, alike_of(row, at, k)),
        Kind::Closed => steps::closed(row, at, k.min(other), k.abs_diff(other) % 8 + 1),
        Kind::Divided => steps::divided(row, at),
        Kind::Gathered => steps::gathered(row, at, 1 + among(case, SIZE, turn, 8) % 8),
        Kind::Distributed => steps::distributed(row, at, member_of(row, at, k, is_union)),
    }
}

// A row by turns, each of its kind. What would pass the limits of an expression is left as it was.
fn by_turns<F: Fn(u64) -> Kind>(row: Row, case: u64, turns: Range<u64>, kind_of: F) -> Regrouped
    requires { F.IsAlwaysCallable kind_of }
{
    let mut r = Regrouped { row, kinds: [0; 6] };
    for turn in turns {
        let kind = kind_of(turn);
        let made = step(&r.row, case, turn, kind);
        if let Some(row) = made.filter(is_within) {
            let count = &mut r.kinds[kind as usize];
            *count = count.wrapping_add(1);
            r.row = row;
        }
    }
    r
}

// A case's expression with unions and intersections in each other, and differences with a union behind them, for turns to open. The
// kinds are the two that make nests.
pub fn nested(row: Row, case: u64) -> Row {
    let kind_of = |turn: u64| {
        if pick(case, KIND, turn, 2) == 0 {
            Kind::Closed
        } else {
            Kind::Gathered
        }
    };
    by_turns(row, case, 0..4, kind_of).row
}

// A case's expression regrouped, by up to 16 turns, each of any kind.
pub fn regrouping(row: Row, case: u64) -> Regrouped {
    by_turns(row, case, 4..20, |turn| {
        KINDS[among(case, KIND, turn, 6) % 6]
    })
}
