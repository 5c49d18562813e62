// A change of a case's lists, and the kept row of members that goes with it.
ghost use Rattle.std.specs.Prelude.{◌<◌, ◌≤◌};

use crate::dice::{pick, roll};
use crate::inputs::{Lists, narrow};
use crate::requests::{any_argument, nudged};

// What the numbers of this file are drawn for.
const LIST: u64 = 500;

const ADD: u64 = 501;

const NUMBER: u64 = 502;

const ROOM: u64 = 503;

const SPARE: u64 = 504;

const FAULT: u64 = 505;

const PLACE: u64 = 506;

// The index of a change's number among the numbers that calls have.
const CHANGED: u64 = 2000;

// A number, the list that it is added to or removed from, whether it is added (0 is not; a byte, as C hands it in), and how many
// numbers are lent.
#[derive(Drop)]
pub struct Change {
    pub list: usize,
    pub number: u32,
    pub add: u8,
    pub room: usize,
}

// A kept row, of which so many elements are lent, and how many members it is said to have.
#[derive(Clone, Copy)]
pub struct Kept {
    pub row: [u32; 520],
    pub room: usize,
    pub count: usize,
}

// A list that is there in 93 of 100 cases, else the one behind the last, or the greatest number.
fn list(case: u64, l: &Lists) -> usize {
    match pick(case, LIST, 0, 100) {
        0..93 => pick(case, LIST, 1, l.count as u64) as usize,
        93..98 => l.count,
        _ => usize::MAX,
    }
}

// Added in half of the cases, mostly by 1.
fn add(case: u64) -> u8 {
    match pick(case, ADD, 0, 100) {
        0..50 => 0,
        50..80 => 1,
        80..90 => 255,
        _ => (roll(case, ADD, 1) % 256) as u8,
    }
}

// A number of list k, or any where it has none.
fn own(case: u64, l: &Lists, k: usize) -> u64
    ensures { result < 4294967296 }
{
    let from = l.start(k);
    let to = l.end(k);
    if to <= from {
        return any_argument(case, CHANGED, *l);
    }
    let at = ((from + pick(case, NUMBER, 1, to - from)) % 512) as usize;
    u64::from(l.numbers[at])
}

// A number to remove is one of the list in 88 of 100 cases, a number to add in 8.
fn number(case: u64, l: &Lists, k: usize, add: u8) -> u64
    ensures { result < 4294967296 }
{
    let owned = if add == 0 { 88 } else { 8 };
    if pick(case, NUMBER, 0, 100) < owned {
        own(case, l, k)
    } else {
        any_argument(case, CHANGED, *l)
    }
}

// How many places a row has more than are used: none in 12 of 100 cases, 1 in 48, 2 to 7 in 40.
fn more(case: u64, purpose: u64) -> usize
    ensures { result ≤ 7 }
{
    match pick(case, purpose, 0, 100) {
        0..12 => 0,
        12..60 => 1,
        p => (2 + p % 6) as usize,
    }
}

// Of the row that the lists lie in at most 512 numbers are lent.
pub fn change_of(case: u64, l: Lists) -> Change
    ensures { result.room ≤ 512 }
{
    let k = list(case, &l);
    let how = add(case);
    Change {
        list: k,
        number: narrow(number(case, &l, k, how)),
        add: how,
        room: (l.used.min(512) + more(case, ROOM)).min(512),
    }
}

// A kept row with another number among its members: a neighbour, or the same in 60 of 100 cases.
fn with_another(case: u64, row: [u32; 520], members: usize) -> [u32; 520] {
    let mut other = row;
    let at = pick(case, PLACE, 0, members as u64) as usize % 520;
    other[at] = narrow(nudged(case, CHANGED + 1, u64::from(row[at])));
    other
}

// The kept row of a case that has so many members. Of 100 cases: right in 80, an element changed or not in 8, a member too few in 4
// or too many in 4, the row shorter than the members in 3, a count that no row has in 1.
pub fn kept_of(case: u64, row: [u32; 520], members: usize) -> Kept
    ensures { result.room ≤ 520 }
{
    let n = members % 513;
    let right = Kept {
        row,
        room: n + more(case, SPARE),
        count: n,
    };
    match pick(case, FAULT, 0, 100) {
        0..80 => right,
        80..88 => Kept {
            row: with_another(case, row, n),
            ..right
        },
        88..92 => Kept {
            count: n + 1,
            ..right
        },
        92..96 => Kept {
            count: if n > 0 { n - 1 } else { 1 },
            ..right
        },
        96..99 => Kept {
            room: n / 2,
            ..right
        },
        _ => Kept {
            count: usize::MAX,
            ..right
        },
    }
}
