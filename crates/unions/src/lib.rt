// A second join of a full delivery and a daily one, which shares nothing with an engine that it is compared with. Both are read; the
// numbers of a joined list are then drawn as the plain machine draws the members of a union, each the least of either list that is not
// below the floor. No two lists are walked side by side.
#![tactic(auto)]

mod bits;
mod reading;

use bits::{bytes, fill, put_field, width_of};
use reading::Lists;

// What is refused, by its number: 1 wherever bits run out; 7; for each list 8 at the gap and 9 after its gaps; 5; 6 where numbers
// pass their row. Of two deliveries that were read: 20, 21, then 6 where bytes pass theirs.
#[derive(Clone, Copy, Debug, PartialEq, Eq)]
pub enum Refusal {
    BitsRunOut = 1,
    BadFill = 5,
    NoRoom = 6,
    BadListCount = 7,
    NumberTooGreat = 8,
    WidthTooGreat = 9,
    ListCountsDiffer = 20,
    ListTooLong = 21,
}

// A delivery that was read: its numbers, and how they lie in lists.
#[derive(Clone, Copy)]
struct Delivery<'a> {
    numbers: &'a [u32],
    lists: Lists,
}

impl<'a> Delivery<'a> {
    // The numbers of list k, none where it did not come.
    fn part(&self, k: usize) -> &'a [u32] {
        self.lists.part(self.numbers, k)
    }
}

// The least number of an ascending row that is not below the floor.
fn least(row: &[u32], floor: u64) -> Option<u32> {
    let place = row.partition_point(|&x| u64::from(x) < floor);
    row.get(place).copied()
}

// The union of two lists, drawn number by number: no number below the floor is left.
#[derive(Clone, Copy)]
struct Union<'a> {
    full: &'a [u32],
    daily: &'a [u32],
    floor: u64,
}

impl Iterator for Union<'_> {
    type Item = u32;

    fn next(&mut self) -> Option<u32> {
        let one = least(self.full, self.floor);
        let other = least(self.daily, self.floor);
        let x = match (one, other) {
            (Some(a), Some(b)) => a.min(b),
            _ => one.or(other)?,
        };
        self.floor = u64::from(x) + 1;
        Some(x)
    }
}

impl Union<'_> {
    // At least as many numbers as it has.
    fn most(&self) -> usize {
        self.full.len().wrapping_add(self.daily.len())
    }
}

// What a joined list comes to: how many numbers it has, the first and the last of them, and the largest gap minus 1.
#[derive(Drop)]
struct Extent {
    count: usize,
    first: u32,
    last: u32,
    largest: u32,
}

impl Extent {
    fn of(union: Union) -> Extent {
        let mut s = Extent {
            count: 0,
            first: 0,
            last: 0,
            largest: 0,
        };
        for x in union.take(union.most()) {
            s.push(x);
        }
        s
    }

    fn push(&mut self, x: u32) {
        if self.count == 0 {
            self.first = x;
        } else {
            self.largest = gap(self.last, x).max(self.largest);
        }
        self.last = x;
        self.count = self.count.wrapping_add(1);
    }
}

// The gap from a number to the next, minus 1.
fn gap(last: u32, x: u32) -> u32 {
    x.wrapping_sub(last).wrapping_sub(1)
}

// A full delivery and a daily one, with as many lists.
#[derive(Clone, Copy)]
struct Pair<'a> {
    full: Delivery<'a>,
    daily: Delivery<'a>,
}

impl<'a> Pair<'a> {
    fn count(&self) -> usize {
        self.full.lists.count
    }

    // Both lists k.
    fn union(&self, k: usize) -> Union<'a> {
        Union {
            full: self.full.part(k),
            daily: self.daily.part(k),
            floor: 0,
        }
    }

    // Whether a joined list is over 65,535.
    fn is_long(&self) -> bool {
        (0..self.count()).any(|k| 65535 < Extent::of(self.union(k)).count)
    }

    // Whether list k came in one or in both.
    fn is_delivered(&self, k: usize) -> bool {
        self.full.lists.is_delivered(k) || self.daily.lists.is_delivered(k)
    }
}

// The gaps behind the first number, each in a width; the position behind them.
fn put_gaps(row: &mut [u8], at: usize, union: Union, width: usize) -> usize {
    let mut rest = union;
    let mut behind = at;
    let mut last = rest.next().unwrap_or(0);
    for x in rest.take(rest.most()) {
        behind = put_field(row, behind, width, gap(last, x) as usize);
        last = x;
    }
    behind
}

// A delivered list behind its bit: its count, and what else it has by that.
fn put_numbers(row: &mut [u8], at: usize, union: Union) -> usize {
    let s = Extent::of(union);
    let counted = put_field(row, at, 16, s.count);
    if s.count == 0 {
        return counted;
    }
    let begun = put_field(row, counted, 32, s.first as usize);
    if s.count == 1 {
        return begun;
    }
    let width = width_of(s.largest);
    let known = put_field(row, begun, 5, width - 1);
    put_gaps(row, known, union, width)
}

// List k: its bit, and what is behind it. A list that did not come has no number.
fn put_list(row: &mut [u8], at: usize, pair: Pair, k: usize) -> usize {
    if pair.is_delivered(k) {
        let behind = put_field(row, at, 1, 1);
        return put_numbers(row, behind, pair.union(k));
    }
    put_field(row, at, 1, 0)
}

// The whole outcome with its fill, as far as the row goes; how many bits it has.
fn put_all(row: &mut [u8], pair: Pair) -> usize {
    let mut at = put_field(row, 0, 6, pair.count());
    for k in 0..pair.count() {
        at = put_list(row, at, pair, k);
    }
    put_field(row, at, fill(at), 0)
}

// What is joined of two deliveries that were read. How long the outcome is, writing it into no bytes tells.
fn write(row: &mut [u8], pair: Pair) -> Result<usize, Refusal> {
    if pair.full.lists.count != pair.daily.lists.count {
        return Err(Refusal::ListCountsDiffer);
    }
    if pair.is_long() {
        return Err(Refusal::ListTooLong);
    }
    let count = bytes(put_all(&mut [], pair));
    if row.len() < count {
        return Err(Refusal::NoRoom);
    }
    put_all(row, pair);
    Ok(count)
}

// The two joined into a row, of which the bytes behind the outcome are left alone, and with a refusal all; how many bytes were
// written. The numbers of each are laid into a row of their own, which is to have a place for all of them.
pub fn join(
    full: &[u8],
    daily: &[u8],
    row: &mut [u8],
    full_numbers: &mut [u32],
    daily_numbers: &mut [u32],
) -> Result<usize, Refusal> {
    let full_lists = reading::read(full, full_numbers)?;
    let daily_lists = reading::read(daily, daily_numbers)?;
    let pair = Pair {
        full: Delivery {
            numbers: full_numbers,
            lists: full_lists,
        },
        daily: Delivery {
            numbers: daily_numbers,
            lists: daily_lists,
        },
    };
    write(row, pair)
}
