// Calls, and where a run begins and is broken off.
ghost use Rattle.std.specs.Prelude.{◌<◌, ◌≤◌};

use crate::dice::{pick, roll};
use crate::inputs::{Begin, Calls, Lists, narrow};
use crate::numbers::{candidate, candidates, is_long};

// What the numbers of this file are drawn for.
const STYLE: u64 = 300;

const COUNT: u64 = 301;

const CODE: u64 = 302;

const ARGUMENT: u64 = 303;

const NUMBER: u64 = 304;

const JUMP: u64 = 305;

const NUDGE: u64 = 306;

const BOOKMARK: u64 = 307;

const BREAK: u64 = 308;

const FAR: u64 = 309;

const LARGEST: u64 = 4294967295;

// The style of a case's calls.
#[derive(Clone, Copy)]
enum Style {
    // Any codes and arguments.
    Any,
    // 24 nexts.
    Nexts,
    // Checks of rising list numbers.
    Checks,
    // At or past and past, with falling arguments.
    Falling,
    // Any codes with rising arguments, so that the floor does not leave all numbers behind at once.
    Rising,
    // Any codes, the first arguments about 64 numbers of a far longer list apart, where readers hop.
    Far,
}

impl Style {
    // Of 100 cases: any in 24, nexts in 12, checks in 12, falling in 10, rising in 42. Of 100 cases where one list is far longer, 60 are
    // far.
    fn of(case: u64) -> Style {
        if is_long(case) && pick(case, STYLE, 1, 100) < 60 {
            return Style::Far;
        }
        match pick(case, STYLE, 0, 100) {
            0..24 => Style::Any,
            24..36 => Style::Nexts,
            36..48 => Style::Checks,
            48..58 => Style::Falling,
            _ => Style::Rising,
        }
    }
}

// 0 to 24 calls, and 24 of them where all are nexts.
fn count(case: u64, how: Style) -> usize
    ensures { result ≤ 24 }
{
    match how {
        Style::Nexts => 24,
        _ => (roll(case, COUNT, 0) % 25) as usize,
    }
}

// Any code: next in 38 of 100 calls, check in 30, at or past in 13, past in 13, unknown in 6.
fn any_code(case: u64, index: u64) -> u8 {
    match pick(case, CODE, index, 100) {
        0..38 => 0,
        38..68 => 3,
        68..81 => 1,
        81..94 => 2,
        94..96 => 4,
        96..98 => 5,
        _ => 255,
    }
}

fn code(case: u64, how: Style, index: u64) -> u8 {
    match how {
        Style::Nexts => 0,
        Style::Checks => 3,
        Style::Falling => (1 + roll(case, CODE, index) % 2) as u8,
        _ => any_code(case, index),
    }
}

// A number of the lists, or any where they have none.
fn listed(case: u64, index: u64, l: &Lists) -> u64
    ensures { result < 4294967296 }
{
    let r = roll(case, NUMBER, index);
    let numbers = l.in_use();
    if numbers.is_empty() {
        return r;
    }
    u64::from(numbers[(r % numbers.len() as u64) as usize])
}

// A number, or a neighbour of it where there is one: 20 of 100 each.
pub fn nudged(case: u64, index: u64, x: u64) -> u64
    ensures { result < 4294967296 }
{
    let y = x % 4294967296;
    match pick(case, NUDGE, index, 100) {
        0..20 => (y + 1).min(LARGEST),
        20..40 => y.saturating_sub(1),
        _ => y,
    }
}

// Any argument: a list number or its neighbour in 65 of 100 calls, a small one in 20, 0 in 8,
// 4294967295 in 3, anything in 4. After the last two little is left to find, so they are rare.
pub fn any_argument(case: u64, index: u64, l: Lists) -> u64
    ensures { result < 4294967296 }
{
    let r = roll(case, ARGUMENT, 1000 + index % 1000);
    match pick(case, ARGUMENT, index, 100) {
        0..65 => nudged(case, index, listed(case, index, &l)),
        65..85 => r % 60,
        85..93 => 0,
        93..96 => LARGEST,
        _ => r,
    }
}

// The least number of the lists that is not below the floor, or 4294967295.
fn least_from(l: &Lists, floor: u64) -> u64 {
    let numbers = l.in_use().iter().map(|x| u64::from(*x));
    numbers.filter(|x| floor <= *x).min().unwrap_or(LARGEST)
}

// The largest number of the lists that is not above the ceiling, or 0.
fn largest_to(l: &Lists, ceiling: u64) -> u64 {
    let numbers = l.in_use().iter().map(|x| u64::from(*x));
    numbers.filter(|x| *x <= ceiling).max().unwrap_or(0)
}

// How far apart rising or falling arguments are at least: 0 in 30 of 100 calls, 1 in 55, 2 to 9 else.
fn jump(case: u64, index: u64) -> u64
    ensures { result ≤ 9 }
{
    match pick(case, JUMP, index, 100) {
        0..30 => 0,
        30..85 => 1,
        p => 2 + p % 8,
    }
}

// A falling argument; the first is any list number.
fn falling(case: u64, index: u64, last: u32, l: &Lists) -> u64 {
    if index == 0 {
        return listed(case, 0, l);
    }
    match u64::from(last).checked_sub(jump(case, index)) {
        Some(ceiling) => largest_to(l, ceiling),
        None => 0,
    }
}

// How many numbers of a far longer list the first far argument leaves behind it, give or take a few: nearly 64 in 40 of 100 cases, so
// that readers hop from the list's start; else fewer, so that they hop from the middle.
fn far_start(case: u64) -> u64
    ensures { result ≤ 61 }
{
    if pick(case, FAR, 0, 100) < 40 {
        61
    } else {
        roll(case, FAR, 1) % 61
    }
}

// A number of the far longer list, or its neighbour, about 64 places behind that of the call before; any argument behind its end.
fn far(case: u64, index: u64, l: &Lists) -> u64
    ensures { result < 4294967296 }
{
    let i = index % 32;
    let slot = far_start(case) + i * 64 + roll(case, FAR, 2 + i) % 5;
    let n = candidates(case);
    if slot < n {
        nudged(case, index, candidate(case, n, slot))
    } else {
        any_argument(case, index, *l)
    }
}

// The argument of a call, after the one of the call before it.
fn argument(case: u64, how: Style, index: u64, last: u32, l: &Lists) -> u64 {
    let from = u64::from(last) + jump(case, index);
    match how {
        Style::Checks => least_from(l, from),
        Style::Falling => falling(case, index, last, l),
        Style::Rising => nudged(case, index, least_from(l, from)),
        Style::Far => far(case, index, l),
        Style::Any | Style::Nexts => any_argument(case, index, *l),
    }
}

// The calls of a run over these lists.
pub fn calls(case: u64, l: Lists) -> Calls
    ensures { result.count ≤ 24 }
{
    let how = Style::of(case);
    let n = count(case, how);
    let mut codes = [0; 32];
    let mut arguments = [0; 32];
    let mut last = 0;
    for i in 0..n {
        last = narrow(argument(case, how, i as u64, last, &l));
        codes[i] = code(case, how, i as u64);
        arguments[i] = last;
    }
    Calls {
        codes,
        arguments,
        count: n,
    }
}

// A bookmark: 0 in 60 of 100 cases, 4294967296 and 4294967295 in 5 each, a list number in 12, one
// more than a list number in 10, any in 8.
fn bookmark(case: u64, l: &Lists) -> u64
    ensures { result ≤ 4294967296 }
{
    match pick(case, BOOKMARK, 0, 100) {
        0..60 => 0,
        60..65 => 4294967296,
        65..70 => LARGEST,
        70..82 => listed(case, 1000, l),
        82..92 => listed(case, 1000, l) + 1,
        _ => roll(case, BOOKMARK, 1) % 4294967297,
    }
}

// Where a run over these lists begins.
pub fn begins(case: u64, l: Lists) -> Begin {
    Begin {
        bookmark: bookmark(case, &l),
    }
}

// Where a run of so many calls is broken off: before the first in 15 of 100 cases, after the last in
// 15, and else anywhere, both ends included.
pub fn breaking(case: u64, count: usize) -> usize
    ensures { result ≤ count }
{
    match pick(case, BREAK, 0, 100) {
        0..15 => 0,
        15..30 => count,
        _ => ((roll(case, BREAK, 1) % (count as u64 % 4294967296 + 1)) as usize).min(count),
    }
}
