// Inputs that are mostly to be refused.
ghost use Rattle.std.specs.Prelude.{◌<◌, ◌≤◌, ◌≡◌};

use crate::dice::{pick, roll};
use crate::inputs::{Begin, Bytes, Lists, narrow};
use crate::words::{any_word, none_empty, turned};

// What the numbers of this file are drawn for.
const KIND: u64 = 400;

const PLACE: u64 = 401;

const VALUE: u64 = 402;

const LISTS: u64 = 403;

const MARK: u64 = 404;

const WORD: u64 = 405;

// The bytes with one of them changed: a bit turned, or another value put.
fn changed(case: u64, b: Bytes, turned: bool) -> Bytes
    ensures { result.count ≡ b.count }
{
    if b.count == 0 {
        return b;
    }
    let mut d = b;
    let at = (roll(case, PLACE, 0) % b.count as u64 % 64) as usize;
    let value = (roll(case, VALUE, 0) % 256) as u8;
    let bit = 1 << (value % 8);
    d.bytes[at] = if turned { b.bytes[at] ^ bit } else { value };
    d
}

// The bytes with one more, where there is room for it.
fn with_byte(b: Bytes, byte: u8) -> Bytes
    requires { b.count ≤ 64 }
    ensures { result.count ≤ 64 }
{
    let mut d = b;
    if b.count < 64 {
        d.bytes[b.count] = byte;
        d.count = b.count + 1;
    }
    d
}

// A packed expression with a bit turned (45 of 100 cases), a byte set (20), its last byte cut off
// (17) or a byte added (18, half of them 0). Where there is no byte, or no room for one, it is as it
// was.
pub fn damaged(case: u64, b: Bytes) -> Bytes
    ensures { result.count ≤ 64 }
{
    let n = b.count % 65;
    let whole = Bytes { count: n, ..b };
    match pick(case, KIND, 0, 100) {
        0..45 => changed(case, whole, true),
        45..65 => changed(case, whole, false),
        65..82 => Bytes {
            count: n.saturating_sub(1),
            ..b
        },
        82..91 => with_byte(whole, 0),
        _ => with_byte(whole, (roll(case, VALUE, 1) % 256) as u8),
    }
}

// The lists with no more of them, and no more numbers in use, than there is room for. Any lists may be handed in; those that `lists`
// makes fit.
fn fitted(l: Lists) -> Lists
    ensures fits { (result.used ≤ 512) × (result.count ≤ 32) }
    ensures same { (l.used ≤ 512) × (l.count ≤ 32) → (result.used ≡ l.used) × (result.count ≡ l.count) }
{
    Lists {
        used: l.used.min(512),
        count: l.count.min(32),
        ..l
    }
}

// The lists with two neighbouring ends swapped.
fn swapped(l: Lists, at: usize) -> Lists
    ensures fits { (result.used ≤ 512) × (result.count ≤ 32) }
    ensures same { (l.used ≤ 512) × (l.count ≤ 32) → (result.used ≡ l.used) × (result.count ≡ l.count) }
{
    let mut d = fitted(l);
    let place = at % 31;
    d.ends.swap(place, place + 1);
    d
}

// The lists with another end at a place.
fn with_end(l: Lists, at: usize, end: u64) -> Lists
    ensures fits { (result.used ≤ 512) × (result.count ≤ 32) }
    ensures same { (l.used ≤ 512) × (l.count ≤ 32) → (result.used ≡ l.used) × (result.count ≡ l.count) }
{
    let mut d = fitted(l);
    d.ends[at % 32] = narrow(end);
    d
}

// The lists with a number so far above the one behind it.
fn with_number(l: Lists, at: usize, above: u64) -> Lists
    ensures fits { (result.used ≤ 512) × (result.count ≤ 32) }
    ensures same { (l.used ≤ 512) × (l.count ≤ 32) → (result.used ≡ l.used) × (result.count ≡ l.count) }
{
    let mut d = fitted(l);
    let place = at % 511;
    d.numbers[place] = l.numbers[place + 1].wrapping_add(narrow(above));
    d
}

// The lists with another word.
fn with_word(l: Lists, word: u32) -> Lists
    ensures fits { (result.used ≤ 512) × (result.count ≤ 32) }
    ensures same { (l.used ≤ 512) × (l.count ≤ 32) → (result.used ≡ l.used) × (result.count ≡ l.count) }
{
    let mut d = fitted(l);
    d.word = word;
    d
}

// None of the lists.
fn emptied(l: Lists) -> Lists
    ensures { (result.used ≤ 512) × (result.count ≡ 0) }
{
    let mut d = fitted(l);
    d.count = 0;
    d
}

// One less than a count, and at least 1: so many places have one behind them.
fn but_last(count: usize) -> usize
    ensures least { 1 ≤ result }
    ensures most { 2 ≤ count → result < count }
    ensures one { count < 2 → result ≡ 1 }
{
    count.saturating_sub(1).max(1)
}

// Some place below a count, or 0.
fn below(case: u64, count: usize) -> usize
    ensures { 1 ≤ count → result < count }
{
    pick(case, LISTS, 1, count as u64) as usize
}

// Lists with a fault in their numbers or ends. Of 100 cases: two ends swapped in 18, an end past the row in 14, far past it
// in 4 of these, an end lowered in 14 or raised in 12 by one to four, a number equal to the next in 16
// or above it in 16, no lists in 4, no fault in 6. A fault that hits two equal ends, or numbers of two
// lists, can leave accepted lists.
fn damaged_rows(case: u64, l: Lists) -> Lists
    ensures { (result.used ≤ 512) × (result.count ≤ 32) }
{
    let l = fitted(l);
    let r = 1 + roll(case, LISTS, 2) % 4;
    let list = below(case, l.count);
    let old = l.end(list);
    match pick(case, LISTS, 0, 100) {
        0..18 => swapped(l, below(case, but_last(l.count))),
        18..22 => with_end(l, list, 4294967295),
        22..32 => with_end(l, list, l.used as u64 + r),
        32..46 => with_end(l, list, old.saturating_sub(r)),
        46..58 => with_end(l, list, old + r),
        58..74 => with_number(l, below(case, but_last(l.used)), 0),
        74..90 => with_number(l, below(case, but_last(l.used)), r),
        90..94 => emptied(l),
        _ => l,
    }
}

// Lists with one fault. Of 100 cases: one list's bit turned in 12, no empty list delivered in 12, any word in 6, else a fault in
// numbers or ends. A word can contradict the ends, leave a list that the expression names undelivered, or be accepted.
pub fn damaged_lists(case: u64, l: Lists) -> Lists
    ensures { (result.used ≤ 512) × (result.count ≤ 32) }
{
    let l = fitted(l);
    match pick(case, WORD, 0, 100) {
        0..12 => with_word(l, turned(l.word, below(case, l.count))),
        12..24 => with_word(l, none_empty(l)),
        24..30 => with_word(l, any_word(case)),
        _ => damaged_rows(case, l),
    }
}

// The bookmark in 90 of 100 cases, and else one above 4294967296: the next one, or the largest.
fn bad_bookmark(case: u64, b: u64) -> u64 {
    match pick(case, MARK, 0, 100) {
        0..90 => b,
        90..95 => 4294967297,
        _ => u64::MAX,
    }
}

// Where a run begins, which may be refused.
pub fn bad_begins(case: u64, b: Begin) -> Begin {
    Begin {
        bookmark: bad_bookmark(case, b.bookmark),
    }
}
