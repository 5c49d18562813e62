// Lists. Each case has a universe, a rising row of candidates, and each list keeps some of them, so
// every list ascends strictly whatever is kept.
ghost use Rattle.std.specs.Prelude.{◌≤◌, ◌≡◌};

use crate::dice::{pick, roll};
use crate::inputs::{Lists, narrow};
use crate::words::word_of;

// What the numbers of this file are drawn for.
const COUNT: u64 = 100;

const UNIVERSE: u64 = 101;

const SIZE: u64 = 102;

const BASE: u64 = 103;

const JITTER: u64 = 104;

const RELATION: u64 = 105;

const DENSITY: u64 = 106;

const KEEP: u64 = 107;

const BLOCK: u64 = 108;

const LONG: u64 = 109;

const DAILY: u64 = 110;

// The lists of a daily delivery are numbered from here on, so that each has a choice and a density of its own.
const DAILY_LISTS: u64 = 32;

// The index of a daily delivery's word among the cases.
const DAILY_WORDS: u64 = 1099511627776;

// How many lists: 1 in 8 of 100 cases, 2 to 6 in 76, 7 to 12 in 10, 13 to 31 in 3, 32 in 3.
fn count(case: u64) -> u64
    ensures { (1 ≤ result) × (result ≤ 32) }
{
    let r = roll(case, COUNT, 1);
    match pick(case, COUNT, 0, 100) {
        0..8 => 1,
        8..84 => 2 + r % 5,
        84..94 => 7 + r % 6,
        94..97 => 13 + r % 19,
        _ => 32,
    }
}

// How many lists a daily delivery has: as many as the case's own in 94 of 100 cases, one more in 2, and else any number.
fn daily_count(case: u64) -> u64
    ensures { (1 ≤ result) × (result ≤ 32) }
{
    let n = count(case);
    match pick(case, DAILY, 0, 100) {
        0..94 => n,
        94..96 => n % 32 + 1,
        _ => 1 + roll(case, DAILY, 1) % 32,
    }
}

// How the lists of a case go together.
#[derive(Clone, Copy)]
enum Relation {
    // Each keeps candidates by itself.
    Apart,
    // One choice and one density, so all are equal.
    Equal,
    // One choice and several densities, so each is a subset of the denser ones.
    Nested,
    // No candidate in two neighbouring lists.
    Interleaved,
    // Runs of neighbours.
    Runs,
    // One list has every candidate and the others few.
    Long,
}

impl Relation {
    // Of 100 cases: apart in 48, equal in 8, nested in 12, interleaved in 12, runs in 10, one long in 10.
    fn of(case: u64) -> Relation {
        match pick(case, RELATION, 0, 100) {
            0..48 => Relation::Apart,
            48..56 => Relation::Equal,
            56..68 => Relation::Nested,
            68..80 => Relation::Interleaved,
            80..90 => Relation::Runs,
            _ => Relation::Long,
        }
    }
}

// Whether one list of a case has every candidate, and so is far longer than the others.
pub fn is_long(case: u64) -> bool {
    matches!(Relation::of(case), Relation::Long)
}

// How many candidates such a case has: 40 to 200, and in half of the cases as many as one, two or three hops take, or a number less
// or more.
fn long_size(case: u64) -> u64
    ensures { result ≤ 200 }
{
    let r = roll(case, LONG, 0);
    if pick(case, LONG, 2, 100) < 50 {
        40 + r % 161
    } else {
        63 + r % 3 * 64 + r / 3 % 3
    }
}

// How many candidates: 20 in 70 of 100 cases, 40 in 15, 8 in 15; more where one list is far longer.
pub fn candidates(case: u64) -> u64
    ensures { result ≤ 200 }
{
    if is_long(case) {
        return long_size(case);
    }
    match pick(case, SIZE, 0, 100) {
        0..70 => 20,
        70..85 => 40,
        _ => 8,
    }
}

// How many candidates a list is offered: of a daily delivery's none in 25 of 100.
fn offered(case: u64, list: u64) -> u64
    ensures { result ≤ 200 }
{
    if DAILY_LISTS <= list && pick(case, DAILY, list, 100) < 25 {
        return 0;
    }
    candidates(case)
}

// A candidate of a universe of n. Of 100 cases: 45 from 0 on, 17 up to 4294967295, 10 with a half at
// each end of the range, 13 spread over the whole range, 15 from a small number on with gaps.
pub fn candidate(case: u64, n: u64, slot: u64) -> u64 {
    let s = slot % 256;
    let top = 4294967296 - n % 256 + s;
    match pick(case, UNIVERSE, 0, 100) {
        0..45 => s,
        45..62 => top,
        62..72 if s < n / 2 => s,
        62..72 => top,
        // The jitter is half a step at most, so that the candidates still rise.
        72..85 => (s * 4294967296 + roll(case, JITTER, slot) % 2147483648) / (n % 256 + 1),
        _ => roll(case, BASE, 0) % 1000 + s * 5 + roll(case, JITTER, slot) % 5,
    }
}

// How many of 16 candidates a list keeps: none in 11 of 100 lists, 1 to 3 in 17, 4 to 8 in 40, 9 to
// 13 in 22, all in 10.
fn density(case: u64, list: u64) -> u64
    ensures { result ≤ 16 }
{
    let r = roll(case, DENSITY, 1000 + list % 1000);
    match pick(case, DENSITY, list, 100) {
        0..11 => 0,
        11..28 => 1 + r % 3,
        28..68 => 4 + r % 5,
        68..90 => 9 + r % 5,
        _ => 16,
    }
}

// The choice of a list at a slot, the same for all lists of one key.
fn chance(case: u64, key: u64, slot: u64) -> u64
    ensures { result ≤ 15 }
{
    roll(case, KEEP, key % 64 * 1024 + slot % 1024) % 16
}

// Whether a list keeps the candidate at a slot.
fn keeps(case: u64, list: u64, slot: u64) -> bool {
    let own = density(case, list);
    match Relation::of(case) {
        Relation::Apart => chance(case, list, slot) < own,
        Relation::Equal => chance(case, 0, slot) < 1 + density(case, 0) % 16,
        Relation::Nested => chance(case, 0, slot) < own,
        Relation::Interleaved => {
            let m = 2 + roll(case, BLOCK, 0) % 3;
            slot % m == list % m && chance(case, list, slot) < 13
        }
        Relation::Runs => chance(case, list, slot / (2 + roll(case, BLOCK, 1) % 5)) < own,
        Relation::Long => {
            list % 32 == roll(case, LONG, 1) % count(case) || chance(case, list, slot) < 1
        }
    }
}

// Where the next number of the row goes, once a list was offered the candidate at a slot.
fn next_place(case: u64, list: u64, slot: u64, place: usize) -> usize
    requires { place ≤ 511 }
    ensures { result ≤ 511 }
{
    if place < 511 && keeps(case, list, slot) {
        place + 1
    } else {
        place
    }
}

// The lists with one more. A candidate is written before it is known whether it stays, and the next
// one takes its place if it does not.
fn with_list(l: Lists, case: u64, list: u64) -> Lists
    requires { l.used ≤ 511 }
    ensures { (result.used ≤ 511) × (1 ≤ result.count) × (result.count ≤ 32) }
{
    let n = offered(case, list);
    let mut numbers = l.numbers;
    let mut place = l.used;
    for slot in 0..n {
        numbers[place] = narrow(candidate(case, n, slot));
        place = next_place(case, list, slot, place);
    }
    let mut ends = l.ends;
    let at = l.count % 32;
    ends[at] = place as u32;
    Lists {
        numbers,
        ends,
        count: at + 1,
        used: place,
        word: l.word,
    }
}

// The row before its first list.
fn no_lists() -> Lists
    ensures { result.used ≡ 0 }
{
    Lists {
        numbers: [0; 512],
        ends: [0; 32],
        count: 0,
        used: 0,
        word: 0,
    }
}

// The lists with their word.
fn with_word(l: Lists, case: u64) -> Lists
    ensures { (result.used ≡ l.used) × (result.count ≡ l.count) }
{
    let mut m = l;
    m.word = word_of(case, l);
    m
}

// So many lists, numbered from a number on, at least one.
fn lists_from(case: u64, first: u64, n: u64) -> Lists
    ensures { (result.used ≤ 511) × (1 ≤ result.count) × (result.count ≤ 32) }
{
    let mut l = with_list(no_lists(), case, first);
    for k in 1..n {
        l = with_list(l, case, first.wrapping_add(k));
    }
    l
}

// Accepted lists: the ends ascend, each list ascends strictly, the last end is the numbers used, and every list that has a number was
// delivered.
pub fn lists(case: u64) -> Lists
    ensures { (result.used ≤ 512) × (1 ≤ result.count) × (result.count ≤ 32) }
{
    with_word(lists_from(case, 0, count(case)), case)
}

// Accepted lists of a daily delivery beside these, of the same candidates.
pub fn daily_lists(case: u64) -> Lists
    ensures { (result.used ≤ 512) × (1 ≤ result.count) × (result.count ≤ 32) }
{
    with_word(
        lists_from(case, DAILY_LISTS, daily_count(case)),
        case.wrapping_add(DAILY_WORDS),
    )
}
