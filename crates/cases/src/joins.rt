// Two deliveries to join: what damages their bytes, and how many bytes are lent.
use crate::dice::{pick, roll};

// What the numbers of this file are drawn for.
const KIND: u64 = 700;

const PLACE: u64 = 701;

const VALUE: u64 = 702;

const ROOM: u64 = 703;

fn put(row: &mut [u8], at: usize, b: u8) {
    if let Some(place) = row.get_mut(at) {
        *place = b;
    }
}

fn turn(row: &mut [u8], at: usize, bit: u8) {
    if let Some(place) = row.get_mut(at) {
        *place ^= 1 << (bit % 8);
    }
}

// A place among so many bytes; in half of the cases among the first eight, where the first list's fields stand.
fn place(case: u64, which: u64, count: usize) -> usize {
    let at = pick(case, PLACE, which, count as u64) as usize;
    if pick(case, PLACE, 2 + which % 2, 2) == 0 {
        at % 8
    } else {
        at
    }
}

// The first so many bytes of a row damaged, those of the first delivery (0) or the second (1); how many they are then. Of 100 cases:
// as they were in 80, a bit turned in 9, a byte set in 5, the last byte cut off in 3, a byte added in 3, and then 0 in 1 of them.
pub fn spoiled(case: u64, which: u64, row: &mut [u8], count: usize) -> usize {
    let at = place(case, which, count);
    let value = (roll(case, VALUE, which) % 256) as u8;
    let p = pick(case, KIND, which, 100);
    match p {
        80..89 => turn(row, at, value),
        89..94 => put(row, at, value),
        97 => put(row, count, 0),
        98..100 => put(row, count, value),
        _ => {}
    }
    match p {
        0..94 => count,
        94..97 => count.wrapping_sub(1),
        _ => count.wrapping_add(1),
    }
}

// How many bytes are lent for an outcome of so many. Of 100 cases: as many in 15, one fewer in 8, a third in 2, else up to 8 more.
pub fn join_room(case: u64, count: usize) -> usize {
    let p = pick(case, ROOM, 0, 100) as usize;
    match p {
        0..15 => count,
        15..23 if 0 < count => count - 1,
        0..25 => count / 3,
        _ => count.wrapping_add(1 + p % 8),
    }
}
