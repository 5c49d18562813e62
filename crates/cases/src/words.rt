// The word beside the ends: a bit for each list, list 0 in the most significant one, 1 where it was delivered.
ghost use Rattle.std.specs.Prelude.{◌<◌};

use crate::dice::{pick, roll};
use crate::inputs::{Lists, narrow};

// What the numbers of this file are drawn for.
const WORD: u64 = 600;

const FAILS: u64 = 601;

const ALWAYS: u64 = 602;

// The bit of list k.
fn bit(k: usize) -> u32 {
    1u32 << (31 - k % 32)
}

pub fn is_delivered(word: u32, k: usize) -> bool {
    word & bit(k) != 0
}

// The word with list k's bit 1 or 0.
fn with_bit(word: u32, k: usize, delivered: bool) -> u32 {
    if delivered {
        word | bit(k)
    } else {
        word & !bit(k)
    }
}

// The word with list k's bit turned.
pub fn turned(word: u32, k: usize) -> u32 {
    word ^ bit(k)
}

pub fn any_word(case: u64) -> u32 {
    narrow(roll(case, WORD, 1))
}

// The one of so many lists that is delivered in every case, so that an expression has a list to name.
pub fn always(case: u64, count: u64) -> u64
    ensures { result < 4294967296 }
{
    pick(case, ALWAYS, 0, count)
}

fn is_empty(l: &Lists, k: usize) -> bool {
    l.start(k) == l.end(k)
}

// Whether an empty list failed to run: in half of the cases none did, in the others 70 of 100.
fn fails(case: u64, k: usize) -> bool {
    50 <= pick(case, FAILS, 0, 100) && pick(case, FAILS, 1 + k as u64 % 32, 100) < 70
}

// Whether list k was delivered: every list that has a number was.
fn comes(case: u64, l: &Lists, k: usize) -> bool {
    let none = is_empty(l, k) && k as u64 != always(case, l.count as u64);
    !none || !fails(case, k)
}

// A word that agrees with the lists; the bits of lists that are not there are any.
pub fn word_of(case: u64, l: Lists) -> u32 {
    let mut word = narrow(roll(case, WORD, 0));
    for k in 0..l.count {
        word = with_bit(word, k, comes(case, &l, k));
    }
    word
}

// The lists' word with no empty list delivered.
pub fn none_empty(l: Lists) -> u32 {
    let mut word = l.word;
    for k in 0..l.count {
        word = with_bit(word, k, !is_empty(&l, k));
    }
    word
}
