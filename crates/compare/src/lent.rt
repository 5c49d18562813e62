// A case's lists and where its run begins, as the second evaluator takes them; and the engine's run and bounds from these. What else
// comes to lists, or to where a run begins, is handed on here.
use crate::rows::{front, rest};
use evaluator::{Begin, Lists};
use model::{BoundsResult, RunResult};

// What a run is asked of: numbers, how lists lie in them, and a packed expression.
#[derive(Clone, Copy)]
pub struct Source<'a> {
    pub numbers: &'a [u32],
    pub lists: Lists,
    pub packed: &'a [u8],
}

// The calls of a run: their codes, and a number for each.
#[derive(Clone, Copy)]
pub struct Calls<'a> {
    pub codes: &'a [u8],
    pub arguments: &'a [u32],
}

impl<'a> Calls<'a> {
    // A case's calls.
    pub fn of(made: &'a cases::Calls) -> Calls<'a> {
        Calls {
            codes: front(&made.codes, made.count),
            arguments: front(&made.arguments, made.count),
        }
    }

    // So many nexts, at most 4,097.
    pub fn nexts(n: usize) -> Calls<'static> {
        Calls {
            codes: front(&[0; 4097], n),
            arguments: front(&[0; 4097], n),
        }
    }

    // Those before call k, and those from it on.
    pub fn before(self, k: usize) -> Calls<'a> {
        Calls {
            codes: front(self.codes, k),
            arguments: front(self.arguments, k),
        }
    }

    pub fn from(self, k: usize) -> Calls<'a> {
        Calls {
            codes: rest(self.codes, k),
            arguments: rest(self.arguments, k),
        }
    }
}

impl Source<'_> {
    // A run of the engine.
    pub fn run(self, begin: Begin, calls: Calls, replies: &mut [u64]) -> RunResult {
        engine::run(
            self.numbers,
            ends_of(&self.lists),
            self.lists.word,
            self.packed,
            begin.bookmark,
            calls.codes,
            calls.arguments,
            replies,
        )
    }

    // The bounds that the engine gives.
    pub fn bounds(self) -> BoundsResult {
        bounds::bounds(ends_of(&self.lists), self.packed)
    }
}

pub fn lists_of(made: &cases::Lists) -> Lists {
    evaluator::laid(front(&made.ends, made.count), made.word)
}

// The ends of the lists that are there.
pub fn ends_of(lists: &Lists) -> &[u32] {
    front(&lists.ends, lists.count)
}

// The word's bits of lists that are there, of which there are at most 32; the others 0.
pub fn word_there(lists: &Lists) -> u32 {
    let there = u32::MAX.checked_shl(32 - lists.count.min(32) as u32);
    lists.word & there.unwrap_or(0)
}

// Whether every list was delivered.
pub fn all_delivered(lists: &Lists) -> bool {
    let all = Lists {
        word: u32::MAX,
        ..*lists
    };
    word_there(lists) == word_there(&all)
}

pub fn begin_of(made: cases::Begin) -> Begin {
    Begin {
        bookmark: made.bookmark,
    }
}

// Where the run behind this one begins.
pub fn last_of(ran: &RunResult) -> Begin {
    Begin {
        bookmark: ran.bookmark,
    }
}

// From the least number on.
pub fn first() -> Begin {
    Begin { bookmark: 0 }
}

pub fn same_begin(a: Begin, b: Begin) -> bool {
    a.bookmark == b.bookmark
}
