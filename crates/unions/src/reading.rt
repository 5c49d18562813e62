// A delivery read: its numbers laid into a row, and how they lie there in lists.
use crate::Refusal;
use crate::bits::{Bits, width_of};

// How numbers lie in a row in lists, at most 32: where each list ends, how many there are, and the word that says which were delivered,
// list 0 in its most significant bit. It runs without an allocator, so the ends are an array with a count.
#[derive(Clone, Copy)]
pub struct Lists {
    pub ends: [usize; 32],
    pub count: usize,
    pub word: u32,
}

impl Lists {
    // Whether list k came.
    pub fn is_delivered(&self, k: usize) -> bool {
        self.word >> (31 - k % 32) & 1 == 1
    }

    // Where list k begins: at the end of the list before it, the first at 0.
    fn start(&self, k: usize) -> usize {
        if k == 0 {
            return 0;
        }
        self.ends[(k - 1) % 32]
    }

    // The numbers of list k.
    pub fn part<'a>(&self, row: &'a [u32], k: usize) -> &'a [u32] {
        row.get(self.start(k)..self.ends[k % 32]).unwrap_or(&[])
    }

    // One list more, which ends behind the last number.
    fn push(&mut self, end: usize, delivered: bool) {
        let k = self.count % 32;
        self.ends[k] = end;
        self.count = k + 1;
        if delivered {
            self.word |= 1 << (31 - k);
        }
    }
}

// The numbers laid into a row, each behind the others; one that has no place counts all the same.
#[derive(Drop)]
struct Laid<'a> {
    row: &'a mut [u32],
    count: usize,
}

impl Laid<'_> {
    fn push(&mut self, x: u32) {
        if let Some(place) = self.row.get_mut(self.count) {
            *place = x;
        }
        self.count = self.count.wrapping_add(1);
    }
}

// The number that stands so far behind another and one more, unless it passes the greatest number.
fn behind(last: u32, gap: u32) -> Result<u32, Refusal> {
    last.checked_add(gap)
        .and_then(|x| x.checked_add(1))
        .ok_or(Refusal::NumberTooGreat)
}

// The numbers behind a list's first, so many by their gaps, in a width that no smaller one would do for.
fn read_gaps(bits: &mut Bits, first: u32, more: u32, laid: &mut Laid) -> Result<(), Refusal> {
    let width = bits.take(5)? as usize + 1;
    let mut last = first;
    let mut largest = 0;
    for _ in 0..more {
        let gap = bits.take(width)?;
        last = behind(last, gap)?;
        laid.push(last);
        largest = gap.max(largest);
    }
    if width == width_of(largest) {
        Ok(())
    } else {
        Err(Refusal::WidthTooGreat)
    }
}

// A delivered list behind its bit: its count, the first number, and from two on the width and the gaps.
fn read_list(bits: &mut Bits, laid: &mut Laid) -> Result<(), Refusal> {
    let count = bits.take(16)?;
    if count == 0 {
        return Ok(());
    }
    let first = bits.take(32)?;
    laid.push(first);
    if count == 1 {
        return Ok(());
    }
    read_gaps(bits, first, count - 1, laid)
}

// So many lists, at most 32.
fn read_lists(bits: &mut Bits, count: u32, laid: &mut Laid) -> Result<Lists, Refusal> {
    let mut lists = Lists {
        ends: [0; 32],
        count: 0,
        word: 0,
    };
    for _ in 0..count {
        let delivered = bits.take(1)? == 1;
        if delivered {
            read_list(bits, laid)?;
        }
        lists.push(laid.count, delivered);
    }
    Ok(lists)
}

// A delivery; each list is refused before the next, and only then bits behind the last, or a row that its numbers pass.
pub fn read(bytes: &[u8], row: &mut [u32]) -> Result<Lists, Refusal> {
    let room = row.len();
    let mut bits = Bits::new(bytes);
    let mut laid = Laid { row, count: 0 };
    let count = bits.take(6)?;
    if count == 0 || 32 < count {
        return Err(Refusal::BadListCount);
    }
    let lists = read_lists(&mut bits, count, &mut laid)?;
    if !bits.is_fill() {
        return Err(Refusal::BadFill);
    }
    if room < laid.count {
        return Err(Refusal::NoRoom);
    }
    Ok(lists)
}
