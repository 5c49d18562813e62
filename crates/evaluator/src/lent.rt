// The lent lists: where each one begins and ends, and what the paper refuses of them.
use crate::Refusal;

// How the lent numbers lie in lists: how many lists there are, where each ends, and the word that says which were delivered. Whatever
// else is said of lists belongs here; the numbers stay a slice beside it, since a struct is handed on by value. There is room for more
// ends than are accepted, so that these can be handed in. It runs without an allocator, so the ends are an array with a count.
#[derive(Clone, Copy)]
pub struct Lists {
    pub ends: [u32; 80],
    pub count: usize,
    pub word: u32,
}

// Lists with these ends and this word. The ends behind the 80th are left out; so many lists are refused for their count.
pub fn laid(ends: &[u32], word: u32) -> Lists {
    let mut row = [0u32; 80];
    for (place, end) in row.iter_mut().zip(ends) {
        *place = *end;
    }
    Lists {
        ends: row,
        count: ends.len(),
        word,
    }
}

impl Lists {
    // The ends of the lists that are there, at most 80.
    pub(crate) fn stops(&self) -> &[u32] {
        self.ends.get(..self.count).unwrap_or(&self.ends)
    }

    // Whether list k, which is there, was delivered: its bit of the word is 1. The bit of list 0 is the most significant one.
    pub(crate) fn is_delivered(&self, k: usize) -> bool {
        self.word >> (31 - k % 32) & 1 == 1
    }

    // Where list k ends, 0 if there is no such list.
    fn end(&self, k: usize) -> u32 {
        self.stops().get(k).copied().unwrap_or(0)
    }

    // Where list k begins: at the end of the list before it, the first at 0.
    fn start(&self, k: usize) -> u32 {
        if k == 0 { 0 } else { self.end(k - 1) }
    }

    // How many numbers list k has, 0 if its end lies before its start.
    pub(crate) fn size(&self, k: usize) -> u32 {
        self.end(k).saturating_sub(self.start(k))
    }

    // The last end.
    pub(crate) fn used(&self) -> usize {
        self.start(self.stops().len()) as usize
    }

    // The numbers of list k.
    pub(crate) fn part<'a>(&self, numbers: &'a [u32], k: usize) -> &'a [u32] {
        numbers
            .get(self.start(k) as usize..self.end(k) as usize)
            .unwrap_or(&[])
    }

    // How many numbers list k may have.
    fn most(&self, k: usize) -> u32 {
        if self.is_delivered(k) { 65535 } else { 0 }
    }

    // Whether list k's end neither falls nor passes the row, and the list is not over 65,535, or has no number if it was not delivered.
    fn is_sized(&self, k: usize, row: usize) -> bool {
        let to = self.end(k);
        self.start(k) <= to && to as usize <= row && self.size(k) <= self.most(k)
    }

    // What is refused of the ends of lists in so long a row.
    pub(crate) fn check_ends(&self, row: usize) -> Result<(), Refusal> {
        if self.count == 0 || 32 < self.count {
            return Err(Refusal::BadListCount);
        }
        if (0..self.count).all(|k| self.is_sized(k, row)) {
            Ok(())
        } else {
            Err(Refusal::BadEnds)
        }
    }

    // What is refused of the lists: of all ends first, and then of all numbers.
    pub(crate) fn check(&self, numbers: &[u32]) -> Result<(), Refusal> {
        self.check_ends(numbers.len())?;
        if (0..self.count).all(|k| is_ascending(self.part(numbers, k))) {
            Ok(())
        } else {
            Err(Refusal::NotAscending)
        }
    }
}

fn is_ascending(part: &[u32]) -> bool {
    part.iter().zip(part.iter().skip(1)).all(|(a, b)| a < b)
}
