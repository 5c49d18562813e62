// The lists of a line, laid into a row. A word of them is a number; or A..B, the numbers from A up to B, that one left out; or
// A..B:S, every Sth of these from A on; or the '/' between two lists.
use crate::fault::Fault;
use crate::line::{Fields, decimal, decimal_32, is_blank};
use std::alloc::Global;

// How many numbers a line can have, those of a list of the greatest length and one more, and how many lists.
const NUMBERS: usize = 65536;

const ENDS: usize = 80;

// The numbers that were laid so far, and where the lists that have ended end.
#[derive(Drop)]
pub struct Laid {
    pub numbers: Vec<u32>,
    pub ends: Vec<u32>,
}

// The numbers that a word stands for: from the first up to an end, that one left out, and how far each is above the one before it.
#[derive(Clone, Copy)]
struct Stretch {
    first: u64,
    end: u64,
    step: usize,
}

fn stretch_of(word: &[u8]) -> Option<Stretch> {
    let Some(dots) = word.iter().position(|b| *b == b'.') else {
        let first = u64::from(decimal_32(word)?);
        return Some(Stretch {
            first,
            end: first + 1,
            step: 1,
        });
    };
    let (first, behind) = word.split_at_checked(dots)?;
    let mut parts = behind.strip_prefix(b"..")?.splitn(2, |b| *b == b':');
    let end = decimal(parts.next()?).filter(|end| *end <= 1 << 32)?;
    let step = parts.next().map_or(Some(1), decimal_32)?;
    Some(Stretch {
        first: u64::from(decimal_32(first)?),
        end,
        step: step as usize,
    })
}

impl Laid {
    // Numbers more; what passes the row does not read.
    fn with_stretch(&mut self, s: Stretch) -> Result<(), Fault> {
        if s.step == 0 {
            return Err(Fault::Unread);
        }
        for x in (s.first..s.end).step_by(s.step) {
            if self.numbers.len() == NUMBERS {
                return Err(Fault::Unread);
            }
            self.numbers
                .push(u32::try_from(x).map_err(|_| Fault::Unread)?)?;
        }
        Ok(())
    }

    // One list more, which ends behind the last number.
    fn with_end(&mut self) -> Result<(), Fault> {
        if self.ends.len() == ENDS {
            return Err(Fault::Unread);
        }
        let end = u32::try_from(self.numbers.len()).map_err(|_| Fault::Unread)?;
        self.ends.push(end)?;
        Ok(())
    }

    // The words of a field.
    fn read(alloc: Global, s: &[u8]) -> Result<Laid, Fault> {
        let mut laid = Laid {
            numbers: Vec::new(alloc),
            ends: Vec::new(alloc),
        };
        for word in s.split(|b| is_blank(*b)) {
            match word {
                b"" => {}
                b"/" => laid.with_end()?,
                _ => laid.with_stretch(stretch_of(word).ok_or(Fault::Unread)?)?,
            }
        }
        Ok(laid)
    }

    // Field k of a line: lists. The last one has no '/' behind it.
    pub fn lists(alloc: Global, line: Fields, k: usize) -> Result<Laid, Fault> {
        let mut laid = Laid::read(alloc, line.field(k))?;
        laid.with_end()?;
        Ok(laid)
    }

    // Field k of a line: numbers, of which another field says how they lie in lists.
    pub fn numbers(alloc: Global, line: Fields, k: usize) -> Result<Vec<u32>, Fault> {
        let laid = Laid::read(alloc, line.field(k))?;
        if laid.ends.is_empty() {
            Ok(laid.numbers)
        } else {
            Err(Fault::Unread)
        }
    }
}
