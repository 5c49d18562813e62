// A line of the script cut into fields, and a field read.
use crate::fault::Fault;
use std::alloc::Global;

// How many elements a field can have.
const ROOM: usize = 80;

// A line of the script, its fields divided by '|'. Field k is that behind k of these, with no blanks around it; a field that is not
// there is empty.
#[derive(Clone, Copy)]
pub struct Fields<'a>(pub &'a [u8]);

// The calls of a run: their codes, and a number for each.
#[derive(Drop)]
pub struct Calls {
    pub codes: Vec<u8>,
    pub arguments: Vec<u32>,
}

// A space, a tab, or the carriage return before a line's end.
pub fn is_blank(b: u8) -> bool {
    matches!(b, b' ' | b'\t' | b'\r')
}

// With no blanks around it.
pub fn trimmed(s: &[u8]) -> &[u8] {
    let front = s.iter().position(|b| !is_blank(*b)).unwrap_or(s.len());
    let back = s
        .iter()
        .rposition(|b| !is_blank(*b))
        .map_or(front, |i| i.wrapping_add(1));
    s.get(front..back).unwrap_or(&[])
}

// A number of decimal digits alone.
pub fn decimal(word: &[u8]) -> Option<u64> {
    if word.is_empty() {
        return None;
    }
    let mut n: u64 = 0;
    for b in word {
        let digit = b.checked_sub(b'0').filter(|d| *d < 10)?;
        n = n.checked_mul(10)?.checked_add(u64::from(digit))?;
    }
    Some(n)
}

pub fn decimal_32(word: &[u8]) -> Option<u32> {
    u32::try_from(decimal(word)?).ok()
}

fn decimal_8(word: &[u8]) -> Option<u8> {
    u8::try_from(decimal(word)?).ok()
}

fn digit(b: u8) -> Option<u8> {
    match b {
        b'0'..=b'9' => Some(b - b'0'),
        b'A'..=b'F' => Some(b - b'A' + 10),
        b'a'..=b'f' => Some(b - b'a' + 10),
        _ => None,
    }
}

// A byte of two hexadecimal digits.
fn hexadecimal(word: &[u8]) -> Option<u8> {
    match word {
        [high, low] => Some(digit(*high)?.wrapping_mul(16) | digit(*low)?),
        _ => None,
    }
}

// The code that a word stands for; next, which is 0, is the only one with no number behind it.
fn code(word: &[u8]) -> Option<u8> {
    match word {
        b"next" => Some(0),
        b"at-or-past" => Some(1),
        b"past" => Some(2),
        b"check" => Some(3),
        _ => decimal_8(word.strip_prefix(b"code-")?),
    }
}

impl Calls {
    fn push(&mut self, code: u8, argument: u32) -> Result<(), Fault> {
        if self.codes.len() == ROOM {
            return Err(Fault::Unread);
        }
        self.codes.push(code)?;
        self.arguments.push(argument)?;
        Ok(())
    }
}

impl<'a> Fields<'a> {
    pub fn count(self) -> usize {
        self.0.split(|b| *b == b'|').count()
    }

    pub fn field(self, k: usize) -> &'a [u8] {
        self.0.split(|b| *b == b'|').nth(k).map_or(&[], trimmed)
    }

    pub fn name(self) -> &'a [u8] {
        self.field(0)
    }

    // One number.
    pub fn one(self, k: usize) -> Result<u64, Fault> {
        decimal(self.field(k)).ok_or(Fault::Unread)
    }

    pub fn one_32(self, k: usize) -> Result<u32, Fault> {
        decimal_32(self.field(k)).ok_or(Fault::Unread)
    }

    pub fn one_8(self, k: usize) -> Result<u8, Fault> {
        decimal_8(self.field(k)).ok_or(Fault::Unread)
    }

    // A place or a length.
    pub fn size(self, k: usize) -> Result<usize, Fault> {
        Ok(self.one(k)? as usize)
    }

    // A number at most so great, which may be missing: a line that ends before it has the default. A field that is there is read,
    // and an empty one is no number.
    pub fn one_or(self, k: usize, most: usize, default: usize) -> Result<usize, Fault> {
        if self.count() <= k {
            return Ok(default);
        }
        let n = self.size(k)?;
        if n <= most { Ok(n) } else { Err(Fault::Unread) }
    }

    // A room of at most so many places: of so many where it is missing.
    pub fn room(self, k: usize, most: usize) -> Result<usize, Fault> {
        self.one_or(k, most, most)
    }

    // The words of a field, each of which `read` makes an element of.
    fn row<T: Drop, F: Fn(&[u8]) -> Option<T>>(
        self,
        alloc: Global,
        k: usize,
        read: F,
    ) -> Result<Vec<T>, Fault>
    where
        requires { F.IsAlwaysCallable read }
    {
        let mut row = Vec::new(alloc);
        for word in self.field(k).split(|b| is_blank(*b)) {
            if word.is_empty() {
                continue;
            }
            if row.len() == ROOM {
                return Err(Fault::Unread);
            }
            row.push(read(word).ok_or(Fault::Unread)?)?;
        }
        Ok(row)
    }

    // Bytes in hexadecimal.
    pub fn bytes(self, alloc: Global, k: usize) -> Result<Vec<u8>, Fault> {
        self.row(alloc, k, hexadecimal)
    }

    // Nodes or codes, bytes in decimal.
    pub fn nodes(self, alloc: Global, k: usize) -> Result<Vec<u8>, Fault> {
        self.row(alloc, k, decimal_8)
    }

    // Numbers of 32 bits.
    pub fn whole(self, alloc: Global, k: usize) -> Result<Vec<u32>, Fault> {
        self.row(alloc, k, decimal_32)
    }

    // Calls. One that wants a number has one.
    pub fn calls(self, alloc: Global, k: usize) -> Result<Calls, Fault> {
        let mut calls = Calls {
            codes: Vec::new(alloc),
            arguments: Vec::new(alloc),
        };
        let mut waiting: Option<u8> = None;
        for word in self.field(k).split(|b| is_blank(*b)) {
            if word.is_empty() {
                continue;
            }
            match waiting.take() {
                Some(code) => calls.push(code, decimal_32(word).ok_or(Fault::Unread)?)?,
                None => match code(word).ok_or(Fault::Unread)? {
                    0 => calls.push(0, 0)?,
                    code => waiting = Some(code),
                },
            }
        }
        match waiting {
            None => Ok(calls),
            Some(_) => Err(Fault::Unread),
        }
    }
}
