// What lines are made of: rows, lists, refusals and replies as they are printed.
use compare::lent::ends_of;
use evaluator::Lists;
use std::fmt;

// What every lent element holds before a call, by its width. No case hands these numbers in.
pub const MARK: u8 = 170;

pub const MARK_32: u32 = compare::MARK_32;

pub const MARK_64: u64 = compare::replies::MARK;

// A count and what it counts, with the plural's s where it is not 1.
#[derive(Clone, Copy)]
pub struct Counted(pub usize, pub &'static str);

impl fmt::Display for Counted {
    fn fmt<W: fmt::Write>(&self, f: &mut fmt::Formatter<W>) -> fmt::Result {
        let plural = if self.0 == 1 { "" } else { "s" };
        write!(f, "{} {}{plural}", self.0, self.1)
    }
}

// What a refusal sends back, which has no other part than its number; else it says so.
#[derive(Clone, Copy)]
pub struct Refused {
    pub number: u32,
    pub others_are_zero: bool,
}

impl fmt::Display for Refused {
    fn fmt<W: fmt::Write>(&self, f: &mut fmt::Formatter<W>) -> fmt::Result {
        write!(f, "refused {}", self.number)?;
        if !self.others_are_zero {
            f.write_str(", with a part that is not 0")?;
        }
        Ok(())
    }
}

// Nothing where the rows hold their marks, else the fault.
#[derive(Clone, Copy)]
pub struct RowsHold(pub bool);

impl fmt::Display for RowsHold {
    fn fmt<W: fmt::Write>(&self, f: &mut fmt::Formatter<W>) -> fmt::Result {
        f.write_str(if self.0 { "" } else { ", rows changed" })
    }
}

// Numbers with a space before each: also nodes, which the paper writes in decimal.
#[derive(Clone, Copy)]
pub struct Spaced<'a, T>(pub &'a [T]);

impl<T: fmt::Display> fmt::Display for Spaced<'_, T> {
    fn fmt<W: fmt::Write>(&self, f: &mut fmt::Formatter<W>) -> fmt::Result {
        for x in self.0 {
            write!(f, " {x}")?;
        }
        Ok(())
    }
}

// Numbers; of a long row the first twelve, and how many there are.
#[derive(Clone, Copy)]
pub struct Numbers<'a>(pub &'a [u32]);

impl fmt::Display for Numbers<'_> {
    fn fmt<W: fmt::Write>(&self, f: &mut fmt::Formatter<W>) -> fmt::Result {
        match self.0.get(..12) {
            Some(first) if 12 < self.0.len() => {
                write!(f, "{} .. of {}", Spaced(first), self.0.len())
            }
            _ => write!(f, "{}", Spaced(self.0)),
        }
    }
}

// Bytes in hexadecimal, as the paper writes all but nodes.
#[derive(Clone, Copy)]
pub struct Bytes<'a>(pub &'a [u8]);

impl fmt::Display for Bytes<'_> {
    fn fmt<W: fmt::Write>(&self, f: &mut fmt::Formatter<W>) -> fmt::Result {
        for b in self.0 {
            write!(f, " {b:02X}")?;
        }
        Ok(())
    }
}

// The word of lists, where it does not say of every list that it was delivered.
#[derive(Clone, Copy)]
pub struct Word(pub u32);

impl fmt::Display for Word {
    fn fmt<W: fmt::Write>(&self, f: &mut fmt::Formatter<W>) -> fmt::Result {
        match self.0 {
            u32::MAX => Ok(()),
            word => write!(f, ", word {word}"),
        }
    }
}

// Lists as they lie in one row.
#[derive(Clone, Copy)]
pub struct Lying<'a>(pub &'a [u32], pub &'a Lists);

impl fmt::Display for Lying<'_> {
    fn fmt<W: fmt::Write>(&self, f: &mut fmt::Formatter<W>) -> fmt::Result {
        let ends = Numbers(ends_of(self.1));
        write!(f, " numbers{}, ends{ends}", Numbers(self.0))
    }
}

// Lists as they are lent.
#[derive(Clone, Copy)]
pub struct Lent<'a>(pub &'a [u32], pub &'a Lists);

impl fmt::Display for Lent<'_> {
    fn fmt<W: fmt::Write>(&self, f: &mut fmt::Formatter<W>) -> fmt::Result {
        write!(f, "{}{}", Lying(self.0, self.1), Word(self.1.word))
    }
}

// Lists by their numbers, each in braces.
#[derive(Clone, Copy)]
pub struct Braced<'a>(pub &'a [u32], pub &'a Lists);

impl fmt::Display for Braced<'_> {
    fn fmt<W: fmt::Write>(&self, f: &mut fmt::Formatter<W>) -> fmt::Result {
        for k in 0..self.1.count {
            let list = lists::list_part(self.0, ends_of(self.1), self.1.word, k);
            write!(f, " L{k} {{{} }}", Numbers(list))?;
        }
        Ok(())
    }
}
