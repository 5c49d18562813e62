// A reply by its number in a reply row.
use std::fmt;

// What a lent reply holds before a run.
pub const MARK: u64 = 12297829382473034410;

const NO: u64 = 4294967296;

const YES: u64 = 4294967297;

pub const FINISHED: u64 = 4294967298;

const UNKNOWN: u64 = 4294967299;

// A reply, or another number.
#[derive(Clone, Copy, Debug, PartialEq, Eq)]
pub enum Reply {
    Member(u32),
    No,
    Yes,
    Finished,
    Unknown,
    None(u64),
}

impl From<u64> for Reply {
    fn from(reply: u64) -> Reply {
        match reply {
            0..NO => Reply::Member(reply as u32),
            NO => Reply::No,
            YES => Reply::Yes,
            FINISHED => Reply::Finished,
            UNKNOWN => Reply::Unknown,
            _ => Reply::None(reply),
        }
    }
}

impl fmt::Display for Reply {
    fn fmt<W: fmt::Write>(&self, f: &mut fmt::Formatter<W>) -> fmt::Result {
        match self {
            Reply::Member(n) => write!(f, "{n}"),
            Reply::No => f.write_str("no"),
            Reply::Yes => f.write_str("yes"),
            Reply::Finished => f.write_str("finished"),
            Reply::Unknown => f.write_str("unknown"),
            Reply::None(n) => write!(f, "no reply, but {n}"),
        }
    }
}
