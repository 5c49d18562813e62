// The plain machine: what it draws and checks, and what it replies.
use crate::member::Expression;

// A floor that no number reaches.
pub const TOP: u64 = 4294967296;

// What one call is replied with.
#[derive(Clone, Copy)]
pub enum Reply {
    Member(u32),
    No,
    Yes,
    Finished,
    Unknown,
}

// The reply as it stands in the row.
impl From<Reply> for u64 {
    fn from(reply: Reply) -> u64 {
        match reply {
            Reply::Member(x) => u64::from(x),
            Reply::No => TOP,
            Reply::Yes => TOP + 1,
            Reply::Finished => TOP + 2,
            Reply::Unknown => TOP + 3,
        }
    }
}

// An expression whose members below the floor are no members any more.
#[derive(Clone, Copy)]
pub struct Machine<'a> {
    pub expression: Expression<'a>,
    pub floor: u64,
}

impl Iterator for Machine<'_> {
    type Item = u32;

    // The least member, above which the floor comes.
    fn next(&mut self) -> Option<u32> {
        let found = self.expression.least(self.floor);
        self.raise(found.map_or(TOP, |x| u64::from(x) + 1));
        found
    }
}

impl Machine<'_> {
    // The floor brought to a number, or left where it is above it.
    fn raise(&mut self, to: u64) {
        self.floor = self.floor.max(to);
    }

    fn draw(&mut self) -> Reply {
        match self.next() {
            Some(x) => Reply::Member(x),
            None => Reply::Finished,
        }
    }

    // A number below the floor is no member any more.
    fn check(&mut self, d: u32) -> Reply {
        let left = self.floor <= u64::from(d);
        self.raise(u64::from(d));
        if left && self.expression.has(d) {
            Reply::Yes
        } else {
            Reply::No
        }
    }

    // One call.
    pub fn call(&mut self, code: u8, d: u32) -> Reply {
        match code {
            0 => self.draw(),
            1 => {
                self.raise(u64::from(d));
                self.draw()
            }
            2 => {
                self.raise(u64::from(d) + 1);
                self.draw()
            }
            3 => self.check(d),
            _ => Reply::Unknown,
        }
    }
}
