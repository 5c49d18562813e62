ghost use Rattle.model.specs.Lists.{Numbers};
ghost use Rattle.reader.specs.Rows.{Ready};

use crate::MemberRead;

// A list set generator: an expression in its row of nodes, over lent lists, with the table of what is behind each node.
#[derive(Clone, Copy)]
pub struct Generator<'a> {
    pub numbers: &'a [u32],
    pub ends: &'a [u32],
    pub nodes: &'a [u8; 48],
    pub behind: &'a [usize; 48],
    pub ghost ready: { Ready numbers.now ends.now nodes.now behind.now },
    // true of every row of 32-bit numbers, but a proof reads it off the type only where the row is a variable
    pub ghost fit: { Numbers numbers.now },
}

impl Generator<'_> {
    ghost use Rattle.std.specs.Prelude.{◌≤◌, length, get_or};
    ghost use Rattle.model.specs.Lists.{top};
    ghost use Rattle.reader.specs.Rows.{Standing};
    ghost use Rattle.reader.specs.Sought.{Reads};

    // A member node, read from the place of its reader. Always inlined: as a call of its own it takes up to half as many instructions more.
    #[inline(always)]
    pub fn read_member(&self, node: usize, place: u16, to: u64) -> MemberRead
        requires standing { Standing (length self.now.ends.now) self.now.nodes.now node }
        requires to_le_top { to ≤ top }
        ensures { Reads self.now.numbers.now self.now.ends.now (get_or self.now.nodes.now node 0) place to result }
    {
        crate::read_member(self.numbers, self.ends, self.nodes[node], place, to)
    }
}
