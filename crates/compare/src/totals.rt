// What generated cases came to, in sums.
ghost use Rattle.std.specs.Prelude.{◌≡◌, ◌+◌, ◌%◌, ◌^◌};

use crate::replies::Reply;
use crate::{Verdict, What};

// What the cases of one kind came to: the calls' replies by kind, the runs' moves and places, the members that came or went by a
// change, the bytes that joins wrote, the runs, changes or joins by their number.
#[derive(Clone, Copy, Default)]
pub struct Totals {
    pub differ: u64,
    pub members: u64,
    pub finished: u64,
    pub yes: u64,
    pub no: u64,
    pub unknown: u64,
    pub moves: u64,
    pub places: u64,
    pub came: u64,
    pub went: u64,
    pub bytes: u64,
    pub numbers: [u64; 22],
}

// A sum grows by a number; one that passes 64 bits starts over.
pub fn add(sum: &mut u64, by: u64)
    ensures { sum.new ≡ (sum.old + by) % 2 ^ 64 }
{
    *sum = sum.wrapping_add(by);
}

impl Totals {
    // One reply more; a place behind the last reply holds another number.
    fn add_reply(&mut self, reply: Reply) {
        match reply {
            Reply::Member(_) => add(&mut self.members, 1),
            Reply::No => add(&mut self.no, 1),
            Reply::Yes => add(&mut self.yes, 1),
            Reply::Finished => add(&mut self.finished, 1),
            Reply::Unknown => add(&mut self.unknown, 1),
            Reply::None(_) => {}
        }
    }

    // One case more that came to a number, and whether it differs.
    fn add_number(&mut self, number: u32, differs: bool) {
        add(&mut self.numbers[number as usize % 22], 1);
        add(&mut self.differ, u64::from(differs));
    }

    // One run more; of one that differs nothing else counts.
    pub fn add_run(&mut self, ran: &Result<Verdict, What>) {
        let Ok(v) = ran else {
            return self.add_number(0, true);
        };
        for reply in &v.replies {
            self.add_reply(Reply::from(*reply));
        }
        add(&mut self.moves, u64::from(v.moves));
        add(&mut self.places, v.places);
        self.add_number(v.number, false);
    }

    // One change more, and whether a member came or went by it.
    pub fn add_change(&mut self, number: u32, differs: bool, came: bool, went: bool) {
        add(&mut self.came, u64::from(came));
        add(&mut self.went, u64::from(went));
        self.add_number(number, differs);
    }

    // One join more, and how many bytes it wrote.
    pub fn add_join(&mut self, number: u32, differs: bool, bytes: usize) {
        add(&mut self.bytes, bytes as u64);
        self.add_number(number, differs);
    }
}
