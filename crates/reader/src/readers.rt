ghost use Rattle.reader.specs.Tally.{Tallied};

use crate::ReadResult;

// The readers of a run, "one place for each of the 48 possible nodes in expression order", and their moves.
#[derive(Drop)]
pub struct Readers {
    pub places: [u16; 48],
    pub moves: u32,
    pub ghost tallied: { Tallied places moves },
}

impl Readers {
    ghost use Rattle.std.specs.Prelude.{◌≡◌, ◌+◌, ◌≤◌, ◌<◌, get_or};
    ghost use Rattle.reader.specs.Sought.{readers_of, none_read, has_read};

    // Every reader at the start of its list.
    pub fn first() -> Self
        ensures { readers_of result ≡ none_read }
    {
        Readers {
            places: [0; 48],
            moves: 0,
        }
    }

    // The reader of a node has made a step: it is where that leaves it, and its moves count. Hands back what it answers. For readers of
    // a caller's own: nothing here but the test calls it.
    pub fn take(&mut self, node: usize, read: ReadResult) -> u64
        requires node_in_bounds { node < 48 }
        requires within { get_or self.old.places node 0 + read.moves ≤ read.place }
        ensures answer { result ≡ read.answer }
        ensures readers { readers_of self.new ≡ has_read node read (readers_of self.old) }
    {
        self.places[node] = read.place;
        self.moves += read.moves;
        read.answer
    }
}

#[cfg(test)]
mod tests {
    use super::*;

    // Node 47 reads to the number 99 at place 66, by a hop and two single moves, then to the end of its list, one place further.
    #[test]
    fn takes_two_steps(rt: HostRuntime) {
        let mut readers = Readers::first();
        let read = ReadResult {
            answer: 99,
            moves: 3,
            place: 66,
        };
        assert_eq!(rt; readers.take(47, read), 99);
        let place = readers.places[47];
        assert_eq!(rt; (place, readers.moves), (66, 3));
        let end = ReadResult {
            answer: crate::FINISHED,
            moves: 1,
            place: 67,
        };
        assert_eq!(rt; readers.take(47, end), crate::FINISHED);
        let (behind, place) = (readers.places[46], readers.places[47]);
        assert_eq!(rt; (behind, place, readers.moves), (0, 67, 4));
    }
}
