// A full delivery and a daily one made one. Each is walked through once, which tests it (`walk`); then both are drawn from side by side,
// list by list and number by number, twice: the first time finds how many numbers each joined list has and the width of its gaps, the
// second writes. No row of numbers is kept.
#![tactic(auto)]

ghost use Rattle.std.specs.Prelude.{◌≡◌, true, ◌+◌, ◌*◌, ◌^◌, ◌≤◌, ◌<◌, length};
ghost use Rattle.std.specs.Result.{IfOk};
ghost use Rattle.model.specs.Lists.{top, rises};
ghost use Rattle.model.specs.Calls.{written};
ghost use Rattle.model.specs.Joined.{join_deliveries};
ghost use Rattle.refusals.specs.Numbers.{outcome, written_as};
ghost use Rattle.join.specs.Streams.{some_left, places_of, ended_at, Draws, Advances, Passes, Opens, PairDraws, NextDrawn, PairOpens, union_left, ListReads};
ghost use Rattle.join.specs.Measures.{Tests, Surveyed, Sized, ListsRead, joined, measured};
ghost use Rattle.join.specs.Fits.{GapsFit, GapsPut, ListFits, ListPut, CameFits, CamePut, ListsFit, ListsPut};

use model::WriteResult;
use refusals::Refusal;

// A list of a delivery that is drawn from: its next number, how many are behind it, the width of their gaps, and the bit position of the
// first of these.
#[derive(Clone, Copy)]
struct Stream {
    // 4,294,967,296 where there is none, not an Option: so the lesser of two is `min`, and not a match of four cases
    number: u64,
    left: u32,
    width: u32,
    next: usize,
}

// Whether a list came, and its stream before the first number is drawn.
#[derive(Drop)]
struct Opened {
    came: bool,
    stream: Stream,
}

// The same list of both deliveries.
#[derive(Clone, Copy)]
struct Pair {
    full: Stream,
    daily: Stream,
}

// Whether it came in either, and both streams before the first number is drawn.
#[derive(Drop)]
struct Both {
    came: bool,
    pair: Pair,
}

// The next number of either, and both streams behind it.
#[derive(Drop)]
struct Drawn {
    number: u32,
    pair: Pair,
}

// A bit position in each delivery.
#[derive(Clone, Copy)]
struct Places {
    full: usize,
    daily: usize,
}

// What drawing numbers found: how many there are, the largest gap minus 1, and where the list ends.
#[derive(Drop)]
struct Tally {
    count: u32,
    largest: u32,
    behind: Places,
}

// What is known of a joined list before it is written: whether it came, how many numbers it has, the width of their gaps, and where it
// ends.
#[derive(Drop)]
struct Size {
    came: bool,
    count: u32,
    width: u32,
    behind: Places,
}

// Where a list ends, and where in what is written.
#[derive(Drop)]
struct Ends {
    read: Places,
    joined: usize,
}

// How many numbers a joined list has, and the width of its gaps.
#[derive(Clone, Copy)]
struct Shape {
    count: u16,
    width: u8,
}

// What is known before the first bit is written: the bits of all lists (their number's six apart), and the shape of each.
#[derive(Drop)]
struct Measure {
    bits: usize,
    shapes: [Shape; 32],
}

// A full delivery and a daily one, both walked through.
#[derive(Clone, Copy)]
struct Deliveries<'a> {
    full: &'a [u8],
    daily: &'a [u8],
}

// Walks through a delivery: how many lists it has.
fn test_delivery(bytes: &[u8]) -> Result<u32, Refusal>
    ensures { Tests bytes.now result }
{
    let (n, next) = fields::take_field(bytes, 0, 6)?;
    if !lists::count_holds(n as usize) {
        return Err(Refusal::ListCount);
    }
    // 32 lists of 65,535: no delivery has more numbers
    let (_lists, end) = walk::walk_lists(bytes, next, n, 2097120)?;
    if !fields::only_fill(bytes, end) {
        return Err(Refusal::LeftOver);
    }
    Ok(n)
}

impl Stream {
    // A stream that has no number left, at the bit position at.
    fn ended(at: usize) -> Stream
        ensures { result ≡ ended_at at }
    {
        Stream {
            number: 4294967296,
            left: 0,
            width: 0,
            next: at,
        }
    }

    // The stream behind its number.
    fn advance(self, s: &[u8]) -> Stream
        requires { Draws s.now self × (self.number < top) }
        ensures { Advances s.now self result }
    {
        if self.left == 0 {
            return Stream::ended(self.next);
        }
        // the walk has read it, so its bits are there and it is a number
        let w = self.width as usize;
        let less = fields::next_field(s, self.next, w);
        Stream {
            number: self.number + less as u64 + 1,
            left: self.left - 1,
            width: self.width,
            next: self.next + w,
        }
    }

    // The stream behind x, if that is its number.
    fn pass(self, s: &[u8], x: u64) -> Stream
        requires { Draws s.now self × (x < top) }
        ensures { Passes s.now self x result }
    {
        if self.number == x {
            return self.advance(s);
        }
        self
    }
}

impl Pair {
    // Where both stand.
    fn places(self) -> Places
        ensures { result ≡ places_of self }
    {
        Places {
            full: self.full.next,
            daily: self.daily.next,
        }
    }

    // Whether either has a number left.
    fn any_left(self) -> bool
        ensures { result ≡ some_left self }
    {
        self.full.number < 4294967296 || self.daily.number < 4294967296
    }
}

// The list at the bit position at.
fn open(s: &[u8], at: usize) -> Opened
    requires { (at < 2 ^ 40) × ListReads s.now at }
    ensures { Opens s.now at result }
{
    // the walk has read it, so there is a count and a header
    let Ok((head, next)) = walk::read_count(s, at, 65535) else {
        return Opened {
            came: false,
            stream: Stream::ended(at),
        };
    };
    let Ok((header, behind)) = walk::read_head(s, next, head.count) else {
        return Opened {
            came: false,
            stream: Stream::ended(at),
        };
    };
    let came = head.bits == 1;
    if head.count == 0 {
        return Opened {
            came,
            stream: Stream::ended(behind),
        };
    }
    Opened {
        came,
        stream: Stream {
            number: header.first as u64,
            left: head.count - 1,
            width: header.width,
            next: behind,
        },
    }
}

impl Deliveries<'_> {
    // The lists at a bit position of each.
    fn open_both(&self, at: Places) -> Both
        requires { (at.full < 2 ^ 40) × ListReads self.now.full.now at.full × (at.daily < 2 ^ 40) × ListReads self.now.daily.now at.daily }
        ensures { PairOpens self.now.full.now self.now.daily.now at.full at.daily result }
    {
        let f = open(self.full, at.full);
        let d = open(self.daily, at.daily);
        Both {
            came: f.came || d.came,
            pair: Pair {
                full: f.stream,
                daily: d.stream,
            },
        }
    }

    // The smaller of both numbers, drawn from the stream that it stands in, or from both.
    fn draw(&self, pair: Pair) -> Drawn
        requires { PairDraws self.now.full.now self.now.daily.now pair × (some_left pair ≡ true) }
        ensures { NextDrawn self.now.full.now self.now.daily.now pair result }
    {
        let x = pair.full.number.min(pair.daily.number);
        Drawn {
            number: x as u32,
            pair: Pair {
                full: pair.full.pass(self.full, x),
                daily: pair.daily.pass(self.daily, x),
            },
        }
    }

    // Draws the numbers behind `last`: how many they are, and the largest of their gaps minus 1.
    fn survey_gaps(&self, start: Pair, last: u32) -> Tally
        requires { PairDraws self.now.full.now self.now.daily.now start × (rises last (union_left self.now.full.now self.now.daily.now start) ≡ true) }
        ensures { Surveyed self.now.full.now self.now.daily.now start last result }
    {
        let mut pair = start;
        let mut number = last;
        let mut count: u32 = 0;
        let mut largest: u32 = 0;
        while pair.any_left() {
            let drawn = self.draw(pair);
            largest = largest.max(drawn.number - number - 1);
            number = drawn.number;
            pair = drawn.pair;
            count += 1;
        }
        Tally {
            count,
            largest,
            behind: pair.places(),
        }
    }

    // Draws the numbers of the lists at a bit position of each: what is known of the joined list.
    fn survey_list(&self, at: Places) -> Size
        requires { (at.full < 2 ^ 40) × ListReads self.now.full.now at.full × (at.daily < 2 ^ 40) × ListReads self.now.daily.now at.daily }
        ensures { Sized self.now.full.now self.now.daily.now at.full at.daily result }
    {
        let both = self.open_both(at);
        let came = both.came;
        let pair = both.pair;
        if !pair.any_left() {
            return Size {
                came,
                count: 0,
                width: 1,
                behind: pair.places(),
            };
        }
        let drawn = self.draw(pair);
        let rest = self.survey_gaps(drawn.pair, drawn.number);
        Size {
            came,
            count: rest.count + 1,
            width: fields::width_of(rest.largest),
            behind: rest.behind,
        }
    }

    // The first time through both: the bits of all lists and the shape of each; 21 if one has more than 65,535 numbers.
    fn survey(&self, n: usize) -> Result<Measure, Refusal>
        requires { (n ≤ 32) × ListsRead self.now.full.now n × ListsRead self.now.daily.now n }
        ensures { (outcome result ≡ measured (joined self.now.full.now self.now.daily.now n)) × IfOk result (λ m. m.bits ≤ 134217728) }
    {
        let mut shapes = [Shape { count: 0, width: 0 }; 32];
        let mut bits: usize = 0;
        let mut at = Places { full: 6, daily: 6 };
        for k in 0..n {
            let size = self.survey_list(at);
            if 65535 < size.count {
                return Err(Refusal::JoinTooLong);
            }
            shapes[k] = Shape {
                count: size.count as u16,
                width: size.width as u8,
            };
            bits += encode::bits_of(size.came, size.count as usize, size.width as usize);
            at = size.behind;
        }
        Ok(Measure { bits, shapes })
    }

    // Puts the gaps minus 1 of the numbers behind `last`, w bits each, from the bit position at on.
    fn put_gaps(&self, start: Pair, last: u32, s: &mut [u8], at: usize, w: usize) -> Ends
        requires { GapsFit self.now.full.now self.now.daily.now start last s.old at w }
        ensures { GapsPut self.now.full.now self.now.daily.now start last s.old at w s.new result }
    {
        let mut pair = start;
        let mut number = last;
        let mut next = at;
        while pair.any_left() {
            let drawn = self.draw(pair);
            fields::put_field(s, next, w, drawn.number - number - 1);
            next += w;
            number = drawn.number;
            pair = drawn.pair;
        }
        Ends {
            read: pair.places(),
            joined: next,
        }
    }

    // Puts a list that came, of that shape, from the bit position at on. Its bit 1 and the 16 bits of its count are put as one field.
    fn put_came(&self, pair: Pair, s: &mut [u8], at: usize, shape: Shape) -> Ends
        requires { CameFits self.now.full.now self.now.daily.now pair s.old at shape }
        ensures { CamePut self.now.full.now self.now.daily.now pair s.old at s.new result }
    {
        fields::put_field(s, at, 17, 65536 + shape.count as u32);
        if shape.count == 0 {
            return Ends {
                read: pair.places(),
                joined: at + 17,
            };
        }
        let drawn = self.draw(pair);
        let behind = drawn.pair;
        fields::put_field(s, at + 17, 32, drawn.number);
        if shape.count == 1 {
            return Ends {
                read: behind.places(),
                joined: at + 49,
            };
        }
        fields::put_field(s, at + 49, 5, shape.width as u32 - 1);
        self.put_gaps(behind, drawn.number, s, at + 54, shape.width as usize)
    }

    // Puts the list that the lists at a bit position of each make, of that shape; where it came in neither, a 0 and nothing more.
    fn put_list(&self, from: Ends, s: &mut [u8], shape: Shape) -> Ends
        requires { ListFits self.now.full.now self.now.daily.now from s.old shape }
        ensures { ListPut self.now.full.now self.now.daily.now from s.old s.new result }
    {
        let both = self.open_both(from.read);
        let pair = both.pair;
        if both.came {
            return self.put_came(pair, s, from.joined, shape);
        }
        fields::put_field(s, from.joined, 1, 0);
        Ends {
            read: pair.places(),
            joined: from.joined + 1,
        }
    }

    // The second time through both: puts the lists, of these shapes, behind their number.
    fn put_lists(&self, s: &mut [u8], shapes: &[Shape]) -> usize
        requires { ListsFit self.now.full.now self.now.daily.now (length shapes.now) s.old shapes.now }
        ensures { ListsPut self.now.full.now self.now.daily.now (length shapes.now) s.old s.new result }
    {
        let mut ends = Ends {
            read: Places { full: 6, daily: 6 },
            joined: 6,
        };
        for &shape in shapes {
            ends = self.put_list(ends, s, shape);
        }
        ends.joined
    }
}

// Joins a full delivery and a daily one into the lent bytes; how many are written.
fn store(full: &[u8], daily: &[u8], joined: &mut [u8]) -> Result<usize, Refusal>
    ensures { written (written_as result) joined.new ≡ join_deliveries full.now daily.now joined.old }
{
    let n = test_delivery(full)?;
    let m = test_delivery(daily)?;
    if n != m {
        return Err(Refusal::CountsDiffer);
    }
    let lists = n as usize;
    let both = Deliveries { full, daily };
    let measure = both.survey(lists)?;
    // six bits of their number ahead of the lists, and up to a whole byte
    let count = (measure.bits + 13) >> 3;
    if joined.len() < count {
        return Err(Refusal::NoRoom);
    }
    fields::put_field(joined, 0, 6, n);
    let next = both.put_lists(joined, &measure.shapes[..lists]);
    fields::put_field(joined, next, 8 * count - next, 0);
    Ok(count)
}

// Joins a full delivery and a daily one into the lent bytes.
pub fn join_deliveries(full: &[u8], daily: &[u8], joined: &mut [u8]) -> WriteResult
    ensures { written result joined.new ≡ join_deliveries full.now daily.now joined.old }
{
    refusals::written(store(full, daily, joined))
}
