// Expressions, made in row form from the front: each node before its members.
ghost use Rattle.std.specs.Prelude.{◌≤◌, ◌<◌, ◌+◌, ◌≡◌, IfSome};

use crate::dice::{pick, roll};
use crate::inputs::Row;
use crate::words::{always, is_delivered};

// What the numbers of this file are drawn for.
const SHAPE: u64 = 200;

const OPERATOR: u64 = 201;

const WIDTH: u64 = 202;

const GROW: u64 = 203;

const LEAF: u64 = 204;

const SIDE: u64 = 205;

#[derive(Clone, Copy)]
enum Kind {
    Difference,
    Union,
    Intersection,
}

// An operator with its number of members.
#[derive(Clone, Copy)]
struct Operator {
    kind: Kind,
    members: u8,
    ghost few: { members ≤ 8 },
}

impl Operator {
    fn difference() -> Operator {
        Operator {
            kind: Kind::Difference,
            members: 2,
        }
    }

    // The node byte: 64 a difference, 128 and 192 with the number of members a union and an intersection.
    fn byte(self) -> u8
        ensures { result ≤ 200 }
    {
        match self.kind {
            Kind::Difference => 64,
            Kind::Union => 128 + self.members,
            Kind::Intersection => 192 + self.members,
        }
    }

    // The operator as far as there is room for its members.
    fn fitted(self, room: usize) -> Option<Operator>
        ensures { IfSome result (λ o. o.members ≤ room) }
    {
        if self.members as usize <= room {
            return Some(self);
        }
        match self.kind {
            Kind::Difference => None,
            kind if room > 0 => Some(Operator {
                kind,
                members: room as u8,
            }),
            _ => None,
        }
    }
}

// The shape of a case's expression.
#[derive(Clone, Copy)]
enum Shape {
    Any,
    // A chain to depth 12, along the first or the last members.
    FirstChain,
    LastChain,
    // 48 nodes.
    Full,
    // Operators of eight in each other.
    Eights,
    // Differences, each on the second side of the one before.
    SecondSides,
    // Differences on both sides.
    Differences,
    // Unions in intersections, and intersections in unions.
    OfUnions,
    OfIntersections,
    // An intersection of three or more, nearly all lists.
    Wide,
    List,
}

impl Shape {
    // Of 100 cases: any in 28, chains in 6 each, full in 9, eights in 6, second sides in 6, differences in 7, layers in 8 each, wide in
    // 12, a list in 4.
    fn of(case: u64) -> Shape {
        let p = pick(case, SHAPE, 0, 100);
        match p {
            0..28 => Shape::Any,
            28..40 if p % 2 == 0 => Shape::FirstChain,
            28..40 => Shape::LastChain,
            40..49 => Shape::Full,
            49..55 => Shape::Eights,
            55..61 => Shape::SecondSides,
            61..68 => Shape::Differences,
            68..84 if p % 2 == 0 => Shape::OfUnions,
            68..84 => Shape::OfIntersections,
            84..96 => Shape::Wide,
            _ => Shape::List,
        }
    }
}

// What a new node is chosen by: the case, its place in the row, the nodes owed with it, and its depth.
#[derive(Clone, Copy)]
struct Spot {
    case: u64,
    place: u64,
    owed: usize,
    depth: usize,
    ghost in_row: { place < 48 },
}

impl Spot {
    // Members of an operator: 1 in 10 of 100, 2 in 40, 3 in 25, 4 in 10, 5 to 8 in 15.
    fn width(&self) -> u8
        ensures { (1 ≤ result) × (result ≤ 8) }
    {
        match pick(self.case, WIDTH, self.place, 100) {
            0..10 => 1,
            10..50 => 2,
            50..75 => 3,
            75..85 => 4,
            p => (5 + p % 4) as u8,
        }
    }

    // So many members, and fewer than so many more.
    fn members(&self, least: u8, more: u8) -> u8
        requires { (1 ≤ more) × (least + more ≤ 9) }
        ensures { result ≤ 8 }
    {
        least + (roll(self.case, WIDTH, self.place) % u64::from(more)) as u8
    }

    // An operator: a difference in 25 of 100, or a union in 45 or an intersection in 30 of so many members.
    fn operator(&self, members: u8) -> Operator
        requires { members ≤ 8 }
    {
        match pick(self.case, OPERATOR, self.place, 100) {
            0..25 => Operator::difference(),
            25..70 => Operator {
                kind: Kind::Union,
                members,
            },
            _ => Operator {
                kind: Kind::Intersection,
                members,
            },
        }
    }

    // A union or an intersection of so many members.
    fn either(&self, members: u8) -> Operator
        requires { members ≤ 8 }
    {
        let kind = if roll(self.case, SIDE, self.place) % 2 == 0 {
            Kind::Union
        } else {
            Kind::Intersection
        };
        Operator { kind, members }
    }

    // Whether a node takes members, in so many of 100 cases.
    fn grows(&self, percent: u64) -> bool {
        pick(self.case, GROW, self.place, 100) < percent
    }

    // Any operator, in so many of 100 cases.
    fn growing(&self, percent: u64) -> Option<Operator> {
        if self.grows(percent) {
            Some(self.operator(self.width()))
        } else {
            None
        }
    }

    // Any tree: an operator in 97 of 100 cases at the root, in 60 and 40 at the next depths, else in 22.
    fn any(&self) -> Option<Operator> {
        self.growing(match self.depth {
            1 => 97,
            2 => 60,
            3 => 40,
            _ => 22,
        })
    }

    // A chain: an operator on the way down, of at most four so that depth 12 is reached, and else a list.
    fn chain(&self, on_the_way: bool) -> Option<Operator> {
        if on_the_way {
            Some(self.operator(self.members(1, 4)))
        } else {
            None
        }
    }

    // 48 nodes: any operators, and always a wide one where nothing else is owed and there is room.
    fn full(&self) -> Option<Operator> {
        if self.owed == 1 {
            return Some(self.either(self.members(3, 6)));
        }
        self.growing(45)
    }

    // Operators of eight while there is room, the last one as wide as the room.
    fn eights(&self) -> Option<Operator> {
        if self.depth == 1 || self.grows(50) {
            Some(self.either(8))
        } else {
            None
        }
    }

    // A difference, in so many of 100 cases.
    fn difference(&self, percent: u64) -> Option<Operator> {
        if self.depth == 1 || self.grows(percent) {
            Some(Operator::difference())
        } else {
            None
        }
    }

    // Differences, each on the second side of the one before, with an operator on the first side at times.
    fn second_side(&self) -> Option<Operator> {
        if self.owed == 1 {
            return self.difference(85);
        }
        if self.grows(10) {
            Some(self.operator(2))
        } else {
            None
        }
    }

    // Intersections at odd depths and unions at even ones, or the other way round.
    fn layers(&self, odd: Kind, even: Kind) -> Option<Operator> {
        if self.depth > 5 {
            return None;
        }
        if self.depth > 1 && !self.grows(70 - 11 * self.depth as u64) {
            return None;
        }
        Some(Operator {
            kind: if self.depth % 2 == 1 { odd } else { even },
            members: self.members(2, 3),
        })
    }

    // An intersection of three to eight, of three or four in two of three cases, nearly all of them lists.
    fn wide(&self) -> Option<Operator> {
        if self.depth == 1 {
            let r = (roll(self.case, WIDTH, 0) % 12) as u8;
            return Some(Operator {
                kind: Kind::Intersection,
                members: if r < 8 { 3 + r % 2 } else { r - 3 },
            });
        }
        if self.depth < 4 && self.grows(12) {
            Some(self.operator(2))
        } else {
            None
        }
    }

    // The operator wanted, none for a list.
    fn wanted(&self) -> Option<Operator> {
        match Shape::of(self.case) {
            Shape::Any => self.any(),
            Shape::FirstChain => self.chain(self.place + 1 == self.depth as u64),
            Shape::LastChain => self.chain(self.owed == 1),
            Shape::Full => self.full(),
            Shape::Eights => self.eights(),
            Shape::SecondSides => self.second_side(),
            Shape::Differences => self.difference(52),
            Shape::OfUnions => self.layers(Kind::Intersection, Kind::Union),
            Shape::OfIntersections => self.layers(Kind::Union, Kind::Intersection),
            Shape::Wide => self.wide(),
            Shape::List => None,
        }
    }
}

// What leaves are chosen by: the case, how many lists there are, and their word.
#[derive(Clone, Copy)]
struct Leaves {
    case: u64,
    lists: u64,
    word: u32,
}

impl Leaves {
    // One of the lists, which a leaf is to name. A wide intersection goes through the lists in turn.
    fn any(&self, place: u64) -> u64
        requires { place < 48 }
        ensures { result ≤ 31 }
    {
        let n = self.lists.max(1);
        let list = match Shape::of(self.case) {
            Shape::Wide => (roll(self.case, LEAF, 1000) + place) % n,
            _ => pick(self.case, LEAF, place, n),
        };
        list % 32
    }

    // The list at a leaf: where that one was not delivered, the one that always is.
    fn at(&self, place: u64) -> u8
        requires { place < 48 }
        ensures { result ≤ 31 }
    {
        let list = self.any(place);
        if is_delivered(self.word, list as usize) {
            list as u8
        } else {
            (always(self.case, self.lists) % 32) as u8
        }
    }
}

// The depth at which the next node is owed: the deepest that owes any.
pub fn next_depth(left: [u8; 13]) -> usize
    ensures { result ≤ 12 }
{
    (1..13).rev().find(|&depth| left[depth] > 0).unwrap_or(1)
}

// A row being made: the nodes placed, how many are still owed, and how many of these at each depth.
#[derive(Clone, Copy)]
struct Growth {
    bytes: [u8; 48],
    left: [u8; 13],
    count: usize,
    owed: usize,
    ghost room: { count + owed ≤ 48 },
    ghost begun: { 1 ≤ count + owed },
}

impl Growth {
    // A row that owes its root.
    fn root() -> Growth {
        let mut left = [0; 13];
        left[1] = 1;
        Growth {
            bytes: [0; 48],
            left,
            count: 0,
            owed: 1,
        }
    }

    // The next node, which is owed at a depth and has so many members.
    fn placed(self, byte: u8, members: u8, depth: usize) -> Growth
        requires owed { 1 ≤ self.owed }
        requires room { self.count + self.owed + members ≤ 48 }
        requires depth { depth ≤ 12 }
        ensures { result.count ≡ self.count + 1 }
    {
        let mut bytes = self.bytes;
        bytes[self.count] = byte;
        let mut left = self.left;
        left[depth] = left[depth].saturating_sub(1);
        left[(depth + 1) % 13] = members;
        Growth {
            bytes,
            left,
            count: self.count + 1,
            owed: self.owed - 1 + members as usize,
        }
    }

    // The next node, which takes members only where 48 nodes and depth 12 leave room.
    fn grown(self, leaves: Leaves) -> Growth
        requires { 1 ≤ self.owed }
        ensures { result.count ≡ self.count + 1 }
    {
        let depth = next_depth(self.left);
        let room = 48 - self.count - self.owed;
        let spot = Spot {
            case: leaves.case,
            place: self.count as u64,
            owed: self.owed,
            depth,
        };
        let operator = if depth < 12 { spot.wanted() } else { None };
        match operator.and_then(|o| o.fitted(room)) {
            Some(o) => self.placed(o.byte(), o.members, depth),
            None => self.placed(leaves.at(spot.place), 0, depth),
        }
    }
}

// An accepted expression over so many lists, at least one, with their word. Each turn places a node that is owed, and
// nodes placed and owed are never more than 48 together, so none is owed after 48 turns.
pub fn expression(case: u64, lists: usize, word: u32) -> Row
    ensures { (1 ≤ result.count) × (result.count ≤ 48) }
{
    let leaves = Leaves {
        case,
        lists: lists as u64,
        word,
    };
    let mut g = Growth::root();
    while 0 < g.owed {
        g = g.grown(leaves);
    }
    let bytes = g.bytes;
    Row {
        bytes,
        count: g.count,
    }
}
