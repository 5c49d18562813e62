// One reader's step over its list, and the table that says where each node of an expression ends.
#![tactic(auto)]

ghost use Rattle.std.specs.Prelude.{◌≡◌, true, [], ℕ, ◌+◌, ◌-◌, ◌/◌, ◌≤◌, ◌<◌, length, get_or, drop};
ghost use Rattle.model.specs.Outcome.{accepted};
ghost use Rattle.model.specs.Lists.{top, ascending, lists_from};
ghost use Rattle.model.specs.Steps.{passed};
ghost use Rattle.model.specs.declared.Node.{Node};
ghost use Rattle.model.specs.declared.Node.TheVariants.{Leaf};
ghost use Rattle.model.specs.Forms.{node_of};
ghost use Rattle.expression.specs.Reading.{members};
ghost use Rattle.lists.specs.Readable.{Readable};
ghost use Rattle.reader.specs.Rows.{Behind, siblings};
ghost use Rattle.reader.specs.Sought.{below, Hopped, Advanced, Read, Reads};

pub mod generator;
pub mod readers;

pub use generator::Generator;
pub use readers::Readers;

// The answer of a seek that is finished: the first whole number that is no number of a list.
pub const FINISHED: u64 = 4294967296;

// What a seek hands back: the readers after it, and the number that it answers or FINISHED.
#[derive(Drop)]
pub struct SeekResult {
    pub readers: Readers,
    pub answer: u64,
}

// What one reader's step hands back: the number that it answers or FINISHED, how many moves it made, and its new place.
#[derive(Drop)]
pub struct ReadResult {
    pub answer: u64,
    pub moves: u32,
    pub place: u16,
}

// What reading a member node comes to: where it is a list, its reader stays, with this answer, or moves. Any other node is left to
// its own seek or check.
#[derive(Drop)]
pub enum MemberRead {
    Still(u64),
    Moved(ReadResult),
    Operator,
}

// How a reader goes over its list: the place that it comes to, and how many moves that counts.
#[derive(Drop)]
struct Progress {
    at: usize,
    moves: usize,
}

// The hops from one place to another, 64 places and one move each.
fn hops_between(place: usize, at: usize) -> Progress
    requires { place ≤ at }
    ensures { (result.at ≡ at) × (result.moves ≡ (at - place) / 64) }
{
    Progress {
        at,
        moves: (at - place) / 64,
    }
}

// "while at least 64 numbers remain from its place and the 64th of them is below E, the place grows by 64 and that counts one
// move".
fn hop(list: &[u32], place: usize, to: u64) -> Progress
    requires { (length list.now ≤ 65535) × (place ≤ 65535) }
    ensures { Hopped list.now place to result.at result.moves }
{
    let mut at = place;
    while at + 64 <= list.len() {
        if to <= u64::from(list[at + 63]) {
            return hops_between(place, at);
        }
        at += 64;
    }
    hops_between(place, at)
}

// "the place is inside the list and the number there is below E".
fn passes(list: &[u32], at: usize, to: u64) -> bool
    ensures { result ≡ below list.now at to }
{
    at < list.len() && u64::from(list[at]) < to
}

// "move while" it passes: the place after it.
fn moved(list: &[u32], place: usize, to: u64) -> usize
    ensures { result ≡ place + passed (drop place list.now) to }
{
    let mut at = place;
    while passes(list, at, to) {
        at += 1;
    }
    at
}

// By hops, and "Then it moves singly as before". A reader at the list's end, or at a number that is not below E, stays; one whose next
// place is such makes one move: as the list ascends, neither hops. Else it has passed two numbers, and where it does not hop it goes on
// behind them.
fn advance(list: &[u32], place: usize, to: u64) -> Progress
    requires { (ascending list.now ≡ true) × (length list.now ≤ 65535) × (place ≤ 65535) }
    ensures { Advanced list.now place to result.at result.moves }
{
    if !passes(list, place, to) {
        return Progress {
            at: place,
            moves: 0,
        };
    }
    if !passes(list, place + 1, to) {
        return Progress {
            at: place + 1,
            moves: 1,
        };
    }
    let hopped = hop(list, place, to);
    let from = if hopped.moves == 0 {
        place + 2
    } else {
        hopped.at
    };
    let at = moved(list, from, to);
    let singles = at - hopped.at;
    Progress {
        at,
        moves: hopped.moves + singles,
    }
}

// The reader of list k, from its place: "At the list's end it is finished, else it answers the number".
pub fn read_list(numbers: &[u32], ends: &[u32], k: usize, place: u16, to: u64) -> ReadResult
    requires readable { Readable numbers.now ends.now }
    requires k_in_bounds { (k < length ends.now) × (to ≤ top) }
    ensures { Read (get_or (lists_from numbers.now 0 ends.now) k []) place to result }
{
    let from = lists::start_of(ends, k);
    let stop = lists::start_of(ends, k + 1);
    let list = &numbers[from..stop];
    let before = usize::from(place);
    let went = advance(list, before, to);
    let at = went.at;
    let moves = went.moves as u32;
    let place = at as u16;
    if at < list.len() {
        ReadResult {
            answer: u64::from(list[at]),
            moves,
            place,
        }
    } else {
        ReadResult {
            answer: FINISHED,
            moves,
            place,
        }
    }
}

// The member node of a byte: "0 to 31 a list", whose reader steps from its place; any other byte is no list.
pub fn read_member(numbers: &[u32], ends: &[u32], byte: u8, place: u16, to: u64) -> MemberRead
    requires readable { Readable numbers.now ends.now }
    requires by_index { ((k : ℕ) → node_of byte ≡ accepted (Leaf k) → k < length ends.now) × (to ≤ top) }
    ensures { Reads numbers.now ends.now byte place to result }
{
    match byte {
        0..=31 => {
            let r = read_list(numbers, ends, byte as usize, place, to);
            if r.moves == 0 {
                return MemberRead::Still(r.answer);
            }
            MemberRead::Moved(r)
        }
        _ => MemberRead::Operator,
    }
}

// How many member nodes follow the node of a byte.
fn members_at(b: u8) -> u8
    ensures { (n : Node) → node_of b ≡ accepted n → result ≡ members n }
{
    let Ok(node) = expression::node_of(b) else {
        return 0;
    };
    expression::members_of(node)
}

// The node behind so many trees that stand one after the other, by the table of what is behind each node.
fn end_of(behind: &[usize; 48], first: usize, members: u8) -> usize
    ensures { result ≡ siblings behind.now members first }
{
    let mut at = first;
    for _ in 0..members {
        if at < 48 {
            at = behind[at];
        }
    }
    at
}

// The node behind each node and all that is below it, from the last node to the first.
pub fn node_ends(nodes: &[u8; 48]) -> [usize; 48]
    ensures { Behind nodes.now result }
{
    let mut behind = [0usize; 48];
    for node in (0..48).rev() {
        let end = end_of(&behind, node + 1, members_at(nodes[node]));
        behind[node] = end;
    }
    behind
}
