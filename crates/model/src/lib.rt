// The types that the definitions and every other crate share. Their meaning is in specs/.
#![tactic(auto)]

ghost use Rattle.std.specs.Prelude.{◌≡◌};
ghost use Rattle.model.specs.Calls.{written_refused, decoded_refused, ran_refused, counted_refused};
ghost use Rattle.model.specs.Bounds.{bounded_refused};

// One node of an expression: a list by its number, a difference of two nodes, a union or an intersection of 1 to 8
// (their number). Its member nodes follow it, each with all that is below it.
#[derive(Clone, Copy)]
pub enum Node {
    Leaf(u8),
    Difference,
    Union(u8),
    Intersection(u8),
}

// A reply to a call of a run.
#[derive(Drop)]
pub enum Reply {
    Member(u32),
    Finished,
    Yes,
    No,
    Unknown,
}

// What a call that writes into one lent row hands back: the number of a refusal or 0, and how many elements it wrote.
#[repr(C)]
#[derive(Clone, Copy)]
pub struct WriteResult {
    pub number: u32,
    pub count: usize,
}

impl WriteResult {
    // What is handed back with a refusal: its number, and every other part 0.
    pub fn refused(number: u32) -> Self
        ensures { result ≡ written_refused number }
    {
        WriteResult { number, count: 0 }
    }
}

// What reading a delivery hands back: the number of a refusal or 0, the word that says which lists came, how many lists, and
// how many numbers in all of them.
#[repr(C)]
#[derive(Clone, Copy)]
pub struct DecodeResult {
    pub number: u32,
    pub word: u32,
    pub lists: usize,
    pub numbers: usize,
}

impl DecodeResult {
    // The same, of what reading a delivery hands back.
    pub fn refused(number: u32) -> Self
        ensures { result ≡ decoded_refused number }
    {
        DecodeResult {
            number,
            word: 0,
            lists: 0,
            numbers: 0,
        }
    }
}

// What a run hands back: the number of a refusal or 0, the moves, the place of each node's reader, and the bookmark.
#[repr(C)]
#[derive(Clone, Copy)]
pub struct RunResult {
    pub number: u32,
    pub moves: u32,
    pub places: [u16; 48],
    pub bookmark: u64,
}

impl RunResult {
    // The same, of what a run hands back.
    pub fn refused(number: u32) -> Self
        ensures { result ≡ ran_refused number }
    {
        RunResult {
            number,
            moves: 0,
            places: [0u16; 48],
            bookmark: 0,
        }
    }
}

// What the work of the program `members` hands back: the number of a refusal or 0, how many members, and the moves.
#[derive(Clone, Copy)]
pub struct MembersResult {
    pub number: u32,
    pub count: usize,
    pub moves: u32,
}

impl MembersResult {
    // The same, of the work of the program `members`.
    pub fn refused(number: u32) -> Self
        ensures { result ≡ counted_refused number }
    {
        MembersResult {
            number,
            count: 0,
            moves: 0,
        }
    }
}

// What is said of a run before it: the number of a refusal or 0, the most members, the most moves, and the most bytes of a delivery.
#[repr(C)]
#[derive(Clone, Copy)]
pub struct BoundsResult {
    pub number: u32,
    pub members: u32,
    pub moves: u32,
    pub bytes: usize,
}

impl BoundsResult {
    // The same, of what is said before a run.
    pub fn refused(number: u32) -> Self
        ensures { result ≡ bounded_refused number }
    {
        BoundsResult {
            number,
            members: 0,
            moves: 0,
            bytes: 0,
        }
    }
}
