// Why a call refuses what it is given, and what is handed back to C for it: "A refusal hands back its number, every other part of
// the result 0". Within the engine a refusal goes up as an `Err`; its number is the paper's only where it leaves.
#![tactic(auto)]

ghost use Rattle.std.specs.Prelude.{◌≡◌};
ghost use Rattle.refusals.specs.Numbers.{IsNumber, written_as};

use model::WriteResult;

// What is refused, in the order of its numbers.
#[derive(Clone, Copy, Debug, PartialEq, Eq)]
pub enum Refusal {
    // bits or row end early
    RunsOut,
    // a 49th node
    TooManyNodes,
    // a node at depth 13
    TooDeep,
    NoSuchList,
    // a whole byte or node, or a fill bit of 1
    LeftOver,
    // a lent row is too short
    NoRoom,
    // 0 lists, or more than 32
    ListCount,
    GapPassesTop,
    WidthNotLeast,
    // ends fall, pass the row, or have a list be too long
    BadEnds,
    NotAscending,
    BadBookmark,
    // codes, numbers and replies do not fit together
    RowLengths,
    UnknownByte,
    // an added number is there already, or a removed one is not
    NothingChanges,
    ListFull,
    // a kept row does not hold the members
    NotKept,
    NotDelivered,
    // a list that 01's form could not tell from an empty one
    ListMissing,
    CountsDiffer,
    // a joined list is over 65,535
    JoinTooLong,
}

impl From<Refusal> for u32 {
    ghost from_gives = { IsNumber };

    fn from(refusal: Refusal) -> u32 {
        match refusal {
            Refusal::RunsOut => 1,
            Refusal::TooManyNodes => 2,
            Refusal::TooDeep => 3,
            Refusal::NoSuchList => 4,
            Refusal::LeftOver => 5,
            Refusal::NoRoom => 6,
            Refusal::ListCount => 7,
            Refusal::GapPassesTop => 8,
            Refusal::WidthNotLeast => 9,
            Refusal::BadEnds => 10,
            Refusal::NotAscending => 11,
            Refusal::BadBookmark => 12,
            Refusal::RowLengths => 13,
            Refusal::UnknownByte => 14,
            Refusal::NothingChanges => 15,
            Refusal::ListFull => 16,
            Refusal::NotKept => 17,
            Refusal::NotDelivered => 18,
            Refusal::ListMissing => 19,
            Refusal::CountsDiffer => 20,
            Refusal::JoinTooLong => 21,
        }
    }
}

// What is handed back for so many elements written, or for a refusal.
pub fn written(answer: Result<usize, Refusal>) -> WriteResult
    ensures { result ≡ written_as answer }
{
    match answer {
        Ok(count) => WriteResult { number: 0, count },
        Err(refusal) => WriteResult::refused(u32::from(refusal)),
    }
}
