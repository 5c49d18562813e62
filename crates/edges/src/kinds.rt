// A case of the script by its kind: its fields are read, and the call is made. Each function answers what the line came to.
use crate::fault::Fault;
use crate::joins::Delivery;
use crate::laid::Laid;
use crate::line::Fields;
use crate::outcome::Outcome;
use crate::stored::Written;
use crate::{joins, limits, programs, runs, stored, updates};
use changed::lent::Request;
use compare::lent::{Calls, Source};
use evaluator::{Begin, Change, Lists};
use std::alloc::Global;
use std::ops::RangeInclusive;

#[derive(Clone, Copy, Debug, PartialEq, Eq)]
pub enum Kind {
    Run,
    Test,
    Encode,
    Part,
    Rows,
    Update,
    Bounds,
    Join,
    Upgrade,
    Downgrade,
    Decode,
    Members,
    Unpack,
    Pack,
}

impl TryFrom<&[u8]> for Kind {
    type Error = Fault;

    fn try_from(word: &[u8]) -> Result<Kind, Fault> {
        Ok(match word {
            b"run" => Kind::Run,
            b"test" => Kind::Test,
            b"encode" => Kind::Encode,
            b"part" => Kind::Part,
            b"rows" => Kind::Rows,
            b"update" => Kind::Update,
            b"bounds" => Kind::Bounds,
            b"join" => Kind::Join,
            b"upgrade" => Kind::Upgrade,
            b"downgrade" => Kind::Downgrade,
            b"decode" => Kind::Decode,
            b"members" => Kind::Members,
            b"unpack" => Kind::Unpack,
            b"pack" => Kind::Pack,
            _ => return Err(Fault::Unread),
        })
    }
}

impl Kind {
    // How many fields a line of this kind needs, with the name and the kind itself, and how many it knows. Those that it does not need
    // may be missing from the end of a line on; the default of each is said where it is read, by `Fields::one_or`.
    fn fields(self) -> RangeInclusive<usize> {
        match self {
            Kind::Run => 6..=7,
            Kind::Test => 4..=5,
            Kind::Encode | Kind::Unpack | Kind::Pack => 4..=6,
            Kind::Part => 5..=6,
            Kind::Rows => 8..=10,
            Kind::Update => 10..=11,
            Kind::Bounds => 4..=4,
            Kind::Join => 4..=7,
            Kind::Upgrade | Kind::Downgrade => 3..=4,
            Kind::Decode | Kind::Members => 4..=5,
        }
    }
}

// The word of lists, the last field that a kind knows: of a line that lacks it, every list was delivered.
fn word(line: Fields, kind: Kind) -> Result<u32, Fault> {
    let last = kind.fields().end().saturating_sub(1);
    if line.count() <= last {
        return Ok(u32::MAX);
    }
    line.one_32(last)
}

// A line that lacks a field, or has one that its kind does not know, does not read.
pub fn case<R: Print>(rt: &R, alloc: Global, line: Fields) -> Result<Outcome, Fault> {
    let kind = Kind::try_from(line.field(1))?;
    if !kind.fields().contains(&line.count()) {
        return Err(Fault::Unread);
    }
    match kind {
        Kind::Run => run(rt, alloc, line),
        Kind::Test | Kind::Encode | Kind::Part | Kind::Rows | Kind::Update => {
            of_lists(rt, alloc, line, kind)
        }
        Kind::Bounds => bounds(rt, alloc, line),
        Kind::Join => join(rt, alloc, line),
        Kind::Upgrade | Kind::Downgrade => moved(rt, alloc, line, kind),
        Kind::Decode => decode(rt, alloc, line),
        Kind::Members => members(rt, alloc, line),
        Kind::Unpack => unpack(rt, alloc, line),
        Kind::Pack => pack(rt, alloc, line),
    }
}

// An expression in row form, packed.
fn packed(alloc: Global, nodes: &[u8], lists: &Lists) -> Result<Vec<u8>, Fault> {
    let mut row = vec![in alloc; 0u8; 80]?;
    let w = forms::pack_expression(nodes, lists.count, lists.word, &mut row);
    row.truncate(w.count);
    if row.is_empty() {
        return Err(Fault::Unread);
    }
    Ok(row)
}

// name | run | lists | nodes | bookmark | calls [| word], where the nodes read: only `rows` has an expression that is refused
fn run<R: Print>(rt: &R, alloc: Global, line: Fields) -> Result<Outcome, Fault> {
    let laid = Laid::lists(alloc, line, 2)?;
    let lists = evaluator::laid(&laid.ends, word(line, Kind::Run)?);
    let nodes = line.nodes(alloc, 3)?;
    let begin = Begin {
        bookmark: line.one(4)?,
    };
    let calls = line.calls(alloc, 5)?;
    let packed = packed(alloc, &nodes, &lists)?;
    let source = Source {
        numbers: &laid.numbers,
        lists,
        packed: &packed,
    };
    let calls = Calls {
        codes: &calls.codes,
        arguments: &calls.arguments,
    };
    Ok(runs::run_from(rt, line.name(), source, begin, calls)?)
}

// name | kind | numbers | ends, what else the kind has, and [| word]
fn of_lists<R: Print>(rt: &R, alloc: Global, line: Fields, kind: Kind) -> Result<Outcome, Fault> {
    let ends = line.whole(alloc, 3)?;
    let lists = evaluator::laid(&ends, word(line, kind)?);
    let numbers = Laid::numbers(alloc, line, 2)?;
    match kind {
        Kind::Test => stored::test(rt, line.name(), &numbers, &lists)?,
        Kind::Part => stored::part(rt, line.name(), &numbers, &lists, line.size(4)?)?,
        Kind::Rows => return rows(rt, alloc, line, &numbers, lists),
        Kind::Update => return update(rt, alloc, line, &numbers, lists),
        _ => stored::encode(rt, line.name(), &numbers, &lists, line.room(4, 64)?)?,
    }
    Ok(Outcome::Run)
}

// rows | numbers | ends | packed | bookmark | codes | arguments [| room]
fn rows<R: Print>(
    rt: &R,
    alloc: Global,
    line: Fields,
    numbers: &[u32],
    lists: Lists,
) -> Result<Outcome, Fault> {
    let packed = line.bytes(alloc, 4)?;
    let begin = Begin {
        bookmark: line.one(5)?,
    };
    let codes = line.nodes(alloc, 6)?;
    let arguments = line.whole(alloc, 7)?;
    let room = line.room(8, 64)?;
    let source = Source {
        numbers,
        lists,
        packed: &packed,
    };
    let calls = Calls {
        codes: &codes,
        arguments: &arguments,
    };
    Ok(runs::run_rows(rt, line.name(), source, begin, calls, room)?)
}

// update | numbers | ends | packed | list number | number | add | kept row | count
fn update<R: Print>(
    rt: &R,
    alloc: Global,
    line: Fields,
    numbers: &[u32],
    lists: Lists,
) -> Result<Outcome, Fault> {
    let packed = line.bytes(alloc, 4)?;
    let change = Change {
        list: line.size(5)?,
        number: line.one_32(6)?,
        add: line.one_8(7)?,
    };
    let kept = line.whole(alloc, 8)?;
    let request = Request {
        source: Source {
            numbers,
            lists,
            packed: &packed,
        },
        change,
        kept: &kept,
        count: line.size(9)?,
    };
    Ok(updates::update(rt, alloc, line.name(), request)?)
}

// name | bounds | ends | packed. The call takes no word: every list counts as delivered
fn bounds<R: Print>(rt: &R, alloc: Global, line: Fields) -> Result<Outcome, Fault> {
    let ends = line.whole(alloc, 2)?;
    let packed = line.bytes(alloc, 3)?;
    let lists = evaluator::laid(&ends, u32::MAX);
    Ok(limits::bounds(rt, line.name(), lists, &packed)?)
}

// name | kind | bytes [| room]: a delivery moved from its old form to the new one, or back
fn moved<R: Print>(rt: &R, alloc: Global, line: Fields, kind: Kind) -> Result<Outcome, Fault> {
    let bytes = line.bytes(alloc, 2)?;
    let room = line.room(3, 64)?;
    let (word, w) = match kind {
        Kind::Upgrade => (
            "upgrade",
            Written::of(
                room,
                |row: &mut [u8]| convert::upgrade_delivery(&bytes, row),
            ),
        ),
        _ => (
            "downgrade",
            Written::of(
                room,
                |row: &mut [u8]| convert::downgrade_delivery(&bytes, row),
            ),
        ),
    };
    stored::moved(rt, line.name(), word, &bytes, room, &w)?;
    Ok(Outcome::Run)
}

// name | join | full delivery | daily delivery [| room [| zero bytes behind the full one [| and behind the daily one]]]
fn join<R: Print>(rt: &R, alloc: Global, line: Fields) -> Result<Outcome, Fault> {
    let full = line.bytes(alloc, 2)?;
    let daily = line.bytes(alloc, 3)?;
    let room = line.room(4, 16384)?;
    let full = Delivery {
        bytes: &full,
        zeros: line.one_or(5, 65536, 0)?,
    };
    let daily = Delivery {
        bytes: &daily,
        zeros: line.one_or(6, 65536, 0)?,
    };
    Ok(joins::join(rt, alloc, line.name(), full, daily, room)?)
}

// decode | bytes | room for numbers [| room for ends]
fn decode<R: Print>(rt: &R, alloc: Global, line: Fields) -> Result<Outcome, Fault> {
    let bytes = line.bytes(alloc, 2)?;
    let room = line.size(3)?;
    let end_room = line.room(4, 64)?;
    if 64 < room {
        return Err(Fault::Unread);
    }
    stored::decode(rt, line.name(), &bytes, room, end_room)?;
    Ok(Outcome::Run)
}

// members | input | zero bytes behind it [| room]
fn members<R: Print>(rt: &R, alloc: Global, line: Fields) -> Result<Outcome, Fault> {
    let bytes = line.bytes(alloc, 2)?;
    let zeros = line.size(3)?;
    let room = line.room(4, 4096)?;
    if 65536 < zeros {
        return Err(Fault::Unread);
    }
    Ok(programs::list(rt, alloc, line.name(), &bytes, zeros, room)?)
}

// So many lists, of which only their number and the word count.
fn counted(line: Fields, kind: Kind) -> Result<Lists, Fault> {
    Ok(Lists {
        ends: [0; 80],
        count: line.size(3)?,
        word: word(line, kind)?,
    })
}

// unpack and pack | .. | number of lists [| room [| word]]
fn unpack<R: Print>(rt: &R, alloc: Global, line: Fields) -> Result<Outcome, Fault> {
    let bytes = line.bytes(alloc, 2)?;
    let lists = counted(line, Kind::Unpack)?;
    stored::unpack(rt, line.name(), &bytes, &lists, line.room(4, 64)?)?;
    Ok(Outcome::Run)
}

fn pack<R: Print>(rt: &R, alloc: Global, line: Fields) -> Result<Outcome, Fault> {
    let nodes = line.nodes(alloc, 2)?;
    let lists = counted(line, Kind::Pack)?;
    stored::pack(rt, line.name(), &nodes, &lists, line.room(4, 64)?)?;
    Ok(Outcome::Run)
}
