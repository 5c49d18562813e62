// A row form read, and made again from parts of another.
ghost use Rattle.std.specs.Prelude.{◌<◌};

use cases::Row;
use std::ops::Range;

// Node bytes: 64 a difference, 128 and 192 with the number of members a union and an intersection.
pub const DIFFERENCE: u8 = 64;

pub const UNION: u8 = 128;

pub const INTERSECTION: u8 = 192;

// The nodes that there are.
pub(crate) fn nodes(row: &Row) -> &[u8] {
    row.bytes.get(..row.count).unwrap_or(&row.bytes)
}

// The node at a place.
pub fn node(row: &Row, at: usize) -> u8 {
    row.bytes[at % 48]
}

pub fn is_union(node: u8) -> bool {
    (UNION..INTERSECTION).contains(&node)
}

pub fn is_intersection(node: u8) -> bool {
    INTERSECTION <= node
}

// How many members a node has.
pub fn members(node: u8) -> usize
    ensures { result < 64 }
{
    match node {
        0..DIFFERENCE => 0,
        DIFFERENCE => 2,
        _ => usize::from(node % 64),
    }
}

// Where the node at a place ends: one behind the last of its nodes.
pub fn after(row: &Row, from: usize) -> usize {
    let mut owed: usize = 1;
    for at in from..48 {
        if owed == 0 {
            return at;
        }
        owed = (owed - 1).wrapping_add(members(node(row, at)));
    }
    from.max(48)
}

// Where member k of the node at a place begins.
pub fn member(row: &Row, at: usize, k: usize) -> usize {
    (0..k).fold(at % 48 + 1, |place, _| after(row, place))
}

// No nodes.
pub fn empty() -> Row {
    Row {
        bytes: [0; 48],
        count: 0,
    }
}

// One node more; a row of more than 48 has the count 49, and keeps no more.
pub fn with_node(row: Row, node: u8) -> Row {
    let mut more = row;
    match more.bytes.get_mut(row.count) {
        Some(place) => {
            *place = node;
            more.count = row.count + 1;
        }
        None => more.count = 49,
    }
    more
}

// So many differences more.
pub fn with_differences(row: Row, n: usize) -> Row {
    (0..n).fold(row, |more, _| with_node(more, DIFFERENCE))
}

// The nodes of another row at these places more.
pub fn with_part(row: Row, from: &Row, places: Range<usize>) -> Row {
    places.fold(row, |more, at| with_node(more, node(from, at)))
}

// The most members that a node of a row has.
pub fn widest(row: &Row) -> usize {
    nodes(row)
        .iter()
        .map(|node| members(*node))
        .max()
        .unwrap_or(0)
}
