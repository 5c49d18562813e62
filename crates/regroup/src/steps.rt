// The regroupings of one node, each by its place; none where a kind does not apply there.
ghost use Rattle.std.specs.Prelude.{◌≤◌};

use crate::rows::{
    DIFFERENCE, UNION, after, empty, is_intersection, is_union, member, members, node,
    with_differences, with_node, with_part,
};
use cases::Row;

// A union's or an intersection's byte with its number of members changed: so many more, and so many fewer.
fn resized(node: u8, more: usize, fewer: usize) -> u8 {
    let kind = node / 64 % 4 * 64;
    let n = members(node).wrapping_add(more).wrapping_sub(fewer);
    kind | (n % 64) as u8
}

pub(crate) fn is_many(node: u8) -> bool {
    UNION <= node
}

// Whether both are unions, or both intersections.
fn are_alike(a: u8, b: u8) -> bool {
    is_union(a) && is_union(b) || is_intersection(a) && is_intersection(b)
}

// Members i and j of a union or an intersection, i before j, in each other's place.
pub fn exchanged(row: &Row, at: usize, i: usize, j: usize) -> Option<Row> {
    let whole = node(row, at);
    if !is_many(whole) || j <= i || members(whole) <= j {
        return None;
    }
    let first = member(row, at, i);
    let second = member(row, at, j);
    let first_end = after(row, first);
    let second_end = after(row, second);
    let before = with_part(empty(), row, 0..first);
    let one = with_part(before, row, second..second_end);
    let between = with_part(one, row, first_end..second);
    let other = with_part(between, row, first..first_end);
    Some(with_part(other, row, second_end..row.count))
}

// Member k opened out: a union within a union, or an intersection within an intersection.
pub fn opened(row: &Row, at: usize, k: usize) -> Option<Row> {
    let whole = node(row, at);
    let place = member(row, at, k);
    let inner = node(row, place);
    if members(whole) <= k || !are_alike(whole, inner) {
        return None;
    }
    let before = with_part(empty(), row, 0..at);
    let wider = with_node(before, resized(whole, members(inner), 1));
    let ahead = with_part(wider, row, at % 48 + 1..place);
    Some(with_part(ahead, row, place % 48 + 1..row.count))
}

// So many members from k on, at least one, put into a union, or an intersection, of their own.
pub fn closed(row: &Row, at: usize, k: usize, n: usize) -> Option<Row> {
    let whole = node(row, at);
    let end = k % 64 + n % 64;
    if !is_many(whole) || n == 0 || members(whole) < end {
        return None;
    }
    let place = member(row, at, k);
    let before = with_part(empty(), row, 0..at);
    let narrower = with_node(before, resized(whole, 1, n));
    let ahead = with_part(narrower, row, at % 48 + 1..place);
    let inner = with_node(ahead, resized(whole, n, members(whole)));
    Some(with_part(inner, row, place..row.count))
}

// a - (b1 or .. or bn) as ((a - b1) .. - bn).
pub fn divided(row: &Row, at: usize) -> Option<Row> {
    let place = member(row, at, 1);
    let inner = node(row, place);
    if node(row, at) != DIFFERENCE || !is_union(inner) {
        return None;
    }
    let before = with_part(empty(), row, 0..at);
    let differences = with_differences(before, members(inner));
    let first = with_part(differences, row, at % 48 + 1..place);
    Some(with_part(first, row, place % 48 + 1..row.count))
}

// How many differences stand from a place on, each the first part of the one before, up to so many.
fn differences_from(row: &Row, at: usize, most: usize) -> usize
    ensures { result ≤ most }
{
    for i in 0..most {
        if node(row, at.wrapping_add(i)) != DIFFERENCE {
            return i;
        }
    }
    most
}

// ((a - b1) .. - bn) as a - (b1 or .. or bn), of as many differences as there are, up to `most`.
pub fn gathered(row: &Row, at: usize, most: usize) -> Option<Row> {
    let n = differences_from(row, at, most % 9);
    if n == 0 {
        return None;
    }
    let first = at % 48 + n;
    let end = after(row, first);
    let before = with_part(empty(), row, 0..at);
    let difference = with_node(before, DIFFERENCE);
    let minuend = with_part(difference, row, first..end);
    let union = with_node(minuend, resized(UNION, n, 0));
    Some(with_part(union, row, end..row.count))
}

// The intersection at a place, with member i of its own member, the union at another place, in that union's stead.
fn with_one(made: Row, row: &Row, at: usize, union: usize, i: usize) -> Row {
    let start = member(row, union, i);
    let whole = with_node(made, node(row, at));
    let ahead = with_part(whole, row, at % 48 + 1..union);
    let one = with_part(ahead, row, start..after(row, start));
    with_part(one, row, after(row, union)..after(row, at))
}

// An intersection with a union as member k, as the union of the intersections with one of its members each.
pub fn distributed(row: &Row, at: usize, k: usize) -> Option<Row> {
    let whole = node(row, at);
    let union = member(row, at, k);
    let inner = node(row, union);
    if !is_intersection(whole) || members(whole) <= k || !is_union(inner) {
        return None;
    }
    let before = with_part(empty(), row, 0..at);
    let outer = with_node(before, inner);
    let each = (0..members(inner)).fold(outer, |more, i| with_one(more, row, at, union, i));
    Some(with_part(each, row, after(row, at)..row.count))
}
