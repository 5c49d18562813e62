// How far the readers of an expression can move, and how large it can get, from the ends and the expression alone. There is no stack:
// the bounds of all nodes are worked out in rounds, until the root's is settled.
ghost use Rattle.std.specs.Prelude.{◌<◌};

use crate::Refusal;
use crate::lent::Lists;
use crate::tokens::{Node, nodes_of};

// The most members, the most moves, and the most bytes of a delivery.
#[derive(Clone, Copy)]
pub struct Bounded {
    pub members: u32,
    pub moves: u32,
    pub bytes: usize,
}

// The length of a leaf's list, 0 at an operator.
fn length(lists: &Lists, node: Node) -> u32 {
    match node {
        Node::List(k) => lists.size(usize::from(k)),
        _ => 0,
    }
}

// Of each node in expression order the length of its list, 0 at an operator.
fn lengths_of(lists: &Lists, nodes: &[Node]) -> [u32; 48] {
    let mut found = [0u32; 48];
    for (place, node) in found.iter_mut().zip(nodes) {
        *place = length(lists, *node);
    }
    found
}

// The lengths where ends, in so long a row, and expression read.
fn read_lengths(row: usize, lists: &Lists, packed: &[u8]) -> Result<[u32; 48], Refusal> {
    lists.check_ends(row)?;
    let nodes = nodes_of(packed, lists)?;
    Ok(lengths_of(lists, nodes.read()))
}

// Of each node in expression order the length of its list, 0 at an operator or where there is no node: what its
// reader's place can reach. All 0 where the ends, in so long a row, or the expression do not read.
pub fn lengths(row: usize, lists: Lists, packed: &[u8]) -> [u32; 48] {
    read_lengths(row, &lists, packed).unwrap_or([0; 48])
}

// The place behind the tree that begins at a place: from the left, as long as nodes of it are owed.
fn behind(nodes: &[Node; 48], from: usize) -> usize {
    let mut owed: u8 = 1;
    for i in from..48 {
        owed = owed.wrapping_sub(1).wrapping_add(nodes[i].members());
        if owed == 0 {
            return i + 1;
        }
    }
    48
}

// An operator's bound from its members': a union's is their sum, an intersection's the least, a difference's the first. The first
// member stands straight behind the operator, every other one behind the tree before it.
fn bound(nodes: &[Node; 48], bounds: &[u32; 48], operator: usize) -> u32
    requires { operator < 48 }
{
    let node = nodes[operator];
    let mut at = operator + 1;
    let mut found = bounds[at % 48];
    for _ in 1..node.members() {
        at = behind(nodes, at);
        let next = bounds[at % 48];
        found = match node {
            Node::Union(_) => found.wrapping_add(next),
            Node::Intersection(_) => found.min(next),
            _ => found,
        };
    }
    found
}

// The bounds after one more round, in which each operator's is worked out anew from its members' as they are then.
fn round(nodes: &[Node; 48], bounds: [u32; 48]) -> [u32; 48] {
    let mut new = bounds;
    for i in 0..48 {
        if 0 < nodes[i].members() {
            new[i] = bound(nodes, &new, i);
        }
    }
    new
}

// The root's bound. A list's is its length, an operator's 0 at first. With every round one more depth is right; twelve rounds are
// enough for depth 12.
fn settled(nodes: &[Node; 48], lengths: [u32; 48]) -> u32 {
    let mut bounds = lengths;
    for _ in 0..12 {
        bounds = round(nodes, bounds);
    }
    bounds[0]
}

// The nodes with each operator as a union of as many members: whatever joined them, its bound is their sum.
fn unions_of(nodes: &[Node; 48]) -> [Node; 48] {
    let mut unions = *nodes;
    for node in unions.iter_mut() {
        *node = node.as_union();
    }
    unions
}

// The bits of a list of so many numbers: its own and its count's, 32 for every number, and the width's where there are two or more.
fn bits(n: u32) -> usize {
    let width = if 1 < n { 5 } else { 0 };
    1 + 16 + 32 * n as usize + width
}

// The most bytes of a delivery of the lists.
fn bytes(lists: &Lists) -> usize {
    let all = (0..lists.count).fold(6, |sum: usize, k| sum.wrapping_add(bits(lists.size(k))));
    all.div_ceil(8)
}

// How large it can get with lists of these ends. There is no row for an end to pass, and every list counts as delivered. The moves'
// bound is the sum of all leaves, whatever joins them.
pub fn bounds(lists: Lists, packed: &[u8]) -> Result<Bounded, Refusal> {
    let all = Lists {
        word: u32::MAX,
        ..lists
    };
    all.check_ends(usize::MAX)?;
    let nodes = nodes_of(packed, &all)?;
    let leaves = lengths_of(&all, nodes.read());
    Ok(Bounded {
        members: settled(&nodes.row, leaves),
        moves: settled(&unions_of(&nodes.row), leaves),
        bytes: bytes(&all),
    })
}
