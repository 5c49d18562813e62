// How large it will get, from the ends and the expression alone: the most members, the most moves, and the most bytes of a delivery.
// No number is read. The nodes are gone through one by one, so the stack does not depend on the expression.
#![tactic(auto)]

ghost use Rattle.std.specs.Prelude.{◌≡◌, true, ℕ, ◌≤◌, ◌<◌, ◌^◌, length, get_or};
ghost use Rattle.model.specs.declared.Node.{Node};
ghost use Rattle.model.specs.declared.Node.TheVariants.{Leaf};
ghost use Rattle.model.specs.Outcome.{accepted};
ghost use Rattle.model.specs.Forms.{node_of};
ghost use Rattle.model.specs.Demands.{sum};
ghost use Rattle.model.specs.Bounds.{lengths_from, ends_rise, most_bytes, bounds as bounds_call, bounded};
ghost use Rattle.bounds.specs.Handed.{bounded_as};
ghost use Rattle.bounds.specs.Backwards.{least, bound, trees, Fed, Whole, leaf_length, leaf_lengths};
ghost use Rattle.expression.specs.Reading.{members};

use expression::Form;
use model::{BoundsResult, Node};
use refusals::Refusal;

// As many numbers as 32 lists can have: no row is lent, and this one no end passes unless a list is too long.
const NO_ROW: usize = 2097120;

// The word with which every list was delivered: "the expression's but 18".
const EVERY_LIST: u32 = 4294967295;

// How many numbers list k has.
fn list_length(ends: &[u32], k: usize) -> u32
    requires { (ends_rise 0 ends.now ≡ true) × (k < length ends.now) }
    ensures { result ≡ get_or (lengths_from 0 ends.now) k 0 }
{
    lists::length_of(ends, k) as u32
}

// The sum of a row.
fn sum_of(row: &[u32]) -> u32
    requires { sum row.now < 2 ^ 32 }
    ensures { result ≡ sum row.now }
{
    row.iter().sum()
}

// The least of a row, 0 of an empty one.
fn least_of(row: &[u32]) -> u32
    ensures { result ≡ least row.now }
{
    row.iter().copied().min().unwrap_or(0)
}

// The node of a byte that is one; of any other nothing is said, and none is asked.
fn known(b: u8) -> Node
    ensures { (n : Node) → node_of b ≡ accepted n → result ≡ n }
{
    expression::node_of(b).unwrap_or(Node::Difference)
}

// "a list its length, a union the sum, an intersection the least, a difference its first part's": from the bounds of its member nodes.
fn bound_of(ends: &[u32], node: Node, parts: &[u32]) -> u32
    requires ends_value { (ends_rise 0 ends.now ≡ true) × (sum parts.now < 2 ^ 32) }
    requires parts_len { (length parts.now ≡ members node) × Fed (length ends.now) (length parts.now) node }
    ensures { result ≡ bound (lengths_from 0 ends.now) node parts.now }
{
    match node {
        Node::Leaf(k) => list_length(ends, k as usize),
        Node::Difference => parts[0],
        Node::Union(_) => sum_of(parts),
        Node::Intersection(_) => least_of(parts),
    }
}

// The bound on the members: the bounds of the trees that stand from a node on are kept in order, that node's first, at `at`.
fn most_members(ends: &[u32], nodes: &[u8]) -> u32
    requires ends_value { (ends_rise 0 ends.now ≡ true) × (length nodes.now ≤ 48) }
    requires whole { Whole (lengths_from 0 ends.now) nodes.now × (1 ≤ length (trees (lengths_from 0 ends.now) nodes.now)) }
    ensures { result ≡ get_or (trees (lengths_from 0 ends.now) nodes.now) 0 0 }
{
    let mut bounds = [0u32; 48];
    let mut at: usize = 48;
    for &b in nodes.iter().rev() {
        let node = known(b);
        let behind = at + expression::members_of(node) as usize;
        let bound = bound_of(ends, node, &bounds[at..behind]);
        at = behind - 1;
        bounds[at] = bound;
    }
    bounds[at]
}

// The length of a leaf's list; an operator has no reader, and makes no moves.
fn leaf_length(ends: &[u32], node: Node) -> u32
    requires ends_value { ends_rise 0 ends.now ≡ true }
    requires by_index { (k : ℕ) → node ≡ Leaf k → k < length ends.now }
    ensures { result ≡ leaf_length (lengths_from 0 ends.now) node }
{
    match node {
        Node::Leaf(k) => list_length(ends, k as usize),
        Node::Difference | Node::Union(_) | Node::Intersection(_) => 0,
    }
}

// The bound on the moves: "the summed leaf lengths", a list once for every leaf.
fn most_moves(ends: &[u32], nodes: &[u8]) -> u32
    requires ends_value { (ends_rise 0 ends.now ≡ true) × (length nodes.now ≤ 48) }
    requires whole { Whole (lengths_from 0 ends.now) nodes.now }
    ensures { result ≡ leaf_lengths (lengths_from 0 ends.now) nodes.now }
{
    let mut moves: u32 = 0;
    for &b in nodes {
        moves += leaf_length(ends, known(b));
    }
    moves
}

// "the most bytes a delivery of these lengths can fill in Two's form, each width taken as 32. Every list counts as delivered".
fn most_bytes(ends: &[u32]) -> usize
    requires { (ends_rise 0 ends.now ≡ true) × (length ends.now ≤ 32) }
    ensures { result ≡ most_bytes (lengths_from 0 ends.now) }
{
    let mut bits: usize = 6;
    for k in 0..ends.len() {
        bits += encode::bits_of(true, lists::length_of(ends, k), 32);
    }
    // up to a whole byte
    (bits + 7) >> 3
}

// What is known of every run over lists with these ends, and of every delivery of them, or what refuses it.
fn foresee(ends: &[u32], packed: &[u8]) -> Result<BoundsResult, Refusal>
    ensures { bounded (bounded_as result) ≡ bounds_call ends.now packed.now }
{
    if !lists::count_holds(ends.len()) {
        return Err(Refusal::ListCount);
    }
    if !lists::ends_hold(NO_ROW, ends) {
        return Err(Refusal::BadEnds);
    }
    let e = expression::read_expression(Form::Packed, packed, ends.len(), EVERY_LIST)?;
    let nodes = &e.nodes[..e.count];
    Ok(BoundsResult {
        number: 0,
        members: most_members(ends, nodes),
        moves: most_moves(ends, nodes),
        bytes: most_bytes(ends),
    })
}

// What is known of every run over lists with these ends, and of every delivery of them, before a number is read.
pub fn bounds(ends: &[u32], packed: &[u8]) -> BoundsResult
    ensures { bounded result ≡ bounds_call ends.now packed.now }
{
    match foresee(ends, packed) {
        Ok(found) => found,
        Err(refusal) => BoundsResult::refused(u32::from(refusal)),
    }
}
