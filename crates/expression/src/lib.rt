// Reading an expression in either stored form, into one byte a node: "At each node: 2, 3, 1, then 4 (in a row also 14)", and
// 18. "After the last: 5". It is the part that every call on an expression shares: 7 is tested ahead of it, and 6 behind it, by the
// call.
#![tactic(auto)]

ghost use Rattle.std.specs.Prelude.{◌≡◌, ◌*◌, ◌^◌, ◌≤◌, ◌<◌, length};
ghost use Rattle.model.specs.Outcome.{refused};
ghost use Rattle.model.specs.Forms.{row_byte, node_of, take_node, there};
ghost use Rattle.fields.specs.Positions.{take_at};
ghost use Rattle.refusals.specs.Numbers.{number, outcome};
ghost use Rattle.expression.specs.Reading.{step_says, IsRefused, byte_at, take_in, members, named, at_end, read_form, expression_of};

use model::Node;
use refusals::Refusal;

// The two stored forms.
#[derive(Clone, Copy)]
pub enum Form {
    Packed,
    Row,
}

// What reading a node finds: the node with the position behind it, or a refusal. 01 has an enum here, which `let .. else` takes
// apart, so it is no Result.
#[derive(Clone, Copy)]
enum Step {
    Node { node: Node, next: usize },
    Refused(Refusal),
}

// An expression read: how many nodes, and their row bytes with 0 behind them. They stand in a fixed row, for there is no heap.
#[derive(Drop)]
pub struct Expression {
    pub count: usize,
    pub nodes: [u8; 48],
}

// The node of a byte in the row form: "all others are unknown". No `TryFrom`: the node is of another crate, and 01 has this match.
#[tactic(auto, unfolding(model::specs::Forms::node_of))]
pub fn node_of(b: u8) -> Result<Node, Refusal>
    ensures { outcome result ≡ node_of b }
{
    match b {
        0..=31 => Ok(Node::Leaf(b)),
        64 => Ok(Node::Difference),
        129..=136 => Ok(Node::Union(b - 128)),
        193..=200 => Ok(Node::Intersection(b - 192)),
        _ => Err(Refusal::UnknownByte),
    }
}

// The packed node at the bit position at, with the position behind it.
#[tactic(auto, using(fields::proofs::Fields::took), unfolding(model::specs::Forms::take_node, model::specs::Forms::take_kind, model::specs::Forms::take_rest))]
fn packed_node(s: &[u8], at: usize) -> Result<(Node, usize), Refusal>
    requires { at < 2 ^ 61 }
    ensures { outcome result ≡ take_node (take_at s.now) at }
{
    let (kind, next) = fields::take_field(s, at, 2)?;
    match kind {
        0 => {
            let (list, last) = fields::take_field(s, next, 5)?;
            Ok((Node::Leaf(list as u8), last))
        }
        1 => Ok((Node::Difference, next)),
        2 => {
            let (less, last) = fields::take_field(s, next, 3)?;
            Ok((Node::Union(less as u8 + 1), last))
        }
        _ => {
            let (less, last) = fields::take_field(s, next, 3)?;
            Ok((Node::Intersection(less as u8 + 1), last))
        }
    }
}

// The node of a row at its place at, with the place behind it.
#[tactic(auto, unfolding(crate::specs::Reading::byte_at))]
fn row_node(s: &[u8], at: usize) -> Result<(Node, usize), Refusal>
    ensures { outcome result ≡ byte_at s.now at }
{
    if s.len() <= at {
        return Err(Refusal::RunsOut);
    }
    let node = node_of(s[at])?;
    Ok((node, at + 1))
}

// The node at a position, in either form.
fn read_node(form: Form, s: &[u8], at: usize) -> Step
    requires { at < 2 ^ 61 }
    ensures { step_says result ≡ take_in form s.now at }
{
    let taken = match form {
        Form::Packed => packed_node(s, at),
        Form::Row => row_node(s, at),
    };
    match taken {
        Ok((node, next)) => Step::Node { node, next },
        Err(refusal) => Step::Refused(refusal),
    }
}

// The test of a list number, of so many lists with this word: whether it is there, and was delivered.
#[tactic(auto, unfolding(model::specs::Forms::there))]
pub fn test_list(lists: usize, word: u32, k: usize) -> Result<(), Refusal>
    ensures { outcome result ≡ there lists word k }
{
    if lists <= k {
        return Err(Refusal::NoSuchList);
    }
    if !fields::word_bit(word, k) {
        return Err(Refusal::NotDelivered);
    }
    Ok(())
}

// The test of a leaf, of any node.
fn test_leaf(lists: usize, word: u32, node: Node) -> Result<(), Refusal>
    ensures { outcome result ≡ named (there lists word) node }
{
    match node {
        Node::Leaf(k) => test_list(lists, word, k as usize),
        Node::Difference | Node::Union(_) | Node::Intersection(_) => Ok(()),
    }
}

// The refusal of a step that found no node.
fn refusal_of(step: Step) -> Refusal
    requires { IsRefused step }
    ensures { step_says step ≡ refused (number result) }
{
    let Step::Refused(refusal) = step else {
        unreachable!()
    };
    refusal
}

// How many member nodes follow a node.
pub fn members_of(node: Node) -> u8
    ensures { result ≡ members node }
{
    match node {
        Node::Leaf(_) => 0,
        Node::Difference => 2,
        Node::Union(n) | Node::Intersection(n) => n,
    }
}

// The byte of a node in the row form. No `From`, which could not ask that there be at most 8 member nodes.
#[tactic(auto, unfolding(model::specs::Forms::row_byte))]
fn byte_of(node: Node) -> u8
    requires { members node ≤ 8 }
    ensures { result ≡ row_byte node }
{
    match node {
        Node::Leaf(k) => k,
        Node::Difference => 64,
        Node::Union(n) => 128 + n,
        Node::Intersection(n) => 192 + n,
    }
}

// Whether nothing is left behind a position but the fill of packed bits.
fn ended(form: Form, s: &[u8], at: usize) -> bool
    requires { (at ≤ 8 * length s.now) × (at < 2 ^ 61) }
    ensures { result ≡ at_end form s.now at }
{
    match form {
        Form::Packed => fields::only_fill(s, at),
        Form::Row => s.len() <= at,
    }
}

// The expression in the bytes s, in either form, where there are so many lists, with this word.
pub fn read_expression(form: Form, s: &[u8], lists: usize, word: u32) -> Result<Expression, Refusal>
    ensures { outcome result ≡ expression_of (read_form form (there lists word) s.now) }
{
    let mut nodes = [0u8; 48];
    // at each open level, how many member nodes are still to come; a list opens a level that has none. A stack in a fixed row, for
    // there is no heap
    let mut left = [0u8; 13];
    left[0] = 1;
    let mut depth = 1;
    let mut done = 0;
    let mut at = 0;
    while 0 < depth {
        let level = depth - 1;
        if left[level] == 0 {
            depth = level;
        } else {
            if done == 48 {
                return Err(Refusal::TooManyNodes);
            }
            if depth == 13 {
                return Err(Refusal::TooDeep);
            }
            let got = read_node(form, s, at);
            let Step::Node { node, next } = got else {
                return Err(refusal_of(got));
            };
            test_leaf(lists, word, node)?;
            left[level] -= 1;
            left[depth] = members_of(node);
            nodes[done] = byte_of(node);
            depth += 1;
            done += 1;
            at = next;
        }
    }
    if !ended(form, s, at) {
        return Err(Refusal::LeftOver);
    }
    Ok(Expression { count: done, nodes })
}
