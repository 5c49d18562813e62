// The packed expression read into its nodes, in expression order.
ghost use Rattle.std.specs.Prelude.{◌≡◌, ◌<◌, ◌≤◌, ◌+◌, ◌^◌, IfOk, IfErr};
ghost use Rattle.evaluator.specs.Node.{IsNode, union_of};

use crate::Refusal;
use crate::lent::Lists;

// A leaf with its list's number, or an operator; a union and an intersection with how many members they have.
#[derive(Clone, Copy)]
pub enum Node {
    List(u8),
    Difference,
    Union(u8),
    Intersection(u8),
}

impl Node {
    // How many members a node has, at most 8: a list none.
    pub fn members(self) -> u8
        ensures { result ≤ 8 }
    {
        match self {
            Node::List(_) => 0,
            Node::Difference => 2,
            Node::Union(n) | Node::Intersection(n) => n.min(8),
        }
    }

    // A list as it is, an operator as a union of as many members.
    pub fn as_union(self) -> Node
        ensures { result ≡ union_of self }
    {
        match self {
            Node::List(_) | Node::Union(_) => self,
            Node::Difference => Node::Union(2),
            Node::Intersection(n) => Node::Union(n),
        }
    }
}

// The nodes read, of which there are count. They are kept without an allocator, in an array.
#[derive(Clone, Copy)]
pub struct Nodes {
    pub row: [Node; 48],
    count: usize,
}

impl Nodes {
    pub fn read(&self) -> &[Node] {
        self.row.get(..self.count).unwrap_or(&self.row)
    }
}

// The bits of a packed expression, the most significant bit of a byte first, read up to a position.
#[derive(Drop)]
struct Bits<'a> {
    packed: &'a [u8],
    at: usize,
}

impl Bits<'_> {
    // The bit at a position; 0 behind the end.
    fn bit(&self, at: usize) -> u8
        ensures { result < 2 }
    {
        match self.packed.get(at / 8) {
            Some(byte) => *byte >> (7 - at % 8) & 1,
            None => 0,
        }
    }

    // The field of a few bits at the position. All nodes take at most 48 times 7 bits.
    fn field(&self, width: usize) -> u8
        requires { (self.now.at ≤ 400) × (width ≤ 8) }
        ensures { result < 2 ^ width }
    {
        let mut read = 0;
        for i in 0..width {
            read = read * 2 + self.bit(self.at + i);
        }
        read
    }

    // The next field of a few bits, unless its bits run out.
    fn take(&mut self, width: usize) -> Result<u8, Refusal>
        requires { (self.old.at ≤ 400) × (width ≤ 8) }
        ensures field { IfOk result (λ x. x < 2 ^ width) }
        ensures behind { IfOk result (λ x. self.new.at ≡ self.old.at + width) }
        ensures stays { IfErr result (λ e. self.new.at ≡ self.old.at) }
    {
        let end = self.at + width;
        if self.packed.len() < end.div_ceil(8) {
            return Err(Refusal::BitsRunOut);
        }
        let read = self.field(width);
        self.at = end;
        Ok(read)
    }

    // Whether the bits from the position on are fewer than eight and all 0.
    fn is_fill(&self) -> bool
        requires { self.now.at ≤ 336 }
    {
        self.packed.len() == self.at.div_ceil(8) && self.field((8 - self.at % 8) % 8) == 0
    }

    // How many members an operator has: the field is one less.
    fn take_count(&mut self) -> Result<u8, Refusal>
        requires { self.old.at ≤ 400 }
        ensures count { IfOk result (λ n. (1 ≤ n) × (n ≤ 8)) }
        ensures behind { IfOk result (λ n. self.new.at ≡ self.old.at + 3) }
        ensures stays { IfErr result (λ e. self.new.at ≡ self.old.at) }
    {
        Ok(self.take(3)? + 1)
    }

    // The next node, of 2 to 7 bits.
    fn take_node(&mut self, lists: &Lists) -> Result<Node, Refusal>
        requires { self.old.at ≤ 336 }
        ensures node { IfOk result IsNode }
        ensures least { IfOk result (λ n. self.old.at + 2 ≤ self.new.at) }
        ensures most { self.new.at ≤ self.old.at + 7 }
    {
        match self.take(2)? {
            0 => leaf(self.take(5)?, lists),
            1 => Ok(Node::Difference),
            2 => Ok(Node::Union(self.take_count()?)),
            _ => Ok(Node::Intersection(self.take_count()?)),
        }
    }
}

// The leaf that names a list, which is there and was delivered.
fn leaf(list: u8, lists: &Lists) -> Result<Node, Refusal>
    ensures { IfOk result (λ node. node ≡ Node.List list) }
{
    let k = usize::from(list);
    if lists.count <= k {
        return Err(Refusal::NoSuchList);
    }
    if !lists.is_delivered(k) {
        return Err(Refusal::NotDelivered);
    }
    Ok(Node::List(list))
}

// How many of these nodes are operators whose members are not all read. Going from right to left, whole counts the nodes read to
// their end that belong to no operator yet. An operator that wants more of them is not whole itself, so the count starts again to its
// left.
fn open(nodes: &[Node]) -> usize {
    let mut found: usize = 0;
    let mut whole: u8 = 0;
    for node in nodes.iter().rev() {
        match whole.checked_sub(node.members()) {
            Some(left) => whole = left.wrapping_add(1),
            None => {
                found = found.wrapping_add(1);
                whole = 0;
            }
        }
    }
    found
}

// The expression's nodes. The next node's depth is one more than the operators that are open; where none is left open behind a node,
// that node was the last, and nothing but fill is left over.
pub fn nodes_of(packed: &[u8], lists: &Lists) -> Result<Nodes, Refusal> {
    let mut row = [Node::List(0); 48];
    let mut bits = Bits { packed, at: 0 };
    let mut opened = 0;
    for last in 0..48 {
        if 12 <= opened {
            return Err(Refusal::TooDeep);
        }
        row[last] = bits.take_node(lists)?;
        let count = last + 1;
        opened = open(&row[..count]);
        if opened == 0 {
            return ended(&bits, Nodes { row, count });
        }
    }
    Err(Refusal::TooManyNodes)
}

// What a whole expression comes to.
fn ended(bits: &Bits, nodes: Nodes) -> Result<Nodes, Refusal>
    requires { bits.now.at ≤ 336 }
{
    if bits.is_fill() {
        Ok(nodes)
    } else {
        Err(Refusal::BadFill)
    }
}
