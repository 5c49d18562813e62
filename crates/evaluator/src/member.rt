// Membership of one number, decided from the nodes and the lists alone.
use crate::change::Change;
use crate::lent::Lists;
use crate::tokens::Node;

// An expression over lent lists, with a change of one of them made, if there is one.
#[derive(Clone, Copy)]
pub struct Expression<'a> {
    pub numbers: &'a [u32],
    pub lists: &'a Lists,
    pub nodes: &'a [Node],
    pub change: Option<Change>,
}

impl Expression<'_> {
    // Whether x stands in list k.
    fn holds(&self, k: u8, x: u32) -> bool {
        let k = usize::from(k);
        match self.change {
            Some(c) if c.list == k && c.number == x => c.adds(),
            _ => self.lists.part(self.numbers, k).contains(&x),
        }
    }

    // Those of the lists that the nodes name that x stands in: bit k for list k. Each is looked up once, however many nodes name it.
    fn held(&self, x: u32) -> u32 {
        let mut named = 0;
        let mut held = 0;
        for node in self.nodes {
            if let Node::List(k) = *node {
                let own = bit(k);
                if named & own == 0 && self.holds(k, x) {
                    held |= own;
                }
                named |= own;
            }
        }
        held
    }

    // Whether x is a member. The nodes are gone over from right to left, so that the members of a node come before it; at most 48
    // truth values are stacked, as the bits of one number.
    pub fn has(&self, x: u32) -> bool {
        let held = self.held(x);
        let mut stack = 0;
        for node in self.nodes.iter().rev() {
            stack = with_node(stack, *node, held);
        }
        stack & 1 == 1
    }

    // The lower of two numbers, the second only if it is not below the floor and a member.
    fn lower(&self, best: Option<u32>, floor: u64, x: u32) -> Option<u32> {
        if floor <= u64::from(x) && best.is_none_or(|least| x < least) && self.has(x) {
            return Some(x);
        }
        best
    }

    // The least member not below the floor: all numbers up to the last end are tried, and the number of the change.
    pub fn least(&self, floor: u64) -> Option<u32> {
        let mut best = None;
        for x in self.numbers.iter().take(self.lists.used()) {
            best = self.lower(best, floor, *x);
        }
        match self.change {
            Some(c) => self.lower(best, floor, c.number),
            None => best,
        }
    }
}

// Whether a number that stands in these lists, bit k for list k, is denoted by a node, of whose members the lowest bits of the stack
// say it, the first member lowest.
fn is_in(node: Node, stack: u64, held: u32) -> bool {
    match node {
        Node::List(k) => held & bit(k) != 0,
        Node::Difference => stack & 3 == 1,
        Node::Union(n) => stack & ones(n) != 0,
        Node::Intersection(n) => stack & ones(n) == ones(n),
    }
}

// The stack after one more node: its members' truth values give way to its own.
fn with_node(stack: u64, node: Node, held: u32) -> u64 {
    let left = stack.wrapping_shr(u32::from(node.members()));
    left << 1 | u64::from(is_in(node, stack, held))
}

// The bit of list k.
fn bit(k: u8) -> u32 {
    1u32.wrapping_shl(u32::from(k))
}

// The lowest n bits set.
fn ones(n: u8) -> u64 {
    !u64::MAX.wrapping_shl(u32::from(n))
}
