// The limits of an expression: 48 nodes, operators of 8 members, depth 12.
use crate::rows::{DIFFERENCE, members, nodes};
use cases::Row;
use cases::trees::next_depth;

// How many nodes are owed at each depth behind one node more, which stands at the deepest depth that owes any; none past the limits.
fn past(owed: [u8; 13], node: u8) -> Option<[u8; 13]> {
    let mut left = owed;
    let depth = next_depth(owed);
    left[depth] = owed[depth].saturating_sub(1);
    if DIFFERENCE <= node {
        let n = members(node);
        if 8 < n {
            return None;
        }
        *left.get_mut(depth + 1)? = n as u8;
    }
    Some(left)
}

pub fn is_within(row: &Row) -> bool {
    let mut left = [0, 1, 0, 0, 0, 0, 0, 0, 0, 0, 0, 0, 0];
    for node in nodes(row) {
        let Some(owed) = past(left, *node) else {
            return false;
        };
        left = owed;
    }
    0 < row.count && row.count <= 48
}
