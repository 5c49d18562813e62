// An expression packed, bit by bit, so that the engine's packing can be compared with another.
use crate::inputs::Bytes;

// Bits in bytes, the most significant first, and how many there are.
#[derive(Clone, Copy)]
struct Bits {
    bytes: [u8; 64],
    count: usize,
}

impl Bits {
    // One bit more, behind the others.
    fn push(&mut self, one: bool) {
        let n = self.count % 512;
        self.bytes[n / 8] |= u8::from(one) << (7 - n % 8);
        self.count = n + 1;
    }

    // The lowest bits of a number, so many.
    fn push_field(&mut self, x: u8, width: u8) {
        for left in (0..width % 8).rev() {
            self.push(x >> left & 1 == 1);
        }
    }

    // A node: a list is kind 0 and 5 bits, a difference kind 1, a union kind 2 and an intersection kind 3 with 3 bits of its count
    // minus 1.
    fn push_node(&mut self, node: u8) {
        match node {
            0..=31 => self.push_field(node, 7),
            64 => self.push_field(1, 2),
            129..=136 => self.push_field(node - 113, 5),
            _ => self.push_field(node % 64 + 23, 5),
        }
    }
}

// The packed form of an expression's row.
pub fn packed(row: &[u8]) -> Bytes {
    let mut b = Bits {
        bytes: [0; 64],
        count: 0,
    };
    for node in row {
        b.push_node(*node);
    }
    Bytes {
        bytes: b.bytes,
        count: b.count.div_ceil(8),
    }
}
