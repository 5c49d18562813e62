// Fields of bits in a row of bytes, bit by bit, the most significant bit of a byte first. Behind the end every bit is 0, and none is
// written.
ghost use Rattle.std.specs.Prelude.{◌<◌};

use crate::Refusal;

// A row of bytes, read up to a position.
#[derive(Drop)]
pub struct Bits<'a> {
    row: &'a [u8],
    at: usize,
}

impl<'a> Bits<'a> {
    pub fn new(row: &'a [u8]) -> Self {
        Bits { row, at: 0 }
    }

    // The bit at a position.
    fn bit(&self, at: usize) -> u32
        ensures { result < 2 }
    {
        match self.row.get(at / 8) {
            Some(byte) => u32::from(*byte >> (7 - at % 8) & 1),
            None => 0,
        }
    }

    // The field of at most 32 bits at the position.
    fn field(&self, width: usize) -> u32 {
        let mut read = 0;
        for i in 0..width {
            read = read << 1 | self.bit(self.at.wrapping_add(i));
        }
        read
    }

    // The next field of at most 32 bits, unless its bits run out.
    pub fn take(&mut self, width: usize) -> Result<u32, Refusal> {
        let end = self.at.wrapping_add(width);
        if self.row.len() < bytes(end) {
            return Err(Refusal::BitsRunOut);
        }
        let read = self.field(width);
        self.at = end;
        Ok(read)
    }

    // Whether the bits from the position on are fewer than eight and all 0.
    pub fn is_fill(&self) -> bool {
        self.row.len() == bytes(self.at) && self.field(fill(self.at)) == 0
    }
}

// How many bytes so many bits take.
pub fn bytes(bits: usize) -> usize {
    bits.div_ceil(8)
}

// How many bits fill the last byte.
pub fn fill(at: usize) -> usize {
    (8 - at % 8) % 8
}

// The least width that holds a number, and at least 1.
pub fn width_of(x: u32) -> usize
    ensures { 0 < result }
{
    (1..32).find(|&width| x >> width == 0).unwrap_or(32)
}

// The byte with its bit at a place, the most significant one 0, made 1 or 0.
fn with_bit(byte: u8, place: usize, one: bool) -> u8 {
    let own = 128u8 >> (place % 8);
    if one { byte | own } else { byte & !own }
}

fn put_bit(row: &mut [u8], at: usize, one: bool) {
    if let Some(byte) = row.get_mut(at / 8) {
        *byte = with_bit(*byte, at % 8, one);
    }
}

// A field put at a position, its most significant bit first; the position behind it.
pub fn put_field(row: &mut [u8], at: usize, width: usize, value: usize) -> usize {
    let mut place = at;
    for behind in (0..width).rev() {
        put_bit(row, place, value >> (behind % 64) & 1 == 1);
        place = place.wrapping_add(1);
    }
    place
}
