// A case's expression and lists by way of their stored forms.
ghost use Rattle.std.specs.Prelude.{◌≡◌, ◌↔◌, IsTrue};

use crate::What;
use crate::lent::{all_delivered, ends_of, word_there};
use crate::rows::front;
use cases::{Bytes, Row};
use evaluator::Lists;

// A case's expression packed by the engine, and the number that it hands back.
fn written(row: &Row, lists: &Lists) -> (u32, Bytes) {
    let mut bytes = [0u8; 64];
    let nodes = front(&row.bytes, row.count);
    let written = forms::pack_expression(nodes, lists.count, lists.word, &mut bytes);
    let made = Bytes {
        bytes,
        count: written.count,
    };
    (written.number, made)
}

// A case's expression packed by the engine.
pub fn packed(row: &Row, lists: &Lists) -> Bytes {
    written(row, lists).1
}

// Whether what is packed is accepted, and what is read back.
fn both_accept(written: u32, read: u32) -> bool
    ensures { IsTrue result ↔ ((written ≡ 0) × (read ≡ 0)) }
{
    written == 0 && read == 0
}

// The same, where it is accepted, is packed as the generator packs it, and reads back.
pub fn pack(row: &Row, lists: &Lists) -> Result<Bytes, What> {
    let (number, made) = written(row, lists);
    let bytes = front(&made.bytes, made.count);
    let nodes = front(&row.bytes, row.count);
    let other = cases::packed(nodes);
    let mut back = [0u8; 48];
    let read = forms::unpack_expression(bytes, lists.count, lists.word, &mut back);
    let alike = bytes == front(&other.bytes, other.count);
    if both_accept(number, read.number) && alike && front(&back, read.count) == nodes {
        Ok(made)
    } else {
        Err(What::Expression)
    }
}

// Whether a delivery of these lists moves to the old form, and back to the same bytes; or, where a list was not delivered, to none.
fn is_moved(delivery: &[u8], lists: &Lists) -> bool {
    let mut old = [0u8; 4096];
    let down = convert::downgrade_delivery(delivery, &mut old);
    if !all_delivered(lists) {
        return down.number == 19 && down.count == 0;
    }
    let mut bytes = [0u8; 4096];
    let up = convert::upgrade_delivery(front(&old, down.count), &mut bytes);
    let accepted = down.number == 0 && up.number == 0;
    accepted && front(&bytes, up.count) == delivery
}

// Whether a delivery reads back as these lists.
fn is_read(delivery: &[u8], numbers: &[u32], lists: &Lists) -> bool {
    let mut row = [0u32; 512];
    let mut stops = [0u32; 32];
    let read = decode::decode_delivery(delivery, &mut row, &mut stops);
    read.number == 0
        && front(&row, read.numbers) == numbers
        && front(&stops, read.lists) == ends_of(lists)
        && read.word == word_there(lists)
}

// Lists written as a delivery. The array is of fixed length: a case allocates nothing, so that a comparison cannot fail for want of
// memory.
#[derive(Clone, Copy)]
pub struct Delivery {
    pub bytes: [u8; 4096],
    pub count: usize,
}

// A delivery of these lists, where they are accepted and read back, and it moves between its forms.
pub fn deliver(numbers: &[u32], lists: &Lists) -> Result<Delivery, What> {
    let mut bytes = [0u8; 4096];
    let written = encode::encode_delivery(numbers, ends_of(lists), lists.word, &mut bytes);
    let delivery = front(&bytes, written.count);
    if written.number == 0 && is_read(delivery, numbers, lists) && is_moved(delivery, lists) {
        Ok(Delivery {
            bytes,
            count: written.count,
        })
    } else {
        Err(What::Delivery)
    }
}
