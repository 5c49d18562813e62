// An expression from one stored form into the other. It is read first, so that a refusal leaves the lent row as it is; what
// reading hands back is one byte a node, which is copied out, or put as the bits that say the same.
#![tactic(auto)]

ghost use Rattle.std.specs.Prelude.{◌≡◌, ◌*◌, ◌≤◌, length};
ghost use Rattle.model.specs.Calls.{written, unpack_expression, pack_expression};
ghost use Rattle.refusals.specs.Numbers.{outcome, written_as};
ghost use Rattle.fields.specs.Positions.{put_bits};
ghost use Rattle.expression.specs.Reading.{expression_of};
ghost use Rattle.forms.specs.Packing.{bits_of, row_bits};
ghost use Rattle.forms.specs.Reading.{read_over};

use expression::{Expression, Form};
use model::{Node, WriteResult};
use refusals::Refusal;

// How a byte of the row form is packed: so many bits, and the number that they write.
#[derive(Drop)]
struct Bits {
    width: usize,
    value: u32,
}

// How a byte of the row form is packed: "2 bits of kind. 0 list, then 5 bits of list number. 1 difference. 2 union and 3
// intersection, then 3 bits of member count minus 1". An unknown byte has no bits.
fn bits_of(b: u8) -> Bits
    ensures { result ≡ bits_of b }
{
    match expression::node_of(b) {
        Ok(Node::Leaf(k)) => Bits {
            width: 7,
            value: k as u32,
        },
        Ok(Node::Difference) => Bits { width: 2, value: 1 },
        Ok(Node::Union(n)) => Bits {
            width: 5,
            value: 16 + (n as u32 - 1),
        },
        Ok(Node::Intersection(n)) => Bits {
            width: 5,
            value: 24 + (n as u32 - 1),
        },
        Err(_) => Bits { width: 0, value: 0 },
    }
}

// How many bits the nodes of a row take when they are packed.
fn packed_bits(row: &[u8]) -> usize
    requires { length row.now ≤ 48 }
    ensures { result ≡ length (row_bits row.now) }
{
    let mut n = 0;
    for &b in row {
        n += bits_of(b).width;
    }
    n
}

// Puts the nodes of a row, packed, from the first bit of s on.
fn put_nodes(s: &mut [u8], row: &[u8])
    requires { (length row.now ≤ 48) × (length (row_bits row.now) ≤ 8 * length s.old) }
    ensures { s.new ≡ put_bits s.old 0 (row_bits row.now) }
{
    let mut at = 0;
    for &b in row {
        let bits = bits_of(b);
        fields::put_field(s, at, bits.width, bits.value);
        at += bits.width;
    }
}

// What both calls begin with: 7, and then the reading.
#[tactic(auto, unfolding(expression::specs::Reading::expression_of))]
fn read(form: Form, s: &[u8], lists: usize, word: u32) -> Result<Expression, Refusal>
    ensures { outcome result ≡ expression_of (read_over form lists word s.now) }
{
    if !lists::count_holds(lists) {
        return Err(Refusal::ListCount);
    }
    expression::read_expression(form, s, lists, word)
}

// A packed expression into its row form, in the lent row; as many elements as there are nodes.
pub fn unpack_expression(bytes: &[u8], lists: usize, word: u32, row: &mut [u8]) -> WriteResult
    ensures { written result row.new ≡ unpack_expression bytes.now lists word row.old }
{
    refusals::written(unpack(bytes, lists, word, row))
}

// The same, before its answer is written down for C.
fn unpack(bytes: &[u8], lists: usize, word: u32, row: &mut [u8]) -> Result<usize, Refusal>
    ensures { written (written_as result) row.new ≡ unpack_expression bytes.now lists word row.old }
{
    let Expression { count, nodes } = read(Form::Packed, bytes, lists, word)?;
    if row.len() < count {
        return Err(Refusal::NoRoom);
    }
    row[..count].copy_from_slice(&nodes[..count]);
    Ok(count)
}

// The row form of an expression into its packed form, in the lent bytes; the last byte is filled with zero bits.
pub fn pack_expression(row: &[u8], lists: usize, word: u32, bytes: &mut [u8]) -> WriteResult
    ensures { written result bytes.new ≡ pack_expression row.now lists word bytes.old }
{
    refusals::written(pack(row, lists, word, bytes))
}

// The same, before its answer is written down for C.
fn pack(row: &[u8], lists: usize, word: u32, bytes: &mut [u8]) -> Result<usize, Refusal>
    ensures { written (written_as result) bytes.new ≡ pack_expression row.now lists word bytes.old }
{
    let Expression { count, nodes } = read(Form::Row, row, lists, word)?;
    let nodes = &nodes[..count];
    let at = packed_bits(nodes);
    let size = (at + 7) / 8;
    if bytes.len() < size {
        return Err(Refusal::NoRoom);
    }
    put_nodes(bytes, nodes);
    fields::put_field(bytes, at, 8 * size - at, 0);
    Ok(size)
}
