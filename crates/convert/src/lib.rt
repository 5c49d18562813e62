// A stored delivery moved from 01's form to the one in which a bit precedes each count, and back. It is walked through once, which
// tests it and keeps where each list stands; then the bits of each list are copied as they are, behind a bit or without theirs.
// Both moves are one function, by whether the delivery that is read has the bits. That is a bool and no enum of forms: what all
// clauses here speak of (`form_of`, `piece`, `resized`) is defined over a Bool, to which each would have to map the enum back.
#![tactic(auto)]

ghost use Rattle.std.specs.Prelude.{◌≡◌, false, ◌+◌, ◌-◌, ◌*◌, ◌/◌, ◌%◌, ◌^◌, ◌≤◌, ◌<◌, length, replicate};
ghost use Rattle.std.proofs.Math.Option.{none};
ghost use Rattle.model.specs.Fields.{bits};
ghost use Rattle.model.specs.Delivery.{by_count, read_list, read_lists};
ghost use Rattle.model.specs.Calls.{written, upgrade_delivery, downgrade_delivery};
ghost use Rattle.refusals.specs.Numbers.{outcome, written_as};
ghost use Rattle.fields.specs.Positions.{take_at, put_bits};
ghost use Rattle.walk.specs.Answers.{only};
ghost use Rattle.convert.specs.Forms.{form_of, lacks, resized, move_delivery};
ghost use Rattle.convert.specs.Walks.{walk_says, found};
ghost use Rattle.convert.specs.Copies.{copied};
ghost use Rattle.convert.specs.Pieces.{piece, pieces, Rising, store_pieces};

use model::WriteResult;
use refusals::Refusal;

// What a walk through all lists found: how many did not come, where the last one ends, and where each of them begins, with the
// end behind the last.
#[derive(Drop)]
struct Walked {
    missing: u32,
    end: usize,
    // an array with room for 32 lists, since there is no heap
    stops: [usize; 33],
}

// Walks through the list whose count stands at the bit position at: it is not missing.
fn walk_counted(s: &[u8], at: usize) -> Result<(u32, usize), Refusal>
    requires { at < 2 ^ 57 }
    ensures { outcome result ≡ only (lacks false) (read_list (take_at s.now) by_count none at) }
{
    let (count, next) = fields::take_field(s, at, 16)?;
    let (_, behind) = walk::walk_body(s, next, count)?;
    Ok((0, behind))
}

// Walks through the list at the bit position at, in either form: 1 if it is missing.
fn walk_list(s: &[u8], at: usize, bit: bool) -> Result<(u32, usize), Refusal>
    requires { at < 2 ^ 56 }
    ensures { outcome result ≡ only (lacks bit) (read_list (take_at s.now) (form_of bit) none at) }
{
    if !bit {
        return walk_counted(s, at);
    }
    let (came, next) = fields::take_field(s, at, 1)?;
    if came == 0 {
        return Ok((1, next));
    }
    walk_counted(s, next)
}

// Walks through n lists behind the number of lists, in either form.
fn walk_lists(s: &[u8], n: usize, bit: bool) -> Result<Walked, Refusal>
    requires { (n ≤ 32) × (6 ≤ 8 * length s.now) }
    ensures { walk_says result ≡ found bit 0 (replicate 33 0) 0 6 (read_lists (take_at s.now) (form_of bit) n none 6) }
{
    let mut stops = [0usize; 33];
    let mut missing: u32 = 0;
    let mut next: usize = 6;
    for k in 0..n {
        stops[k] = next;
        let (lacking, behind) = walk_list(s, next, bit)?;
        missing += lacking;
        next = behind;
    }
    stops[n] = next;
    Ok(Walked {
        missing,
        end: next,
        stops,
    })
}

// The eight bits of two bytes that stand ahead of their last `behind`.
fn middle(a: u8, b: u8, behind: u32) -> u8
    requires { behind ≤ 8 }
    ensures { result ≡ (a * 256 + b) / 2 ^ behind % 256 }
{
    let both = (a as u32) * 256 + (b as u32);
    ((both >> behind) % 256) as u8
}

// Copies w bits, at most 32, from the bit position at to the bit position put; every other bit stays. A row and a position in it
// stay two parameters here and below, as `fields` takes them: no struct would be passed on whole.
fn copy_field(from: &[u8], at: usize, to: &mut [u8], put: usize, w: usize)
    requires { (w ≤ 32) × (at + w ≤ 8 * length from.now) × (put + w ≤ 8 * length to.old) }
    ensures { to.new ≡ copied from.now at to.old put w }
{
    fields::put_field(to, put, w, fields::field_at(from, at, w));
}

// Copies n times eight bits from the bit position at into the bytes from `first` on, where a byte more is there to copy from.
fn copy_bytes(from: &[u8], at: usize, to: &mut [u8], first: usize, n: usize)
    requires { (at + 8 * n + 8 ≤ 8 * length from.now) × (first + n ≤ length to.old) }
    ensures { to.new ≡ copied from.now at to.old (8 * first) (8 * n) }
{
    let start = at / 8;
    let behind = 8 - (at % 8) as u32;
    for i in 0..n {
        let a = start + i;
        to[first + i] = middle(from[a], from[a + 1], behind);
    }
}

// How many bits are left from the bit position p up to a whole byte.
fn left_of_byte(p: usize) -> usize
    requires { p < 2 ^ 60 }
    ensures { (result < 8) × ((p + result) % 8 ≡ 0) }
{
    7 - (p + 7) % 8
}

// Copies n bits from the bit position at to the bit position put: up to a whole byte of what is written, then whole bytes,
// then the rest.
fn copy_bits(from: &[u8], at: usize, to: &mut [u8], put: usize, n: usize)
    requires { (at + n ≤ 8 * length from.now) × (put + n ≤ 8 * length to.old) × (at + n < 2 ^ 60) × (put + n < 2 ^ 60) }
    ensures { to.new ≡ copied from.now at to.old put n }
{
    if n <= 32 {
        copy_field(from, at, to, put, n);
        return;
    }
    let head = left_of_byte(put);
    let whole = (n - head) / 8 - 1;
    let done = head + 8 * whole;
    copy_field(from, at, to, put, head);
    copy_bytes(from, at + head, to, (put + head) / 8, whole);
    copy_field(from, at + done, to, put + done, n - done);
}

// Copies the list between two bit positions to the bit position put, as the other form has it: without the bit ahead of its
// count, or with a bit that says that it came. Where it ends.
fn copy_list(from: &[u8], at: usize, end: usize, bit: bool, to: &mut [u8], put: usize) -> usize
    requires { (at < end) × (end ≤ 8 * length from.now) × (end < 2 ^ 40) × (put < 2 ^ 40) × (put + length (piece bit (bits from.now) at end) ≤ 8 * length to.old) }
    ensures { (result ≡ put + length (piece bit (bits from.now) at end)) × (to.new ≡ put_bits to.old put (piece bit (bits from.now) at end)) }
{
    let n = end - at;
    if bit {
        copy_bits(from, at + 1, to, put, n - 1);
        return put + n - 1;
    }
    fields::put_field(to, put, 1, 1);
    copy_bits(from, at, to, put + 1, n);
    put + 1 + n
}

// Copies the lists that stand between these bit positions, as the other form has them, behind the number of lists. Where they end.
fn copy_lists(from: &[u8], stops: &[usize], bit: bool, to: &mut [u8]) -> usize
    requires { Rising (length from.now) (length stops.now - 1) stops.now × (6 + length (pieces bit (bits from.now) (length stops.now - 1) stops.now) ≤ 8 * length to.old) × (6 + length (pieces bit (bits from.now) (length stops.now - 1) stops.now) < 2 ^ 40) }
    ensures { (result ≡ 6 + length (pieces bit (bits from.now) (length stops.now - 1) stops.now)) × (to.new ≡ put_bits to.old 6 (pieces bit (bits from.now) (length stops.now - 1) stops.now)) }
{
    let mut put: usize = 6;
    for list in stops.windows(2) {
        put = copy_list(from, list[0], list[1], bit, to, put);
    }
    put
}

// How many bits a delivery of n lists takes in the other form, where it takes so many in one.
fn size_of(size: usize, n: usize, bit: bool) -> usize
    requires { (n ≤ 32) × (n ≤ size) × (size < 2 ^ 40) }
    ensures { result ≡ resized bit size n }
{
    if bit { size - n } else { size + n }
}

// Writes the lists that stand between these bit positions as the other form has them, a delivery of so many bits, into the lent
// bytes: 19 if any is missing, then 6.
fn store(
    from: &[u8],
    stops: &[usize],
    missing: u32,
    bit: bool,
    size: usize,
    to: &mut [u8],
) -> Result<usize, Refusal>
    requires { (1 ≤ length stops.now) × (length stops.now ≤ 33) × Rising (length from.now) (length stops.now - 1) stops.now × (size ≡ 6 + length (pieces bit (bits from.now) (length stops.now - 1) stops.now)) × (size < 2 ^ 40) }
    ensures { written (written_as result) to.new ≡ store_pieces bit from.now (length stops.now - 1) stops.now missing to.old }
{
    let count = (size + 7) / 8;
    if missing != 0 {
        return Err(Refusal::ListMissing);
    }
    if to.len() < count {
        return Err(Refusal::NoRoom);
    }
    fields::put_field(to, 0, 6, (stops.len() - 1) as u32);
    let put = copy_lists(from, stops, bit, to);
    fields::put_field(to, put, 8 * count - put, 0);
    Ok(count)
}

// Moves a stored delivery to the other form.
fn move_delivery(from: &[u8], bit: bool, to: &mut [u8]) -> Result<usize, Refusal>
    ensures { written (written_as result) to.new ≡ move_delivery bit from.now to.old }
{
    let (n, _) = fields::take_field(from, 0, 6)?;
    let lists = n as usize;
    if !lists::count_holds(lists) {
        return Err(Refusal::ListCount);
    }
    let walked = walk_lists(from, lists, bit)?;
    if !fields::only_fill(from, walked.end) {
        return Err(Refusal::LeftOver);
    }
    let size = size_of(walked.end, lists, bit);
    let stops = &walked.stops[..lists + 1];
    store(from, stops, walked.missing, bit, size, to)
}

// Moves a delivery that is stored in 01's form to the new one, where all its lists are delivered, into the lent bytes.
pub fn upgrade_delivery(old: &[u8], bytes: &mut [u8]) -> WriteResult
    ensures { written result bytes.new ≡ upgrade_delivery old.now bytes.old }
{
    refusals::written(move_delivery(old, false, bytes))
}

// Moves a delivery back to 01's form.
pub fn downgrade_delivery(bytes: &[u8], old: &mut [u8]) -> WriteResult
    ensures { written result old.new ≡ downgrade_delivery bytes.now old.old }
{
    refusals::written(move_delivery(bytes, true, old))
}
