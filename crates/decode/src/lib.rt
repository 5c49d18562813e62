// A delivery, read. It is walked through once without writing (`walk`), so that a refusal, however late, leaves the lent rows
// as they are, and once more to write what is then known to read. Both walks are held to the one definition of reading.
#![tactic(auto)]

ghost use Rattle.std.specs.Prelude.{◌≡◌, ◌+◌, ◌-◌, ◌*◌, ◌^◌, ◌≤◌, ◌<◌, length, IfOk};
ghost use Rattle.model.specs.Calls.{decoded, decode_delivery};
ghost use Rattle.decode.specs.Stores.{GapsStored, BodyStored, ListStored, ListsRead, ListsStored};
ghost use Rattle.decode.specs.Answers.{decoded_as};

use model::DecodeResult;
use refusals::Refusal;

// Where a list's numbers end in their row once they are stored, and the position behind it in the delivery.
#[derive(Drop)]
struct Stored {
    end: usize,
    next: usize,
}

// Stores the n numbers behind `last`, whose gaps have w bits each from the bit position at on, from `from` on.
fn store_gaps(
    s: &[u8],
    at: usize,
    w: u32,
    n: u32,
    last: u32,
    numbers: &mut [u32],
    from: usize,
) -> usize
    requires { (1 ≤ w) × (w ≤ 32) × (n < 65536) × (at < 2 ^ 59) × (from + n ≤ length numbers.old) }
    ensures { GapsStored s.now at w n last numbers.old from numbers.new result }
{
    let end = from + n as usize;
    let mut next = at;
    let mut number = last;
    for i in from..end {
        // the first walk has read it, so it is a number
        let Ok((value, behind)) = walk::read_gap(s, next, w, number) else {
            return next;
        };
        numbers[i] = value;
        number = value;
        next = behind;
    }
    next
}

// Stores the numbers of a list of so many, which stand from the bit position at on, from `from` on.
fn store_body(s: &[u8], at: usize, count: u32, numbers: &mut [u32], from: usize) -> usize
    requires { (count < 65536) × (at < 2 ^ 58) × (from + count ≤ length numbers.old) }
    ensures { BodyStored s.now at count numbers.old from numbers.new result }
{
    // the first walk has read it, so there is a header
    let Ok((header, next)) = walk::read_head(s, at, count) else {
        return at;
    };
    if count == 0 {
        return next;
    }
    let first = header.first;
    numbers[from] = first;
    if count == 1 {
        return next;
    }
    store_gaps(s, next, header.width, count - 1, first, numbers, from + 1)
}

// Stores the list at the bit position at, from `from` on.
fn store_list(s: &[u8], at: usize, numbers: &mut [u32], from: usize) -> Stored
    requires { (at < 2 ^ 57) × (from ≤ length numbers.old) }
    ensures { ListStored s.now at numbers.old from numbers.new result }
{
    // the first walk has read it, so its numbers are counted
    let Ok((list, next)) = walk::read_count(s, at, numbers.len() - from) else {
        return Stored {
            end: from,
            next: at,
        };
    };
    let behind = store_body(s, next, list.count, numbers, from);
    let end = from + list.count as usize;
    Stored { end, next: behind }
}

// Stores n lists from the bit position at on, and their ends.
fn store_lists(s: &[u8], at: usize, n: u32, numbers: &mut [u32], ends: &mut [u32])
    requires { (n ≤ 32) × (at ≤ 6) × (n ≤ length ends.old) × ListsRead s.now at n (length numbers.old) }
    ensures { ListsStored s.now at n numbers.old ends.old numbers.new ends.new }
{
    let lists = n as usize;
    let mut next = at;
    let mut from = 0;
    for k in 0..lists {
        let stored = store_list(s, next, numbers, from);
        from = stored.end;
        next = stored.next;
        ends[k] = from as u32;
    }
}

// The word of n lists: their bits, and 0 for the lists that are not there.
fn word_of(bits: u32, n: u32) -> u32
    requires { (1 ≤ n) × (n ≤ 32) × (bits < 2 ^ n) }
    ensures { result ≡ bits * 2 ^ (32 - n) }
{
    bits << (32 - n)
}

// Reads a delivery into the lent rows of numbers and of ends, all of it or nothing.
pub fn read_delivery(
    bytes: &[u8],
    numbers: &mut [u32],
    ends: &mut [u32],
) -> Result<DecodeResult, Refusal>
    ensures sent { decoded (decoded_as result) numbers.new ends.new ≡ decode_delivery bytes.now numbers.old ends.old }
    ensures number { IfOk result (λ r. r.number ≡ 0) }
{
    let (n, next) = fields::take_field(bytes, 0, 6)?;
    let many = n as usize;
    if !lists::count_holds(many) {
        return Err(Refusal::ListCount);
    }
    if ends.len() < many {
        return Err(Refusal::NoRoom);
    }
    let (all, end) = walk::walk_lists(bytes, next, n, numbers.len())?;
    if !fields::only_fill(bytes, end) {
        return Err(Refusal::LeftOver);
    }
    store_lists(bytes, next, n, numbers, ends);
    Ok(DecodeResult {
        number: 0,
        word: word_of(all.bits, n),
        lists: many,
        numbers: all.count as usize,
    })
}

// The same for C: a refusal is its number, and every other part 0.
pub fn decode_delivery(bytes: &[u8], numbers: &mut [u32], ends: &mut [u32]) -> DecodeResult
    ensures { decoded result numbers.new ends.new ≡ decode_delivery bytes.now numbers.old ends.old }
{
    match read_delivery(bytes, numbers, ends) {
        Ok(read) => read,
        Err(refusal) => DecodeResult::refused(u32::from(refusal)),
    }
}
