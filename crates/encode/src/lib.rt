// A delivery, written. One pass over the numbers tests that each list ascends and finds the width of its gaps, a second one
// writes; in between, the row is known to be long enough.
#![tactic(auto)]

ghost use Rattle.std.specs.Prelude.{◌≡◌, true, cond, ◌+◌, ◌-◌, ◌*◌, ◌^◌, ◌≤◌, ◌<◌, length, get_or, drop};
ghost use Rattle.model.specs.Lists.{lists_from, ends_hold, lend};
ghost use Rattle.model.specs.Delivery.{gap_bits, came, list_size, supplied};
ghost use Rattle.model.specs.Calls.{written, encode_delivery};
ghost use Rattle.refusals.specs.Numbers.{outcome, written_as};
ghost use Rattle.fields.specs.Positions.{put_bits};
ghost use Rattle.encode.specs.Fits.{GapsFit, ListFits, ListsFit};
ghost use Rattle.encode.specs.Measures.{as_supplied, list_bits, lists_bits, measured};

use model::WriteResult;
use refusals::Refusal;

// What is known before the first bit is written: the bits of all lists (their number's six apart), and the width of each
// list's gaps.
#[derive(Drop)]
struct Measure {
    bits: usize,
    widths: [u8; 32],
}

// How many bits a list of so many numbers takes, 17 of them its bit and its count, with gaps of w bits; one that did not
// come has its bit alone.
pub fn bits_of(delivered: bool, count: usize, w: usize) -> usize
    requires { (count ≤ 65535) × (w ≤ 32) }
    ensures { result ≡ cond delivered (list_size 17 count w) 1 }
{
    if !delivered {
        return 1;
    }
    if count == 0 {
        return 17;
    }
    if count == 1 {
        return 49;
    }
    54 + w * (count - 1)
}

// The first pass: the bits of all lists, and the width of each list's gaps; 11 if one does not ascend.
fn survey(numbers: &[u32], ends: &[u32], word: u32) -> Result<Measure, Refusal>
    requires { (ends_hold (length numbers.now) 0 ends.now ≡ true) × (length ends.now ≤ 32) }
    ensures { outcome result ≡ measured word (lists_from numbers.now 0 ends.now) }
{
    let mut widths = [0u8; 32];
    let mut bits: usize = 0;
    let mut start: usize = 0;
    for (k, &end) in ends.iter().enumerate() {
        let stop = end as usize;
        let largest = lists::rise_of(&numbers[start..stop])?;
        let w = fields::width_of(largest);
        widths[k] = w as u8;
        bits += bits_of(fields::word_bit(word, k), stop - start, w as usize);
        start = stop;
    }
    Ok(Measure { bits, widths })
}

// Puts the gaps minus 1 of a list's numbers behind its first, w bits each, from the bit position at on.
fn put_gaps(s: &mut [u8], at: usize, w: usize, list: &[u32]) -> usize
    requires { GapsFit s.old at w list.now }
    ensures { (result ≡ at + w * (length list.now - 1)) × (s.new ≡ put_bits s.old at (gap_bits w (get_or list.now 0 0) (drop 1 list.now))) }
{
    let mut next = at;
    let mut last = list[0];
    for &x in &list[1..] {
        fields::put_field(s, next, w, x - last - 1);
        next += w;
        last = x;
    }
    next
}

// Puts a list that came, whose gaps have w bits, from the bit position at on. Its bit 1 and the 16 bits of its count are put
// as one field, which costs no more than the count alone.
fn put_delivered(s: &mut [u8], at: usize, list: &[u32], w: usize) -> usize
    requires { ListFits s.old at true list.now w }
    ensures { (result ≡ at + length (list_bits (came list.now))) × (s.new ≡ put_bits s.old at (list_bits (came list.now))) }
{
    let head = 65536 + list.len();
    fields::put_field(s, at, 17, head as u32);
    if list.len() == 0 {
        return at + 17;
    }
    fields::put_field(s, at + 17, 32, list[0]);
    if list.len() == 1 {
        return at + 49;
    }
    fields::put_field(s, at + 49, 5, (w - 1) as u32);
    put_gaps(s, at + 54, w, list)
}

// Puts a list from the bit position at on; of one that did not come, a 0 and nothing more.
fn put_list(s: &mut [u8], at: usize, delivered: bool, list: &[u32], w: usize) -> usize
    requires { ListFits s.old at delivered list.now w }
    ensures { (result ≡ at + length (list_bits (as_supplied delivered list.now))) × (s.new ≡ put_bits s.old at (list_bits (as_supplied delivered list.now))) }
{
    if delivered {
        return put_delivered(s, at, list, w);
    }
    fields::put_field(s, at, 1, 0);
    at + 1
}

// Puts all lists, whose gaps have these widths, behind the number of lists.
fn put_lists(s: &mut [u8], numbers: &[u32], ends: &[u32], word: u32, widths: [u8; 32]) -> usize
    requires { ListsFit s.old numbers.now ends.now word widths }
    ensures { (result ≡ 6 + length (lists_bits (supplied word (lists_from numbers.now 0 ends.now)))) × (s.new ≡ put_bits s.old 6 (lists_bits (supplied word (lists_from numbers.now 0 ends.now)))) }
{
    let mut next: usize = 6;
    let mut start: usize = 0;
    for (k, &end) in ends.iter().enumerate() {
        let stop = end as usize;
        let delivered = fields::word_bit(word, k);
        next = put_list(
            s,
            next,
            delivered,
            &numbers[start..stop],
            widths[k] as usize,
        );
        start = stop;
    }
    next
}

// Writes a delivery of the lists into the lent bytes; how many bytes it has.
fn store(numbers: &[u32], ends: &[u32], word: u32, bytes: &mut [u8]) -> Result<usize, Refusal>
    ensures { written (written_as result) bytes.new ≡ encode_delivery (lend numbers.now ends.now word) bytes.old }
{
    if !lists::count_holds(ends.len()) {
        return Err(Refusal::ListCount);
    }
    if !lists::lists_hold(numbers.len(), ends, word) {
        return Err(Refusal::BadEnds);
    }
    let m = survey(numbers, ends, word)?;
    // six bits of their number ahead of the lists, and up to a whole byte
    let count = (m.bits + 13) >> 3;
    if bytes.len() < count {
        return Err(Refusal::NoRoom);
    }
    fields::put_field(bytes, 0, 6, ends.len() as u32);
    let next = put_lists(bytes, numbers, ends, word, m.widths);
    fields::put_field(bytes, next, 8 * count - next, 0);
    Ok(count)
}

// Writes a delivery of the lists into the lent bytes.
pub fn encode_delivery(numbers: &[u32], ends: &[u32], word: u32, bytes: &mut [u8]) -> WriteResult
    ensures { written result bytes.new ≡ encode_delivery (lend numbers.now ends.now word) bytes.old }
{
    refusals::written(store(numbers, ends, word, bytes))
}
