// A delivery, walked through without writing. Whatever reads one, in either form and with rows lent or none, walks through it
// once with these before it writes, so that a refusal, however late, leaves what is lent as it is.
#![tactic(auto)]

ghost use Rattle.std.specs.Prelude.{◌≡◌, ◌^◌, ◌≤◌, ◌<◌, length};
ghost use Rattle.model.specs.Delivery.{largest_gap, read_gaps, read_body};
ghost use Rattle.refusals.specs.Numbers.{outcome};
ghost use Rattle.fields.specs.Positions.{take_at};
ghost use Rattle.walk.specs.Heads.{header, gap};
ghost use Rattle.walk.specs.Counts.{one_counted, all_counted, list_head, read_list, read_lists};
ghost use Rattle.walk.specs.Answers.{counted_says, only};

use refusals::Refusal;

// What stands before the gaps of a list: its first number and the width of its gaps, 0 where it has none.
#[derive(Clone, Copy)]
pub struct Header {
    pub first: u32,
    pub width: u32,
}

// What lists are counted as: a bit for each list, 1 if it came, the first list's most significant; and how many numbers they
// have together.
#[derive(Clone, Copy)]
pub struct Counted {
    pub bits: u32,
    pub count: u32,
}

// What stands before the gaps of a list of so many numbers, from the bit position at on, with the position behind it.
pub fn read_head(s: &[u8], at: usize, count: u32) -> Result<(Header, usize), Refusal>
    requires { at < 2 ^ 60 }
    ensures { outcome result ≡ header (take_at s.now) count at }
{
    if count == 0 {
        return Ok((Header { first: 0, width: 0 }, at));
    }
    let (first, next) = fields::take_field(s, at, 32)?;
    if count == 1 {
        return Ok((Header { first, width: 0 }, next));
    }
    let (less, behind) = fields::take_field(s, next, 5)?;
    let width = less + 1;
    Ok((Header { first, width }, behind))
}

// The number behind `last`, whose gap has w bits at the bit position at, with the position behind it.
pub fn read_gap(s: &[u8], at: usize, w: u32, last: u32) -> Result<(u32, usize), Refusal>
    requires { (1 ≤ w) × (w ≤ 32) × (at < 2 ^ 60) }
    ensures { outcome result ≡ gap (take_at s.now) w last at }
{
    let (less, next) = fields::take_field(s, at, w as usize)?;
    if u32::MAX - last <= less {
        return Err(Refusal::GapPassesTop);
    }
    Ok((last + less + 1, next))
}

// Walks through n gaps of w bits behind the number `last`: the largest of them minus 1.
fn walk_gaps(s: &[u8], at: usize, w: u32, n: u32, last: u32) -> Result<(u32, usize), Refusal>
    requires { (1 ≤ w) × (w ≤ 32) × (n < 65536) × (at < 2 ^ 59) }
    ensures { outcome result ≡ only (largest_gap last) (read_gaps (take_at s.now) w n last at) }
{
    let mut next = at;
    let mut number = last;
    let mut largest: u32 = 0;
    for _i in 0..n {
        let (value, behind) = read_gap(s, next, w, number)?;
        largest = largest.max(value - number - 1);
        number = value;
        next = behind;
    }
    Ok((largest, next))
}

// Walks through the numbers of a list of so many, from the bit position at on: how many they are.
pub fn walk_body(s: &[u8], at: usize, count: u32) -> Result<(u32, usize), Refusal>
    requires { (count < 65536) × (at < 2 ^ 58) }
    ensures { outcome result ≡ only length (read_body (take_at s.now) count at) }
{
    let (header, next) = read_head(s, at, count)?;
    if count < 2 {
        return Ok((count, next));
    }
    let (largest, behind) = walk_gaps(s, next, header.width, count - 1, header.first)?;
    if fields::width_of(largest) != header.width {
        return Err(Refusal::WidthNotLeast);
    }
    Ok((count, behind))
}

// What stands ahead of the numbers of the list at the bit position at, for which there is so much room: its bit, and its count
// if it came.
pub fn read_count(s: &[u8], at: usize, room: usize) -> Result<(Counted, usize), Refusal>
    requires { at < 2 ^ 60 }
    ensures { counted_says result ≡ list_head (take_at s.now) room at }
{
    let (bit, next) = fields::take_field(s, at, 1)?;
    if bit == 0 {
        return Ok((Counted { bits: 0, count: 0 }, next));
    }
    let (count, behind) = fields::take_field(s, next, 16)?;
    if room < count as usize {
        return Err(Refusal::NoRoom);
    }
    Ok((Counted { bits: 1, count }, behind))
}

// Walks through the list at the bit position at.
fn walk_list(s: &[u8], at: usize, room: usize) -> Result<(Counted, usize), Refusal>
    requires { at < 2 ^ 57 }
    ensures { counted_says result ≡ only one_counted (read_list (take_at s.now) room at) }
{
    let (head, next) = read_count(s, at, room)?;
    let (count, behind) = walk_body(s, next, head.count)?;
    let bits = head.bits;
    Ok((Counted { bits, count }, behind))
}

// Walks through n lists from the bit position at on.
pub fn walk_lists(s: &[u8], at: usize, n: u32, room: usize) -> Result<(Counted, usize), Refusal>
    requires { (n ≤ 32) × (at ≤ 6) }
    ensures { counted_says result ≡ only all_counted (read_lists (take_at s.now) n room at) }
{
    let mut next = at;
    let mut bits: u32 = 0;
    let mut count: u32 = 0;
    for _i in 0..n {
        let (list, behind) = walk_list(s, next, room - count as usize)?;
        bits = 2 * bits + list.bits;
        count += list.count;
        next = behind;
    }
    Ok((Counted { bits, count }, next))
}
