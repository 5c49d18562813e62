// Lists lent as one row of numbers, one end for each and a word that says which of them came: whether 7, 10 or 11 refuses
// them, and the part of one list.
#![tactic(auto)]

ghost use Rattle.std.specs.Prelude.{◌≡◌, true, ◌&&◌, ◌||◌, ◌∷◌, ◌-◌, ◌≤◌, ◌<◌, eqb, length, get_or};
ghost use Rattle.model.specs.Outcome.{number_of};
ghost use Rattle.model.specs.Lists.{ascending, all_ascending, lists_from, count_holds, ends_hold, delivered, word_holds, lend, lists_of, span_of, part_of};
ghost use Rattle.refusals.specs.Numbers.{outcome};
ghost use Rattle.lists.specs.Rise.{rise};
ghost use Rattle.lists.specs.Place.{element_at};
ghost use Rattle.lists.specs.Span.{span_says};

use refusals::Refusal;

// Where a list's part stands in the lent numbers, and its length.
#[repr(C)]
#[derive(Drop)]
pub struct Span {
    pub start: usize,
    pub size: usize,
}

// The largest gap minus 1 of one list, 0 for fewer than two numbers, in one pass; 11 if it does not ascend strictly.
pub fn rise_of(list: &[u32]) -> Result<u32, Refusal>
    ensures { outcome result ≡ rise list.now }
{
    let [first, rest @ ..] = list else {
        return Ok(0);
    };
    let mut last = *first;
    let mut largest: u32 = 0;
    for &x in rest {
        if x <= last {
            return Err(Refusal::NotAscending);
        }
        largest = largest.max(x - last - 1);
        last = x;
    }
    Ok(largest)
}

// Whether one list ascends strictly. It goes through to the end whatever it finds, so that the compiler can compare several
// numbers at a time: every run tests every list.
fn ascends(list: &[u32]) -> bool
    ensures { result ≡ ascending list.now }
{
    let mut all = true;
    for i in 1..list.len() {
        if list[i] <= list[i - 1] {
            all = false;
        }
    }
    all
}

// 7 does not apply: there are 1 to 32 lists.
pub fn count_holds(lists: usize) -> bool
    ensures { result ≡ count_holds lists }
{
    1 <= lists && lists <= 32
}

// 10 does not apply for the ends, with a row of so many numbers.
pub fn ends_hold(size: usize, ends: &[u32]) -> bool
    ensures { result ≡ ends_hold size 0 ends.now }
{
    let mut start: usize = 0;
    for &end in ends {
        let stop = end as usize;
        if stop < start || size < stop || 65535 < stop - start {
            return false;
        }
        start = stop;
    }
    true
}

// Whether a list from start to stop agrees with the word: delivered, or empty.
fn agrees(word: u32, k: usize, start: u32, stop: u32) -> bool
    ensures { result ≡ (delivered word k || eqb start stop) }
{
    fields::word_bit(word, k) || start == stop
}

// Nor does it for the word: no undelivered list starts and ends apart.
fn word_holds(ends: &[u32], word: u32) -> bool
    ensures { result ≡ word_holds word 0 0 ends.now }
{
    let mut start: u32 = 0;
    for (k, &stop) in ends.iter().enumerate() {
        if !agrees(word, k, start, stop) {
            return false;
        }
        start = stop;
    }
    true
}

// 10 does not apply.
pub fn lists_hold(size: usize, ends: &[u32], word: u32) -> bool
    ensures { result ≡ (ends_hold size 0 ends.now && word_holds word 0 0 ends.now) }
{
    ends_hold(size, ends) && word_holds(ends, word)
}

// 11 does not apply, where 10 does not.
fn all_ascending(numbers: &[u32], ends: &[u32]) -> bool
    requires { ends_hold (length numbers.now) 0 ends.now ≡ true }
    ensures { result ≡ all_ascending (lists_from numbers.now 0 ends.now) }
{
    let mut start: usize = 0;
    for &end in ends {
        let stop = end as usize;
        if !ascends(&numbers[start..stop]) {
            return false;
        }
        start = stop;
    }
    true
}

// The first of 7, 10 and 11 that refuses the lists, as an `Err`.
pub fn try_lists(numbers: &[u32], ends: &[u32], word: u32) -> Result<(), Refusal>
    ensures { number_of (outcome result) ≡ number_of (lists_of (lend numbers.now ends.now word)) }
{
    if !count_holds(ends.len()) {
        return Err(Refusal::ListCount);
    }
    if !lists_hold(numbers.len(), ends, word) {
        return Err(Refusal::BadEnds);
    }
    if !all_ascending(numbers, ends) {
        return Err(Refusal::NotAscending);
    }
    Ok(())
}

// The number of the first of 7, 10 and 11 that refuses the lists; 0 where none does.
pub fn test_lists(numbers: &[u32], ends: &[u32], word: u32) -> u32
    ensures { result ≡ number_of (lists_of (lend numbers.now ends.now word)) }
{
    let tested = try_lists(numbers, ends, word);
    match tested {
        Ok(()) => 0,
        Err(refusal) => u32::from(refusal),
    }
}

// Where list k starts: at the end of the list before it, the first one at 0.
pub fn start_of(ends: &[u32], k: usize) -> usize
    requires { k ≤ length ends.now }
    ensures { result ≡ get_or (0 ∷ ends.now) k 0 }
{
    if k == 0 { 0 } else { ends[k - 1] as usize }
}

// How many numbers list k has.
pub fn length_of(ends: &[u32], k: usize) -> usize
    requires { (k < length ends.now) × (get_or (0 ∷ ends.now) k 0 ≤ get_or ends.now k 0) }
    ensures { result ≡ get_or ends.now k 0 - get_or (0 ∷ ends.now) k 0 }
{
    start_of(ends, k + 1) - start_of(ends, k)
}

// Where list k's part stands; the empty part at the start where 7, 10 or 11 would apply or there is no list k.
pub fn list_span(numbers: &[u32], ends: &[u32], word: u32, k: usize) -> Span
    ensures { span_says result ≡ span_of (lend numbers.now ends.now word) k }
{
    match try_lists(numbers, ends, word) {
        Ok(()) if k < ends.len() => Span {
            start: start_of(ends, k),
            size: length_of(ends, k),
        },
        _ => Span { start: 0, size: 0 },
    }
}

// List k's part of the lent numbers itself: its numbers, and where it points.
pub fn list_part<'a>(numbers: &'a [u32], ends: &[u32], word: u32, k: usize) -> &'a [u32]
    ensures part { result.now ≡ part_of (lend numbers.now ends.now word) k }
    ensures place { result.ref_ptr ≡ element_at numbers.entry.ref_ptr (span_of (lend numbers.now ends.now word) k).start }
{
    let span = list_span(numbers, ends, word, k);
    let from = span.start;
    let to = from + span.size;
    &numbers[from..to]
}
