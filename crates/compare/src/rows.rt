// Rows compared and copied, and the places of a run's readers.
ghost use Rattle.std.specs.Prelude.{◌≡◌, ◌≤◌, ◌<◌, ℕ, true, false, length, take, drop, slice_index_or, IfSome, IsNone};

// The first n elements of a row, or all of a shorter one.
pub fn front<T>(row: &[T], n: usize) -> &[T]
    ensures { result.now ≡ take n row.now }
{
    row.get(..n).unwrap_or(row)
}

// The elements of a row from a place on, or all of a shorter one.
pub fn rest<T>(row: &[T], from: usize) -> &[T]
    ensures rest { from ≤ length row.now → result.now ≡ drop from row.now }
    ensures all { length row.now < from → result.now ≡ row.now }
{
    row.get(from..).unwrap_or(row)
}

// Where the first element stands that is another in a second row, as far as both go, and what that row has there.
pub fn first_difference<T: Copy + PartialEq>(row: &[T], other: &[T]) -> Option<(usize, T)>
    ensures within { IfSome result (λ d. (d.0 < length row.now) × (d.0 < length other.now)) }
    ensures there { IfSome result (λ d. slice_index_or other.now d.0 d.1 ≡ d.1) }
    ensures differs { IfSome result (λ d. T.eq (slice_index_or row.now d.0 d.1) d.1 ≡ false) }
    ensures first { IfSome result (λ d. (k : ℕ) → k < d.0 → T.eq (slice_index_or row.now k d.1) (slice_index_or other.now k d.1) ≡ true) }
    ensures none { IsNone result → (k : ℕ) → (x : T) → k < length row.now → k < length other.now → T.eq (slice_index_or row.now k x) (slice_index_or other.now k x) ≡ true }
{
    for (at, x) in row.iter().enumerate() {
        let y = other.get(at)?;
        if x != y {
            return Some((at, *y));
        }
    }
    None
}

// Whether the elements of a row from a place on are all this one.
pub fn hold<T: PartialEq>(row: &[T], from: usize, mark: &T) -> bool {
    row.iter().skip(from).all(|x| x == mark)
}

// Copies elements to the front of a row, as far as it goes.
pub fn copy<T: Copy>(row: &mut [T], from: &[T]) {
    for (place, x) in row.iter_mut().zip(from) {
        *place = *x;
    }
}

// Whether a reply row is that of the first k calls, and behind it that of the others.
pub fn are_joined(whole: &[u64; 32], first: &[u64; 32], second: &[u64; 32], k: usize) -> bool {
    let joined = front(first, k).iter().chain(second);
    whole
        .iter()
        .zip(joined)
        .all(|(reply, other)| reply == other)
}

// Whether no place passes the length of its list, which is 0 at operators and unused nodes.
fn are_within(places: &[u16; 48], lengths: &[u32; 48]) -> bool {
    places
        .iter()
        .zip(lengths)
        .all(|(place, length)| u32::from(*place) <= *length)
}

// The sum of all places: the moves of readers that never hopped.
pub fn total(places: &[u16; 48]) -> u64 {
    places
        .iter()
        .map(|place| u64::from(*place))
        .fold(0, u64::wrapping_add)
}

// The fewest moves that lead to these places: to each as many hops of 64 as it holds.
fn fewest_to(places: &[u16; 48]) -> u64 {
    places
        .iter()
        .map(|place| u64::from(*place / 64 + *place % 64))
        .fold(0, u64::wrapping_add)
}

// Whether readers can have come to these places by so many moves. A hop is one move for 64 places: the moves are the sum of the places
// less 63 for each hop, and no reader has hopped more often than its place holds 64. So they are never above that sum, never below a
// 64th of it, and not 0 where a place is not.
pub fn are_moves(places: &[u16; 48], moves: u32) -> bool {
    let singly = total(places);
    let made = u64::from(moves);
    fewest_to(places) <= made && made <= singly && (singly - made) % 63 == 0
}

// Whether readers over lists of these lengths can have come to these places by so many moves.
pub fn are_places(places: &[u16; 48], lengths: &[u32; 48], moves: u32) -> bool {
    are_within(places, lengths) && are_moves(places, moves)
}
