// A field of 1 to 32 bits at a bit position, taken off a row of bytes and put into one: shifts and masks over the at most
// five bytes that hold it. "Fields run on across byte borders, most significant bit first".
#![tactic(auto)]

ghost use Rattle.std.specs.Prelude.{◌≡◌, ◌+◌, ◌-◌, ◌*◌, ◌/◌, ◌%◌, ◌^◌, ◌≤◌, ◌<◌, length, take, drop};
ghost use Rattle.model.specs.Fields.{bits, value, field, only_fill};
ghost use Rattle.model.specs.Lists.{delivered};
ghost use Rattle.model.specs.Delivery.{width};
ghost use Rattle.refusals.specs.Numbers.{outcome};
ghost use Rattle.fields.specs.Positions.{take_at, put_bits};

use refusals::Refusal;

// The byte in which the bit position p lies.
fn byte_of(p: usize) -> usize
    ensures { result ≡ p / 8 }
{
    p >> 3
}

// How many bits of its byte stand before the bit position p.
fn bit_of(p: usize) -> usize
    ensures { result ≡ p % 8 }
{
    p & 7
}

// The k low bits of x.
fn low_bits(x: u64, k: usize) -> u64
    requires { k < 64 }
    ensures { result ≡ x % 2 ^ k }
{
    x & ((1u64 << k) - 1)
}

// x without its k low bits.
fn high_bits(x: u64, k: usize) -> u64
    requires { k < 64 }
    ensures { result ≡ x / 2 ^ k }
{
    x >> k
}

// The bits of x with the k bits of y behind them.
fn join(x: u64, k: usize, y: u64) -> u64
    requires { (k < 64) × (x * 2 ^ k < 2 ^ 64) × (y < 2 ^ k) }
    ensures { result ≡ x * 2 ^ k + y }
{
    (x << k) | y
}

// The n bytes from `first` on as one number.
fn bytes_at(s: &[u8], first: usize, n: usize) -> u64
    requires { (n ≤ 5) × (first + n ≤ length s.now) }
    ensures { result ≡ value (bits (take n (drop first s.now))) }
{
    let mut x: u64 = 0;
    for &b in &s[first..first + n] {
        x = join(x, 8, b as u64);
    }
    x
}

// The field of w bits at the bit position at, off n bytes that hold it.
fn field_in(s: &[u8], at: usize, w: usize, n: usize) -> u32
    requires { (w ≤ 32) × (n ≤ 5) × (at % 8 + w ≤ 8 * n) × (at / 8 + n ≤ length s.now) }
    ensures { result ≡ value (take w (drop at (bits s.now))) }
{
    let off = bit_of(at);
    let x = bytes_at(s, byte_of(at), n);
    low_bits(high_bits(x, 8 * n - off - w), w) as u32
}

// The field of w bits at the bit position at, whose bits are all there.
pub fn field_at(s: &[u8], at: usize, w: usize) -> u32
    requires { (w ≤ 32) × (at + w ≤ 8 * length s.now) }
    ensures { result ≡ value (take w (drop at (bits s.now))) }
{
    let n = byte_of(bit_of(at) + w + 7);
    field_in(s, at, w, n)
}

// The same, for fields that are taken one behind the other: off five bytes where so many are there, so that their number does not
// change from field to field. Joining is faster by it (docs/BENCHMARKS.md).
pub fn next_field(s: &[u8], at: usize, w: usize) -> u32
    requires { (w ≤ 32) × (at + w ≤ 8 * length s.now) }
    ensures { result ≡ value (take w (drop at (bits s.now))) }
{
    if byte_of(at) + 5 <= s.len() {
        return field_in(s, at, w, 5);
    }
    field_at(s, at, w)
}

// The field of w bits at the bit position at, with the position behind it, or that the bits run out.
pub fn take_field(s: &[u8], at: usize, w: usize) -> Result<(u32, usize), Refusal>
    requires { (1 ≤ w) × (w ≤ 32) × (at < 2 ^ 62) }
    ensures { outcome result ≡ take_at s.now w at }
{
    let next = at + w;
    if s.len() < byte_of(next + 7) {
        return Err(Refusal::RunsOut);
    }
    Ok((field_at(s, at, w), next))
}

// Whether the bits from the position at on only fill the last byte: fewer than eight, and all 0.
pub fn only_fill(s: &[u8], at: usize) -> bool
    requires { (at ≤ 8 * length s.now) × (at < 2 ^ 62) }
    ensures { result ≡ only_fill (drop at (bits s.now)) }
{
    let off = bit_of(at);
    if byte_of(at + 7) != s.len() {
        return false;
    }
    if off == 0 {
        return true;
    }
    field_at(s, at, 8 - off) == 0
}

// Whether bit k of a word is 1, the most significant one first; it has 32.
pub fn word_bit(word: u32, k: usize) -> bool
    ensures { result ≡ delivered word k }
{
    if 31 < k {
        return false;
    }
    let behind = 31 - k;
    low_bits(high_bits(word as u64, behind), 1) == 1
}

// Puts the n bytes of x, the most significant first, from `first` on.
fn put_bytes(s: &mut [u8], first: usize, n: usize, x: u64)
    requires { (n ≤ 5) × (first + n ≤ length s.old) }
    ensures { s.new ≡ put_bits s.old (8 * first) (field (8 * n) x) }
{
    for i in 0..n {
        s[first + i] = byte(high_bits(x, 8 * (n - 1 - i)));
    }
}

// The low byte of x.
fn byte(x: u64) -> u8
    ensures { result ≡ x % 256 }
{
    (x & 255) as u8
}

// Puts the w bits of v at the bit position at, none for a width of 0; every other bit stays.
pub fn put_field(s: &mut [u8], at: usize, w: usize, v: u32)
    requires { (w ≤ 32) × (v < 2 ^ w) × (at + w ≤ 8 * length s.old) }
    ensures { s.new ≡ put_bits s.old at (field w v) }
{
    let first = byte_of(at);
    let off = bit_of(at);
    let n = byte_of(off + w + 7);
    let behind = 8 * n - off - w;
    let x = bytes_at(s, first, n);
    let head = join(high_bits(x, w + behind), w, v as u64);
    put_bytes(s, first, n, join(head, behind, low_bits(x, behind)));
}

// The least width that holds m, and at least 1: 32 less the leading zeros of m.
pub fn width_of(m: u32) -> u32
    ensures { result ≡ width m }
{
    (32 - m.leading_zeros()).max(1)
}
