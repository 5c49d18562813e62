// The one source of chance: a mixing function of the case, the purpose and the index. A purpose is a number and no enum's variant,
// since it is mixed in with the others, and each file has its own.
ghost use Rattle.std.specs.Prelude.{◌<◌, ◌≡◌};

use crate::inputs::narrow;

// Multiplies by odd constants modulo 2^32, with xor-shifts between, so that each bit of the result
// depends on all bits of x.
fn stir(x: u32) -> u32 {
    let a = (x ^ (x >> 16)).wrapping_mul(0x7feb352d);
    let b = (a ^ (a >> 15)).wrapping_mul(0x846ca68b);
    b ^ (b >> 16)
}

// A number below 2^32.
pub fn roll(case: u64, purpose: u64, index: u64) -> u64
    ensures { result < 4294967296 }
{
    let a = stir(narrow(case >> 32).wrapping_add(0x9e3779b9));
    let b = stir(a.wrapping_add(narrow(case)));
    let c = stir(b.wrapping_add(narrow(purpose).wrapping_mul(0x85ebca6b)));
    u64::from(stir(c.wrapping_add(narrow(index).wrapping_mul(0xc2b2ae35))))
}

// A number below `below`; 0 where `below` is 0.
pub fn pick(case: u64, purpose: u64, index: u64, below: u64) -> u64
    ensures small { result < 4294967296 }
    ensures below { 0 < below → result < below }
    ensures none { below ≡ 0 → result ≡ 0 }
{
    if below == 0 {
        return 0;
    }
    roll(case, purpose, index) % below
}
