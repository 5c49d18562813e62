// One number in an ascending row: where it stands or belongs, and the row with that number put in or taken out, the numbers behind it
// moved by one place.
#![tactic(auto)]

ghost use Rattle.std.specs.Prelude.{◌≡◌, true, false, ℕ, length, is_ok};
ghost use Rattle.model.specs.Lists.{ascending};
ghost use Rattle.model.specs.Sets.{among};
ghost use Rattle.model.specs.Steps.{passed};
ghost use Rattle.model.specs.RequestOne.{moved};
ghost use Rattle.shifts.specs.Shift.{place_of, Shifts, shifted, CanMove, Movable, ends_moved};

// Finds x in an ascending row: the place where it stands, or else where it belongs.
pub fn find(row: &[u32], x: u32) -> Result<usize, usize>
    requires { ascending row.now ≡ true }
    ensures { (place_of result ≡ passed row.now x) × (is_ok result ≡ among x row.now) }
{
    row.binary_search(&x)
}

// Puts x in at a place: what stands from there on, as far as the row is used, moves up by one.
fn put_in(row: &mut [u32], at: usize, used: usize, x: u32)
    requires { Shifts true at used (length row.old) }
    ensures { row.new ≡ shifted true row.old at used x }
{
    row.copy_within(at..used, at + 1);
    row[at] = x;
}

// Takes the number at a place out: what stands behind it, as far as the row is used, moves down by one.
fn take_out(row: &mut [u32], at: usize, used: usize)
    requires { Shifts false at used (length row.old) }
    ensures { (x : ℕ) → row.new ≡ shifted false row.old at used x }
{
    row.copy_within(at + 1..used, at);
}

// Puts x in at a place, or takes out what stands there.
pub fn shift(row: &mut [u32], at: usize, used: usize, x: u32, adds: bool)
    requires { Shifts adds at used (length row.old) }
    ensures { row.new ≡ shifted adds row.old at used x }
{
    if adds {
        put_in(row, at, used, x);
    } else {
        take_out(row, at, used);
    }
}

// A number one higher or one lower.
fn by_one(x: u32, adds: bool) -> u32
    requires { CanMove adds x }
    ensures { result ≡ moved adds x }
{
    if adds { x + 1 } else { x - 1 }
}

// "Later lists shift by one place": the ends from a list's own on.
pub fn move_ends(ends: &mut [u32], list: usize, adds: bool)
    requires { Movable adds list ends.old }
    ensures { ends.new ≡ ends_moved adds list ends.old }
{
    // by index: `iter_mut().skip(list)` leaves nothing known of the ends, and `ends[list..]` asks for a list that is there
    for k in list..ends.len() {
        ends[k] = by_one(ends[k], adds);
    }
}
