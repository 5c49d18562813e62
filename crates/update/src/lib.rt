// One number added to a list or removed from it in the lent lists, and a kept row of an expression's members brought up to date with
// it. Nothing is written before the last test has passed.
#![tactic(auto)]

ghost use Rattle.std.specs.Prelude.{◌≡◌, ◌≤◌, ◌<◌, true, not, ◌||◌, ◌∷◌, ltb, length, get_or};
ghost use Rattle.model.specs.Outcome.{number_of};
ghost use Rattle.model.specs.Lists.{count_holds, ends_hold, lend};
ghost use Rattle.model.specs.Update.{change, update as update_call, updated};
ghost use Rattle.model.specs.RequestOne.{RequestOneMet};
ghost use Rattle.reader.specs.Rows.{Standing};
ghost use Rattle.refusals.specs.Numbers.{outcome};
ghost use Rattle.shifts.specs.Shift.{place_of};
ghost use Rattle.kept.specs.Kept.{as_change, Kept};
ghost use Rattle.update.specs.Plans.{room_test, first_number, Plans, plan_says, placed_of};

use expression::Form;
use reader::Generator;
use refusals::Refusal;

// The most numbers of a list.
const LONGEST: usize = 65535;

// What the tests behind 17 find: where the number stands or belongs in the row of numbers and in the kept row, how far the row of
// numbers is used, and whether the number was a member and will be one.
#[derive(Drop)]
struct Plan {
    at: usize,
    used: usize,
    place: usize,
    was: bool,
    will: bool,
}

// 16 for a full list, then 6 for a full row of numbers; neither where a number is removed.
#[tactic(auto, unfolding(model::specs::Outcome::number_of))]
fn test_room(size: usize, ends: &[u32], list: usize, adds: bool) -> Result<(), Refusal>
    requires { (list < length ends.now) × (get_or (0 ∷ ends.now) list 0 ≤ get_or ends.now list 0) }
    ensures { number_of (outcome result) ≡ room_test size ends.now list adds }
{
    if !adds {
        return Ok(());
    }
    if LONGEST <= lists::length_of(ends, list) {
        return Err(Refusal::ListFull);
    }
    if size <= lists::start_of(ends, ends.len()) {
        return Err(Refusal::NoRoom);
    }
    Ok(())
}

// Whether a kept row of so many places takes the number, if it comes: where it stood already, or will not, no place is needed.
fn takes(was: bool, will: bool, size: usize, count: usize) -> bool
    ensures { result ≡ (was || (not will || ltb count size)) }
{
    was || !will || count < size
}

// The first refusal that applies: 15 for what is no news, 16 or 6 for room that a number lacks, 6 for room that a member lacks.
#[tactic(auto, unfolding(model::specs::Outcome::number_of))]
fn verdict(news: bool, room: Result<(), Refusal>, fits: bool) -> Result<(), Refusal>
    ensures { number_of (outcome result) ≡ first_number news (number_of (outcome room)) fits }
{
    if !news {
        return Err(Refusal::NothingChanges);
    }
    room?;
    if !fits {
        return Err(Refusal::NoRoom);
    }
    Ok(())
}

// Where a number stands, or else where it belongs.
fn place_of(found: Result<usize, usize>) -> usize
    ensures { result ≡ place_of found }
{
    match found {
        Ok(at) | Err(at) => at,
    }
}

// The tests behind 17, in their order: 15, 16, then 6 of either row.
fn examine(
    generator: &Generator,
    list: usize,
    number: u32,
    adds: bool,
    members: &[u32],
    count: usize,
) -> Result<Plan, Refusal>
    requires standing { Standing (length generator.now.ends.now) generator.now.nodes.now 0 }
    requires ends_value { (ends_hold (length generator.now.numbers.now) 0 generator.now.ends.now ≡ true) × (count_holds (length generator.now.ends.now) ≡ true) × (list < length generator.now.ends.now) }
    requires kept { Kept generator.now.numbers.now generator.now.ends.now generator.now.nodes.now members.now count }
    ensures { Plans generator.now.numbers.now generator.now.ends.now generator.now.nodes.now (as_change list number adds) members.now count result }
{
    let numbers = generator.numbers;
    let ends = generator.ends;
    let found = kept::find_in(numbers, ends, list, number);
    let shown = shifts::find(&members[..count], number);
    let will = kept::will_be_member(generator, list, number, adds);
    let news = adds != found.is_ok();
    let room = test_room(numbers.len(), ends, list, adds);
    let was = shown.is_ok();
    let fits = takes(was, will, members.len(), count);
    verdict(news, room, fits)?;
    Ok(Plan {
        at: place_of(found),
        used: lists::start_of(ends, ends.len()),
        place: place_of(shown),
        was,
        will,
    })
}

// All tests, in their order: of lists, of the expression, 4 and 18 for the list, 17, and those behind it.
fn find_plan(
    numbers: &[u32],
    ends: &[u32],
    word: u32,
    packed: &[u8],
    list: usize,
    number: u32,
    adds: bool,
    members: &[u32],
    count: usize,
) -> Result<Plan, Refusal>
    ensures { plan_says result ≡ placed_of (lend numbers.now ends.now word) packed.now (as_change list number adds) members.now count }
{
    lists::try_lists(numbers, ends, word)?;
    let read = expression::read_expression(Form::Packed, packed, ends.len(), word)?;
    expression::test_list(ends.len(), word, list)?;
    if members.len() < count {
        return Err(Refusal::NotKept);
    }
    let nodes = read.nodes;
    let behind = reader::node_ends(&nodes);
    let generator = Generator {
        numbers,
        ends,
        nodes: &nodes,
        behind: &behind,
    };
    if !kept::shows(&generator, &members[..count]) {
        return Err(Refusal::NotKept);
    }
    examine(&generator, list, number, adds, members, count)
}

// A change, with a refusal as an `Err`.
fn try_update(
    numbers: &mut [u32],
    ends: &mut [u32],
    word: u32,
    packed: &[u8],
    list: usize,
    number: u32,
    add: u8,
    members: &mut [u32],
    count: &mut usize,
) -> Result<(), Refusal>
    ensures { updated (number_of (outcome result)) numbers.new ends.new members.new count.new ≡ update_call (lend numbers.old ends.old word) packed.now (change list number add) members.old count.old }
{
    let held = *count;
    let adds = add != 0;
    let plan = find_plan(
        numbers, ends, word, packed, list, number, adds, members, held,
    )?;
    shifts::shift(numbers, plan.at, plan.used, number, adds);
    shifts::move_ends(ends, list, adds);
    let member_changes = plan.was != plan.will;
    if member_changes {
        shifts::shift(members, plan.place, held, number, plan.will);
        let now = if plan.will { held + 1 } else { held - 1 };
        *count = now;
    }
    Ok(())
}

// Adds a number to a list or removes it from it, and brings the kept row of members and its count up to date: `add` is 0 to remove,
// any other value to add.
pub fn update(
    numbers: &mut [u32],
    ends: &mut [u32],
    word: u32,
    packed: &[u8],
    list: usize,
    number: u32,
    add: u8,
    members: &mut [u32],
    count: &mut usize,
) -> u32
    ensures call { updated result numbers.new ends.new members.new count.new ≡ update_call (lend numbers.old ends.old word) packed.now (change list number add) members.old count.old }
    ensures request { RequestOneMet (lend numbers.old ends.old word) packed.now (change list number add) members.old count.old (updated result numbers.new ends.new members.new count.new) }
{
    match try_update(
        numbers, ends, word, packed, list, number, add, members, count,
    ) {
        Ok(()) => 0,
        Err(refusal) => u32::from(refusal),
    }
}
