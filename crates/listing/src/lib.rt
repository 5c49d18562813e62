// Every member of an expression, drawn by next into a row: the whole work of the program `members`.
#![tactic(auto)]

ghost use Rattle.std.specs.Prelude.{◌≡◌};
ghost use Rattle.model.specs.Lists.{lists_from};
ghost use Rattle.model.specs.Calls.{counted};
ghost use Rattle.model.specs.Program.{list_members};
ghost use Rattle.listing.specs.Answers.{counted_as};
ghost use Rattle.listing.specs.Over.{DeliveredLists, list_over};

use expression::Form;
use model::MembersResult;
use reader::{Generator, Readers};
use refusals::Refusal;

// The longest input of the program.
const LONGEST: usize = 65535;

// Behind the delivery: the expression, and then its members over the delivered lists. They are drawn into a row of their own, one
// longer than there can be members, so that the last reply is finished and the lent row is untouched until all fit.
fn list_delivered(
    numbers: &[u32],
    ends: &[u32],
    word: u32,
    packed: &[u8],
    members: &mut [u32],
) -> Result<MembersResult, Refusal>
    requires { DeliveredLists numbers.now ends.now }
    ensures { counted (counted_as result) members.new ≡ list_over word (lists_from numbers.now 0 ends.now) packed.now members.old }
{
    let read = expression::read_expression(Form::Packed, packed, ends.len(), word)?;
    let nodes = read.nodes;
    let behind = reader::node_ends(&nodes);
    let generator = Generator {
        numbers,
        ends,
        nodes: &nodes,
        behind: &behind,
    };
    let mut drawn = [0u32; 4097];
    let page = pages::draw_page(&generator, Readers::first(), 0, &mut drawn);
    let count = page.count;
    if members.len() < count {
        return Err(Refusal::NoRoom);
    }
    members[..count].copy_from_slice(&drawn[..count]);
    let readers = page.readers;
    Ok(MembersResult {
        number: 0,
        count,
        moves: readers.moves,
    })
}

// The whole work, with a refusal as an `Err`.
fn try_list_members(input: &[u8], members: &mut [u32]) -> Result<MembersResult, Refusal>
    ensures { counted (counted_as result) members.new ≡ list_members input.now members.old }
{
    if LONGEST < input.len() {
        return Err(Refusal::NoRoom);
    }
    if input.len() == 0 {
        return Err(Refusal::RunsOut);
    }
    let end = input[0] as usize + 1;
    if input.len() < end {
        return Err(Refusal::RunsOut);
    }
    let mut numbers = [0u32; 4096];
    let mut ends = [0u32; 32];
    let got = decode::read_delivery(&input[end..], &mut numbers, &mut ends)?;
    let lists = got.lists;
    list_delivered(&numbers, &ends[..lists], got.word, &input[1..end], members)
}

// The work of the program `members`, from its whole input to the members in the lent row, their count and the moves, or a
// refusal: "the whole input's size is tested first, a missing length byte or a short expression (1) next, then the delivery,
// then the expression".
pub fn list_members(input: &[u8], members: &mut [u32]) -> MembersResult
    ensures { counted result members.new ≡ list_members input.now members.old }
{
    match try_list_members(input, members) {
        Ok(listed) => listed,
        Err(refusal) => MembersResult::refused(u32::from(refusal)),
    }
}
