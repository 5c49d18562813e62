// A run: the tests in 01's order, then the calls one after another, each with the floor, places and moves that the call before
// it left.
#![tactic(auto)]

ghost use Rattle.std.specs.Prelude.{◌≡◌, cond, ◌&&◌, ◌≤◌, ◌<◌, max, leb, eqb, length};
ghost use Rattle.model.specs.declared.Reply.TheVariants.{Yes, No, Unknown};
ghost use Rattle.model.specs.Lists.{top, lend};
ghost use Rattle.model.specs.Machine.{encode as encoded};
ghost use Rattle.model.specs.Steps as model;
ghost use Rattle.model.specs.Steps.{seek as seek_tree};
ghost use Rattle.model.specs.Run.{drawn, starting};
ghost use Rattle.model.specs.Calls.{ran, run_call};
ghost use Rattle.model.specs.Demands.{ThirdDemandMet};
ghost use Rattle.reader.specs.Rows.{Standing};
ghost use Rattle.reader.specs.Sought.{readers_of, found};
ghost use Rattle.engine.specs.Answers.{ran_as};
ghost use Rattle.engine.specs.States.{Raises, StepsTo, Answers};

use expression::Form;
use model::{Reply, RunResult};
use reader::{Generator, Readers};
use refusals::Refusal;

// The highest floor, and so the highest bookmark: the first whole number that is no number any more.
const TOP: u64 = 4294967296;

// What a draw leaves to the next call, and its reply.
#[derive(Drop)]
pub struct StepResult {
    pub reply: Reply,
    pub floor: u64,
    pub readers: Readers,
}

// The reply to an answer of the whole expression.
fn drawn_reply(x: u64) -> Reply
    requires { x ≤ top }
    ensures { (rs : model.Readers) → result ≡ (drawn (found x rs)).0 }
{
    if x == reader::FINISHED {
        return Reply::Finished;
    }
    Reply::Member(x as u32)
}

// The floor after it: "that member plus 1"; finished, "4,294,967,296".
fn drawn_floor(x: u64) -> u64
    requires { x ≤ top }
    ensures { (rs : model.Readers) → result ≡ (drawn (found x rs)).1.floor }
{
    if x == reader::FINISHED {
        return x;
    }
    x + 1
}

// The reply to what a check says.
fn told_reply(yes: bool) -> Reply
    ensures { result ≡ cond yes Yes No }
{
    if yes {
        return Reply::Yes;
    }
    Reply::No
}

// "reply the least member not below the floor; the floor becomes that member plus 1. If there is none: finished".
pub fn draw(generator: &Generator, start: Readers, floor: u64) -> StepResult
    requires standing { Standing (length generator.now.ends.now) generator.now.nodes.now 0 }
    requires floor_le_top { floor ≤ top }
    ensures floor_le_top_2 { result.floor ≤ top }
    ensures steps_to { StepsTo generator.now.numbers.now generator.now.ends.now generator.now.nodes.now (λ ls t. drawn (seek_tree ls t 0 floor (readers_of start))) result }
{
    let a = seeks::seek(generator, 0, start, floor);
    let x = a.answer;
    let reply = drawn_reply(x);
    let readers = a.readers;
    StepResult {
        reply,
        floor: drawn_floor(x),
        readers,
    }
}

// "Codes 0 to 2 seek the raised floor": what they raise it to.
fn target(floor: u64, code: u8, d: u32) -> u64
    requires { (floor ≤ top) × (code < 3) }
    ensures upper_bound { result ≤ top }
    ensures raises { Raises floor code d result }
{
    match code {
        1 => floor.max(u64::from(d)),
        2 => floor.max(u64::from(d) + 1),
        _ => floor,
    }
}

// Whether a call is a check that is made: "Check with D below the floor moves nothing".
fn asks(floor: u64, code: u8, d: u32) -> bool
    ensures { result ≡ eqb code 3 && leb floor d }
{
    if code == 3 {
        floor <= u64::from(d)
    } else {
        false
    }
}

// The reply to a call that moves nothing: no to a check below the floor; "Any other code: unknown, nothing changes".
fn idle_reply(code: u8) -> Reply
    ensures { result ≡ cond (eqb code 3) No Unknown }
{
    match code {
        3 => Reply::No,
        _ => Reply::Unknown,
    }
}

// A reply as it stands in the lent row.
fn encode(reply: Reply) -> u64
    ensures { result ≡ encoded reply }
{
    match reply {
        Reply::Member(x) => u64::from(x),
        Reply::No => 4294967296,
        Reply::Yes => 4294967297,
        Reply::Finished => 4294967298,
        Reply::Unknown => 4294967299,
    }
}

// The calls one after another, from the bookmark as floor, every reader at place 0 and no moves; one reply for each.
fn answer(
    generator: &Generator,
    bookmark: u64,
    codes: &[u8],
    arguments: &[u32],
    replies: &mut [u64],
) -> RunResult
    requires standing { Standing (length generator.now.ends.now) generator.now.nodes.now 0 }
    requires bookmark_le_top { bookmark ≤ top }
    requires codes_len { (length codes.now ≡ length arguments.now) × (length codes.now ≤ length replies.old) }
    ensures { Answers generator.now.numbers.now generator.now.ends.now generator.now.nodes.now (starting bookmark) codes.now arguments.now replies.old (ran result replies.new) }
{
    let mut readers = Readers::first();
    let mut floor = bookmark;
    for i in 0..codes.len() {
        let code = codes[i];
        let d = arguments[i];
        // draws and checks come straight from here, so that the readers are copied in and out of a seek or a check once each
        let mut word = 0;
        if code < 3 {
            let to = target(floor, code, d);
            let s = draw(generator, readers, to);
            let reply = s.reply;
            word = encode(reply);
            floor = s.floor;
            readers = s.readers;
        } else if asks(floor, code, d) {
            let a = checks::check(generator, 0, readers, d);
            let reply = told_reply(a.yes);
            word = encode(reply);
            floor = u64::from(d);
            readers = a.readers;
        } else {
            let reply = idle_reply(code);
            word = encode(reply);
        }
        replies[i] = word;
    }
    let places = readers.places;
    RunResult {
        number: 0,
        moves: readers.moves,
        places,
        bookmark: floor,
    }
}

// A run, with a refusal as an `Err`.
fn try_run(
    numbers: &[u32],
    ends: &[u32],
    word: u32,
    packed: &[u8],
    bookmark: u64,
    codes: &[u8],
    arguments: &[u32],
    replies: &mut [u64],
) -> Result<RunResult, Refusal>
    ensures { ran (ran_as result) replies.new ≡ run_call (lend numbers.now ends.now word) packed.now (starting bookmark) codes.now arguments.now replies.old }
{
    lists::try_lists(numbers, ends, word)?;
    let read = expression::read_expression(Form::Packed, packed, ends.len(), word)?;
    if TOP < bookmark {
        return Err(Refusal::BadBookmark);
    }
    if codes.len() != arguments.len() {
        return Err(Refusal::RowLengths);
    }
    if replies.len() < codes.len() {
        return Err(Refusal::RowLengths);
    }
    let nodes = read.nodes;
    let behind = reader::node_ends(&nodes);
    let generator = Generator {
        numbers,
        ends,
        nodes: &nodes,
        behind: &behind,
    };
    Ok(answer(&generator, bookmark, codes, arguments, replies))
}

// A run over lent lists and a packed expression, from a bookmark: one reply for each call in the lent row, and the moves, places
// and bookmark after the last; or a refusal, by "lists (7, 10, 11, each over all lists before the next), the packed expression
// (1 to 5)", with 18, "bookmark (12), row lengths (13)". The first promise is the whole call, for all arguments; the second is demand 3,
// of what it sends back.
pub fn run(
    numbers: &[u32],
    ends: &[u32],
    word: u32,
    packed: &[u8],
    bookmark: u64,
    codes: &[u8],
    arguments: &[u32],
    replies: &mut [u64],
) -> RunResult
    ensures call { ran result replies.new ≡ run_call (lend numbers.now ends.now word) packed.now (starting bookmark) codes.now arguments.now replies.old }
    ensures demand { ThirdDemandMet (lend numbers.now ends.now word) packed.now (starting bookmark) codes.now arguments.now replies.old (ran result replies.new) }
{
    match try_run(
        numbers, ends, word, packed, bookmark, codes, arguments, replies,
    ) {
        Ok(run) => run,
        Err(refusal) => RunResult::refused(u32::from(refusal)),
    }
}
