// What is asked ahead of a change: whether a kept row holds an expression's members, where a number stands, and whether it will be a member.
#![tactic(auto)]

ghost use Rattle.std.specs.Prelude.{◌≡◌, true, ◌≤◌, ◌<◌, length};
ghost use Rattle.model.specs.Lists.{count_holds};
ghost use Rattle.lists.specs.Readable.{Readable};
ghost use Rattle.reader.specs.Rows.{Standing};
ghost use Rattle.kept.specs.Kept.{as_change, none_drawn, Shows, Finds, WillHold, Cuts, WillBe};

use model::Reply;
use reader::{Generator, Readers};

// Whether no member is left, by the reply to a next.
fn none_drawn(reply: Reply) -> bool
    ensures { result ≡ none_drawn reply }
{
    match reply {
        Reply::Member(_) => false,
        Reply::Finished => true,
        Reply::Yes => true,
        Reply::No => true,
        Reply::Unknown => true,
    }
}

// Whether a row holds the expression's members, all of them in order: each that is drawn by next is the row's next one, and behind
// the row's last there is none.
pub fn shows(generator: &Generator, kept: &[u32]) -> bool
    requires { Standing (length generator.now.ends.now) generator.now.nodes.now 0 }
    ensures { Shows generator.now.numbers.now generator.now.ends.now generator.now.nodes.now kept.now result }
{
    let mut readers = Readers::first();
    let mut floor: u64 = 0;
    for &held in kept {
        let s = engine::draw(generator, readers, floor);
        let reply = s.reply;
        readers = s.readers;
        floor = s.floor;
        let Reply::Member(x) = reply else {
            return false;
        };
        if x != held {
            return false;
        }
    }
    let s = engine::draw(generator, readers, floor);
    let reply = s.reply;
    none_drawn(reply)
}

// Finds the number in list k: the place of the whole row of numbers where it stands, or else where it belongs.
pub fn find_in(numbers: &[u32], ends: &[u32], k: usize, number: u32) -> Result<usize, usize>
    requires { Readable numbers.now ends.now × (k < length ends.now) }
    ensures { Finds numbers.now ends.now k number result }
{
    let next = k + 1;
    let start = lists::start_of(ends, k);
    let stop = lists::start_of(ends, next);
    match shifts::find(&numbers[start..stop], number) {
        Ok(place) => Ok(start + place),
        Err(place) => Err(start + place),
    }
}

// Whether list k holds the number after the change: the list that is changed as is asked for, any other as it does now.
fn will_hold(numbers: &[u32], ends: &[u32], k: usize, list: usize, number: u32, adds: bool) -> bool
    requires { Readable numbers.now ends.now × (k < length ends.now) }
    ensures { WillHold numbers.now ends.now k (as_change list number adds) result }
{
    if k == list {
        return adds;
    }
    find_in(numbers, ends, k, number).is_ok()
}

// The ends of the lists after the change, each cut down to the number alone: it stands there, or nothing does.
fn cut_ends(numbers: &[u32], ends: &[u32], list: usize, number: u32, adds: bool) -> [u32; 32]
    requires { Readable numbers.now ends.now × (length ends.now ≤ 32) }
    ensures { Cuts numbers.now ends.now (as_change list number adds) result }
{
    let mut stops = [0u32; 32];
    let mut stop: u32 = 0;
    for k in 0..ends.len() {
        stop += u32::from(will_hold(numbers, ends, k, list, number, adds));
        stops[k] = stop;
    }
    stops
}

// Whether the number will be a member: that rests on which lists will hold it, and on nothing else they hold. So it is checked over
// lists that are cut down to it, ahead of any change.
pub fn will_be_member(generator: &Generator, list: usize, number: u32, adds: bool) -> bool
    requires standing { Standing (length generator.now.ends.now) generator.now.nodes.now 0 }
    requires ends_value { count_holds (length generator.now.ends.now) ≡ true }
    ensures { WillBe generator.now.numbers.now generator.now.ends.now generator.now.nodes.now (as_change list number adds) result }
{
    let lists = generator.ends.len();
    let stops = cut_ends(generator.numbers, generator.ends, list, number, adds);
    let alone = [number; 32];
    let cut = Generator {
        numbers: &alone,
        ends: &stops[..lists],
        nodes: generator.nodes,
        behind: generator.behind,
    };
    let told = checks::check(&cut, 0, Readers::first(), number);
    told.yes
}
