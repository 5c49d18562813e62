// "To check D": the check of a node and the check over its member nodes call each other. With every step down to a member node fewer
// nodes remain. Every check takes the readers by value and hands them back by value with its reply; a member node that is a list is
// read in the operator's own copy, as in a seek.
#![tactic(auto)]

ghost use Rattle.std.specs.Prelude.{length};
ghost use Rattle.reader.specs.Rows.{Standing, StandingEach};
ghost use Rattle.checks.specs.Telling.{Tells, TellsIn};

use model::Node;
use reader::{Generator, MemberRead, Readers};

// What a check hands back: the readers after it, and yes or no.
#[derive(Drop)]
pub struct CheckResult {
    pub readers: Readers,
    pub yes: bool,
}

// The check of a node: "a reader seeks D, yes if it answers D"; an operator checks its member nodes. A union does so until a yes, an
// intersection until a no, and a difference too, which turns its second's reply round.
#[cycle(check_check_members)]
pub fn check(generator: &Generator, node: usize, start: Readers, d: u32) -> CheckResult
    requires { Standing (length generator.now.ends.now) generator.now.nodes.now node }
    ensures { Tells generator.now.numbers.now generator.now.ends.now generator.now.nodes.now node d start result }
{
    let Ok(known) = expression::node_of(generator.nodes[node]) else {
        // never: a tree stands at the node
        return CheckResult {
            readers: start,
            yes: false,
        };
    };
    let mut until = false;
    let mut turned = false;
    match known {
        Node::Leaf(k) => {
            let to = u64::from(d);
            let mut readers = start;
            let place = readers.places[node];
            let list = k as usize;
            let r = reader::read_list(generator.numbers, generator.ends, list, place, to);
            readers.places[node] = r.place;
            readers.moves += r.moves;
            return CheckResult {
                readers,
                yes: r.answer == to,
            };
        }
        Node::Difference => {
            turned = true;
        }
        Node::Union(_) => {
            until = true;
        }
        Node::Intersection(_) => {}
    }
    let count = expression::members_of(known);
    check_members(generator, node + 1, count, until, turned, start, d)
}

// Member nodes in order, until one says so: "A union checks in order until a yes, an intersection until a no". "A difference checks its
// first, and on yes its second, whose reply it turns round": where replies are turned, only the last one is.
#[cycle(check_check_members)]
fn check_members(
    generator: &Generator,
    first: usize,
    count: u8,
    until: bool,
    turned: bool,
    start: Readers,
    d: u32,
) -> CheckResult
    requires { StandingEach (length generator.now.ends.now) generator.now.nodes.now first count }
    ensures { TellsIn until turned generator.now.numbers.now generator.now.ends.now generator.now.nodes.now first count d start result }
{
    let to = u64::from(d);
    let mut readers = start;
    // what was said last; ahead of the first, the reply that is not sought
    let mut yes = !until;
    let mut at = first;
    for left in (0..count).rev() {
        if yes == until {
            break;
        }
        let place = readers.places[at];
        let member = generator.read_member(at, place, to);
        yes = match member {
            MemberRead::Still(answer) => answer == to,
            MemberRead::Moved(r) => {
                readers.places[at] = r.place;
                readers.moves += r.moves;
                r.answer == to
            }
            MemberRead::Operator => {
                let s = check(generator, at, readers, d);
                readers = s.readers;
                s.yes
            }
        };
        if turned {
            if left == 0 {
                yes = !yes;
            }
        }
        at = generator.behind[at];
    }
    CheckResult { readers, yes }
}
