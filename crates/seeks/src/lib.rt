// "To seek to E": the seek of a node and the seeks over its member nodes call each other. With every step down to a member node fewer
// nodes remain; difference and intersection repeat at a higher number each time. Every seek takes the readers by value and hands them
// back by value with its answer. A member node that is a list is read in the operator's own copy of the readers: its reader takes one
// place and hands back the new one, and where it stays, nothing is written.
#![tactic(auto)]

ghost use Rattle.std.specs.Prelude.{◌≡◌, ◌&&◌, not, ◌≤◌, ltb, eqb, length, get_or};
ghost use Rattle.model.specs.declared.Node.TheVariants.{Difference, Union, Intersection};
ghost use Rattle.model.specs.Outcome.{accepted};
ghost use Rattle.model.specs.Lists.{top};
ghost use Rattle.model.specs.Forms.{node_of};
ghost use Rattle.reader.specs.Rows.{Standing};
ghost use Rattle.reader.specs.Sought.{Sound};
ghost use Rattle.seeks.specs.Finding.{Finds};

use model::Node;
use reader::{Generator, MemberRead, Readers, SeekResult};

// The seek of a node, by its kind. Each arm returns at once: what it hands back is then copied only once.
#[cycle(seeks)]
pub fn seek(generator: &Generator, node: usize, start: Readers, to: u64) -> SeekResult
    requires standing { Standing (length generator.now.ends.now) generator.now.nodes.now node }
    requires to_le_top { to ≤ top }
    ensures sound { Sound to result }
    ensures finds { Finds generator.now.numbers.now generator.now.ends.now generator.now.nodes.now node to start result }
{
    let Ok(known) = expression::node_of(generator.nodes[node]) else {
        // never: a tree stands at the node
        return SeekResult {
            readers: start,
            answer: reader::FINISHED,
        };
    };
    match known {
        Node::Leaf(k) => {
            let mut readers = start;
            let place = readers.places[node];
            let list = k as usize;
            let r = reader::read_list(generator.numbers, generator.ends, list, place, to);
            readers.places[node] = r.place;
            readers.moves += r.moves;
            return SeekResult {
                readers,
                answer: r.answer,
            };
        }
        Node::Difference => return seek_difference(generator, node, start, to),
        Node::Union(n) => return seek_union(generator, node, n, start, to),
        Node::Intersection(n) => return seek_intersection(generator, node, n, start, to),
    }
}

// "seek the first to E; finished ends it. Seek the second to that answer. If equal, E becomes the answer plus 1 and the step
// repeats; else the first's answer holds": in the report's order, A3(2)(a), A3(2)(b) and the increment of A2(2).
#[cycle(seeks)]
fn seek_difference(generator: &Generator, node: usize, start: Readers, from: u64) -> SeekResult
    requires standing { Standing (length generator.now.ends.now) generator.now.nodes.now node }
    requires node_value { node_of (get_or generator.now.nodes.now node 0) ≡ accepted Difference }
    requires from_le_top { from ≤ top }
    ensures sound { Sound from result }
    ensures finds { Finds generator.now.numbers.now generator.now.ends.now generator.now.nodes.now node from start result }
{
    let first = node + 1;
    let second = generator.behind[first];
    let mut readers = start;

    // One, A3(2)(a), "Increment the first LSG (to or) past D": the first is sought to E, which is `from`, and answers x.
    let place = readers.places[first];
    let member = generator.read_member(first, place, from);
    let mut x = match member {
        MemberRead::Still(answer) => answer,
        MemberRead::Moved(r) => {
            readers.places[first] = r.place;
            readers.moves += r.moves;
            r.answer
        }
        MemberRead::Operator => {
            let s = seek(generator, first, readers, from);
            readers = s.readers;
            s.answer
        }
    };

    // Two, A3(2)(b), "Check the datum of the first LSG against the second LSG": the second is sought to x, and answers y. It is sought,
    // not checked: the report's check would move other readers. Where the first has finished, so has the difference, D4(2): the second
    // is not asked, and y stays below x.
    let mut y = 0;
    if x != reader::FINISHED {
        let place = readers.places[second];
        let member = generator.read_member(second, place, x);
        y = match member {
            MemberRead::Still(answer) => answer,
            MemberRead::Moved(r) => {
                readers.places[second] = r.place;
                readers.moves += r.moves;
                r.answer
            }
            MemberRead::Operator => {
                let s = seek(generator, second, readers, x);
                readers = s.readers;
                s.answer
            }
        };
    }

    // Three, only where the two are equal, the increment of A2(2): "If the check is successful increment the DLSG. If the check is not
    // successful, the increment is done". Then x holds, also where the second has finished, since FINISHED equals no number.
    while y == x {
        // A2(2)(a), "Increment the first LSG": it is sought past its answer.
        let past = x + 1;
        let place = readers.places[first];
        let member = generator.read_member(first, place, past);
        let next = match member {
            MemberRead::Still(answer) => answer,
            MemberRead::Moved(r) => {
                readers.places[first] = r.place;
                readers.moves += r.moves;
                r.answer
            }
            MemberRead::Operator => {
                let s = seek(generator, first, readers, past);
                readers = s.readers;
                s.answer
            }
        };

        // A2(2)(b), "Check the current datum of the first LSG against the second LSG. If the check fails, the increment is done. If
        // the check succeeds, go back to step (a)": sought, as in two; where the first has finished, y stays below next.
        if next != reader::FINISHED {
            let place = readers.places[second];
            let member = generator.read_member(second, place, next);
            y = match member {
                MemberRead::Still(answer) => answer,
                MemberRead::Moved(r) => {
                    readers.places[second] = r.place;
                    readers.moves += r.moves;
                    r.answer
                }
                MemberRead::Operator => {
                    let s = seek(generator, second, readers, next);
                    readers = s.readers;
                    s.answer
                }
            };
        }
        x = next;
    }
    SeekResult { readers, answer: x }
}

// "seek every member node to E, in order. The least answer holds; finished if all are": finished is above every number.
#[cycle(seeks)]
fn seek_union(generator: &Generator, node: usize, count: u8, start: Readers, to: u64) -> SeekResult
    requires standing { Standing (length generator.now.ends.now) generator.now.nodes.now node }
    requires node_value { node_of (get_or generator.now.nodes.now node 0) ≡ accepted (Union count) }
    requires to_le_top { to ≤ top }
    ensures sound { Sound to result }
    ensures finds { Finds generator.now.numbers.now generator.now.ends.now generator.now.nodes.now node to start result }
{
    let mut readers = start;
    let mut least = reader::FINISHED;
    let mut at = node + 1;
    for _ in 0..count {
        let place = readers.places[at];
        let member = generator.read_member(at, place, to);
        let x = match member {
            MemberRead::Still(answer) => answer,
            MemberRead::Moved(r) => {
                readers.places[at] = r.place;
                readers.moves += r.moves;
                r.answer
            }
            MemberRead::Operator => {
                let s = seek(generator, at, readers, to);
                readers = s.readers;
                s.answer
            }
        };
        if x < least {
            least = x;
        }
        at = generator.behind[at];
    }
    SeekResult {
        readers,
        answer: least,
    }
}

// Whether an answer has it "begin again at the first": it is above the candidate, and did not come from the first.
fn begins_again(candidate: u64, x: u64, first: usize, at: usize) -> bool
    ensures { result ≡ ltb candidate x && not (eqb at first) }
{
    if candidate < x { at != first } else { false }
}

// "the candidate is E. Seek member nodes in order to it. Finished anywhere is finished. [..] When the last has answered the
// candidate, that is the answer".
#[cycle(seeks)]
fn seek_intersection(
    generator: &Generator,
    node: usize,
    count: u8,
    start: Readers,
    from: u64,
) -> SeekResult
    requires standing { Standing (length generator.now.ends.now) generator.now.nodes.now node }
    requires node_value { node_of (get_or generator.now.nodes.now node 0) ≡ accepted (Intersection count) }
    requires from_le_top { from ≤ top }
    ensures sound { Sound from result }
    ensures finds { Finds generator.now.numbers.now generator.now.ends.now generator.now.nodes.now node from start result }
{
    let first = node + 1;
    let mut readers = start;
    let mut candidate = from;
    let mut at = first;
    let mut left = count;
    // no `for`: it begins again, and then all are left
    while 0 < left {
        let place = readers.places[at];
        let member = generator.read_member(at, place, candidate);
        let x = match member {
            MemberRead::Still(answer) => answer,
            MemberRead::Moved(r) => {
                readers.places[at] = r.place;
                readers.moves += r.moves;
                r.answer
            }
            MemberRead::Operator => {
                let s = seek(generator, at, readers, candidate);
                readers = s.readers;
                s.answer
            }
        };
        if x == reader::FINISHED {
            left = 0;
        } else if begins_again(candidate, x, first, at) {
            at = first;
            left = count;
        } else {
            at = generator.behind[at];
            left -= 1;
        }
        candidate = x;
    }
    SeekResult {
        readers,
        answer: candidate,
    }
}
