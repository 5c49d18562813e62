// The generated cases: how many came out alike by engine and second evaluator, and what they replied in all. One that did not is
// printed whole.
use crate::text::{Bytes, Spaced};
use crate::updates::Changes;
use compare::What;
use compare::lent::{Calls, ends_of};
use compare::rows::front;
use compare::totals::Totals;
use std::{fmt, io};

// A case, whole.
fn show<R: Print>(rt: &R, case: u64, damaged: bool, what: What) -> io::Result<()> {
    let made = compare::inputs(case, damaged);
    let lists = made.lists;
    let c = cases::calls(case, cases::lists(case));
    let calls = Calls::of(&c);
    println!(rt;
        "case {case} differs in {what}: numbers{}, ends{}, word {}, packed{}, bookmark {}, codes{}, arguments{}, broken off before call {}",
        Spaced(front(&lists.numbers, lists.used)),
        Spaced(front(&lists.ends, lists.count)),
        lists.word,
        Bytes(front(&made.expression.bytes, made.expression.count)),
        made.begin.bookmark,
        Spaced(calls.codes),
        Spaced(calls.arguments),
        cases::breaking(case, c.count)
    )
}

// A case of a change, whole.
fn show_update<R: Print>(rt: &R, case: u64, what: What) -> io::Result<()> {
    let asked = changed::asked_of(case);
    let request = asked.request();
    let source = request.source;
    println!(rt;
        "case {case} differs in {what}: numbers{}, ends{}, word {}, packed{}{}, kept{}, count {}",
        Spaced(source.numbers),
        Spaced(ends_of(&source.lists)),
        source.lists.word,
        Bytes(source.packed),
        Changes(request.change),
        Spaced(request.kept),
        request.count
    )
}

// A case of two deliveries joined, whole.
fn show_join<R: Print>(rt: &R, case: u64, what: What) -> io::Result<()> {
    let pair = joined::pair_of(case);
    println!(rt;
        "case {case} differs in {what}: full{}, daily{}",
        Bytes(pair.full.bytes()),
        Bytes(pair.daily.bytes())
    )
}

// The cases 0 to `count`, that one excluded, each added to the sums.
fn sum<F: FnMut(&mut Totals, u64) -> io::Result<()>>(count: u64, mut add: F) -> io::Result<Totals>
    requires { F.IsAlwaysCallable add }
{
    let mut totals = Totals::default();
    for case in 0..count {
        add(&mut totals, case)?;
    }
    Ok(totals)
}

// How many runs each number came to.
#[derive(Clone, Copy)]
struct ByNumber<'a>(&'a [u64]);

impl fmt::Display for ByNumber<'_> {
    fn fmt<W: fmt::Write>(&self, f: &mut fmt::Formatter<W>) -> fmt::Result {
        for (n, count) in self.0.iter().enumerate() {
            if *count != 0 {
                write!(f, "; number {n} {count} times")?;
            }
        }
        Ok(())
    }
}

fn runs<R: Print>(rt: &R, name: &str, count: u64, damaged: bool) -> io::Result<()> {
    let t = sum(count, |totals: &mut Totals, case: u64| {
        let ran = if damaged {
            compare::compare_damaged(case)
        } else {
            compare::compare_case(case)
        };
        totals.add_run(&ran);
        ran.err()
            .map_or(Ok(()), |what| show(rt, case, damaged, what))
    })?;
    println!(rt;
        "{name}, {count} cases, {} differ, {} members, {} finished, {} yes, {} no, {} unknown, {} moves, {} places{}",
        t.differ,
        t.members,
        t.finished,
        t.yes,
        t.no,
        t.unknown,
        t.moves,
        t.places,
        ByNumber(&t.numbers)
    )
}

fn updates<R: Print>(rt: &R, count: u64) -> io::Result<()> {
    let t = sum(count, |totals: &mut Totals, case: u64| {
        let o = changed::update_case(case);
        totals.add_change(o.number, o.differs.is_some(), o.came, o.went);
        o.differs.map_or(Ok(()), |what| show_update(rt, case, what))
    })?;
    println!(rt;
        "updates, {count} cases, {} differ, {} members came, {} members went{}",
        t.differ,
        t.came,
        t.went,
        ByNumber(&t.numbers)
    )
}

fn joins<R: Print>(rt: &R, count: u64) -> io::Result<()> {
    let t = sum(count, |totals: &mut Totals, case: u64| {
        let o = joined::join_case(case);
        totals.add_join(o.number, o.differs.is_some(), o.count);
        o.differs.map_or(Ok(()), |what| show_join(rt, case, what))
    })?;
    println!(rt;
        "joins, {count} cases, {} differ, {} bytes{}",
        t.differ,
        t.bytes,
        ByNumber(&t.numbers)
    )
}

pub fn all<R: Print>(rt: &R) -> io::Result<()> {
    runs(rt, "generated", 100000, false)?;
    runs(rt, "damaged", 50000, true)?;
    updates(rt, 50000)?;
    joins(rt, 50000)
}
