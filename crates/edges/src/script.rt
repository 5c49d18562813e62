// The script: every line of it is a case, a comment, blank, or said not to read. Behind them a line of sums.
use crate::fault::Fault;
use crate::kinds;
use crate::line::{Fields, trimmed};
use crate::outcome::Outcome;
use std::alloc::Global;
use std::io;
use std::io::Read;

// More than the longest script.
const ROOM: usize = 262144;

// How many lines were cases, how many of these were put to the evaluator, and of how many it differs.
#[derive(Clone, Copy, Default)]
struct Counts {
    cases: u64,
    evaluated: u64,
    differ: u64,
}

impl Counts {
    // One case more.
    fn add(&mut self, outcome: Outcome) {
        let (evaluated, differs) = match outcome {
            Outcome::Run => (0, 0),
            Outcome::Agrees => (1, 0),
            Outcome::Differs(_) => (1, 1),
        };
        self.cases = self.cases.wrapping_add(1);
        self.evaluated = self.evaluated.wrapping_add(evaluated);
        self.differ = self.differ.wrapping_add(differs);
    }
}

pub fn all<R: Print + Input>(rt: &R, alloc: Global) -> io::Result<()> {
    let mut script = Vec::new(alloc);
    // A script that cannot be read any further ends there.
    let _ = rt.reader().take(ROOM as u64).read_to_end(&mut script);
    if script.len() == ROOM {
        return println!(rt; "the script is too long");
    }
    let c = lines(rt, alloc, &script)?;
    println!(rt;
        "script, {} cases, {} put to the evaluator, {} differ",
        c.cases, c.evaluated, c.differ
    )
}

// Every line; the last one may lack its end.
fn lines<R: Print>(rt: &R, alloc: Global, script: &[u8]) -> io::Result<Counts> {
    let mut counts = Counts::default();
    for (n, whole) in (1..u64::MAX).zip(script.split(|b| *b == b'\n')) {
        let line = trimmed(whole);
        if line.is_empty() || line.starts_with(b"#") {
            continue;
        }
        match kinds::case(rt, alloc, Fields(line)) {
            Ok(outcome) => counts.add(outcome),
            Err(Fault::Unread) => println!(rt; "line {n} does not read")?,
            Err(Fault::Io(e)) => return Err(e),
        }
    }
    Ok(counts)
}
