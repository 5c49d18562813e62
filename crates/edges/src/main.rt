// The edges of the paper: a line for each case says what is handed in, what comes back, and where the second evaluator differs. The
// cases stand in a script, which is read from standard input and explains its format at its top. Behind them the generated cases, in
// sums.
#![tactic(auto)]

mod fault;
mod generated;
mod joins;
mod kinds;
mod laid;
mod limits;
mod line;
mod outcome;
mod programs;
mod runs;
mod script;
mod stored;
mod text;
mod updates;

use std::io;

// The script's lines, then the generated cases.
fn lines(rt: &HostRuntime) -> io::Result<()> {
    script::all(rt, rt.alloc())?;
    generated::all(rt)
}

fn main(rt: HostRuntime) {
    // where a line cannot be written there is nobody to tell
    let _written = lines(&rt).is_ok();
}
