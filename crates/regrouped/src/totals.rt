// What generated regroupings came to, in sums.
use crate::Outcome;
use compare::totals;
use compare::totals::add;

// The regrouped expressions' runs, the regroupings by kind, and how many rows were others, had 48 nodes, had an operator of eight, and
// had other moves.
#[derive(Clone, Copy, Default)]
pub struct Totals {
    pub runs: totals::Totals,
    pub kinds: [u64; 6],
    pub others: u64,
    pub full: u64,
    pub wide: u64,
    pub moved: u64,
}

impl Totals {
    // One case more.
    pub fn add_case(&mut self, o: &Outcome) {
        self.runs.add_run(&o.verdict);
        for (sum, kind) in self.kinds.iter_mut().zip(&o.kinds) {
            add(sum, *kind);
        }
        add(&mut self.others, u64::from(o.other_row));
        add(&mut self.full, u64::from(o.nodes == 48));
        add(&mut self.wide, u64::from(o.widest == 8));
        add(&mut self.moved, u64::from(o.other_moves));
    }
}
