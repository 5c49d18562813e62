// A fixed, seeded generator of inputs, for comparing two implementations of a run. Every value is a
// function of the case's number and of what it is for, so any case can be made again from its
// number alone.
#![tactic(auto)]

pub mod changes;
pub mod damage;
pub mod dice;
pub mod inputs;
pub mod joins;
pub mod numbers;
pub mod packing;
pub mod requests;
pub mod trees;
pub mod words;

pub use changes::{Change, Kept, change_of, kept_of};
pub use damage::{bad_begins, damaged, damaged_lists};
pub use inputs::{Begin, Bytes, Calls, Lists, Row};
pub use joins::{join_room, spoiled};
pub use numbers::{daily_lists, lists};
pub use packing::packed;
pub use requests::{begins, breaking, calls};
pub use trees::expression;
