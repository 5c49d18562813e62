// An expression's row form regrouped: at one node by one of six kinds, and by turns that are drawn from a case's number.
#![tactic(auto)]

mod limits;
pub mod rows;
pub mod steps;
pub mod turns;

pub use rows::widest;
pub use turns::{Regrouped, nested, regrouping};
