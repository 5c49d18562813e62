// The theory of request Two: lists that did not come, and its promise. It has no code: it stands apart from `model` so that what
// speaks of the paper alone does not wait for it.
#![tactic(auto)]
