// The theory of request Six: a full and a daily delivery made one, and its promise. It has no code: it stands apart from `model` so
// that what speaks of the paper alone does not wait for it.
#![tactic(auto)]
