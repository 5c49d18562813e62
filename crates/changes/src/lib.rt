// The theory of request One: lists of which one number has come or gone, and its promise. It has no code: it stands apart from `model`
// so that what speaks of the paper alone does not wait for it.
#![tactic(auto)]
