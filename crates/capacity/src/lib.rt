// The theory of request Four: how large it will get, and its promise. It has no code: it stands apart from `model` so that what
// speaks of the paper alone does not wait for it.
#![tactic(auto)]
