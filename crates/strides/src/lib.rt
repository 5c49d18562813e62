// The theory of request Five: a run whose readers hop beside the run that it was, and its promise. It has no code: it stands apart from
// `model` so that what speaks of the steps alone does not wait for it.
#![tactic(auto)]
