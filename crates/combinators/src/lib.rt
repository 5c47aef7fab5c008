// The searches, counts and paddings that every other crate's promises are made of, each with its laws, once: a loop of another crate keeps
// one of these as its invariant, and its promise cites the definition. No code runs here.
#![tactic(auto)]
