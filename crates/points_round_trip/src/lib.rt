// The round trips of operation point descriptors, in the writer's own shape. Reading what was written gives back the value that was given (proofs/ReadBack.antt), and
// writing what was read gives the same bytes (proofs/Rewriting.antt). Laws alone.
#![tactic(auto)]
