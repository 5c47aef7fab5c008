// The round trips of stereo sets, in the writer's own shape. Reading what was written gives back the entries and the descriptors that were given (proofs/ReadBack.antt), and
// writing what was read gives the same bytes (proofs/Rewriting.antt). Laws alone.
#![tactic(auto)]
