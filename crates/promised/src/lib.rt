// What each call of the library promises, bound to its function: specs/Calls.antt has the promise, and specs/Readers.antt, Writers.antt and
// Joiners.antt each call, its function's own contract with what is right in the words of document 01; that each keeps its promise stands in proofs/
// under the same names. Laws alone.
#![tactic(auto)]
