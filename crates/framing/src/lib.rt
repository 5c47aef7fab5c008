// Bytes cut into pieces: each a head of fixed size that says how long its body is, then the body.
//
// The entries of an elementary-stream loop are such pieces, and so are the descriptors of an entry. No code runs here: the crates
// above walk the bytes, and their promises cite these definitions.
#![tactic(auto)]
