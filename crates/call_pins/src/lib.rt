// Cases of every call that were derived by hand from document 01, pinned: each refusal given and narrowly not given, in both readings, and answers in which
// every field differs from every other. Laws alone.
#![tactic(auto)]
