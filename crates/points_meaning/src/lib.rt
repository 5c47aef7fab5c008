// What the operation points of a program mean (document 02, W-205): the program's own descriptor loop as descriptors one after another, which of them are
// operation point descriptors, the fields of their points, 40 to 42 after the elementary-stream loop's own numbers, each point's stream list and whether that is
// closed. specs/Meaning.antt has it as relations, specs/Telling.antt what the answer of `program_points` tells, and proofs/Meant.antt the proof that the two are
// one. proofs/Closed.antt has what a closed list gives. Laws alone.
#![tactic(auto)]
