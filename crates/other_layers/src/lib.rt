// Other layers don't leak in, as document 02 has it under W-209: two tables that agree on every row of the target's closure, with no row out of range, get the same
// answer of joining and of the import, refusal and place included, and leave the same in every list. Laws alone: specs/Meaning.antt has the statement.
#![tactic(auto)]
