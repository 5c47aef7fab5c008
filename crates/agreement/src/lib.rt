// The two readings compared: where every stream that a target rests on has a 2009 stream type, the 2009 reading of a loop that the 2015
// reading accepts gives the identical answer, and otherwise it refuses with 11 or 12. Laws alone: proofs/Agreement.antt has the statement.
#![tactic(auto)]
