// The round trips of loops under the 2015 reading: reading what was written gives back what was given, what the writer refuses reading
// refuses alike, and rewriting a loop in the writer's own shape gives the same bytes. Laws alone: proofs/RoundTrip.antt and
// proofs/Rewriting.antt have the statements.
#![tactic(auto)]
