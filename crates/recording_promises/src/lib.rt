// What the calls promise that read a recording whole, each bound to its function: the rows under a loop, and the whole import of loop, target and packets, for 512 rows and of
// any length; and demand 1 of them. Laws alone.
#![tactic(auto)]
