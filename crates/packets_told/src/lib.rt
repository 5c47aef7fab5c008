// What the functions for C tell of a recording that they are given whole, each by its own contract: the rows under a loop, and the import of loop, target and packets, for 512 rows and
// of any length. Laws alone.
#![tactic(auto)]
