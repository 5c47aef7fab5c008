// The units of a recording, however it is cut: begun with a loop, fed piece after piece into the same columns, the functions for C give the units that one call over the
// pieces joined up gives. Laws alone.
#![tactic(auto)]
