// However a recording is cut: begun with a loop, fed piece after piece into the same columns, and asked at the end, the functions for C answer what they answer of
// the pieces joined up. Laws alone.
#![tactic(auto)]
