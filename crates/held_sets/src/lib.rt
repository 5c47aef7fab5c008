// What it means that buffers hold a layer set, and that what the functions for C leave behind holds one: laws alone.
#![tactic(auto)]
