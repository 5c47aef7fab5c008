// The tester's three demands, each one statement: specs/Demand1.antt, specs/Demand2.antt and specs/Demand3.antt; that each is kept stands in proofs/Demand1.antt and
// proofs/Demand2.antt, and beside the third. The starred
// cases of document 01 are one table under one statement: specs/Starred.antt; and so are the pins: specs/Pins.antt. Laws alone.
#![tactic(auto)]
