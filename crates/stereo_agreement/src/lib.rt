// What the stereo set has to do with every other call. A set that is accepted is accepted by both readings, with closure 0, 1 of target 1, and of target 0 itself alone:
// proofs/Agreement.antt. And everywhere else a descriptor of tag 49 is skipped as before: proofs/Skipped.antt. Laws alone.
#![tactic(auto)]
