// What the whole import of a loop, a target and the packets of a recording means, in the request's words (specs/Meaning.antt), and the laws that join this to what
// `recording_imports` computes, both ways. Laws alone.
#![tactic(auto)]
