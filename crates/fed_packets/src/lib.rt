// A recording that comes in pieces, cut anywhere: what is known after some of its bytes, what more bytes make of that, and what is answered at its end. However a
// recording is cut, the answer is that of the whole. Laws alone: specs/Feeding.antt has the definitions, proofs/Cut.antt what is shown of them.
#![tactic(auto)]
