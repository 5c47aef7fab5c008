// The words of document 01 that everything else rests on, pinned: its table of refusals with the numbers as numerals, and its stream types. Laws alone.
#![tactic(auto)]
