// What W-206 changed: an extension lists as many layers as its six bits allow, where it listed 8 at the most. The reading and the writing before that
// are kept as meanings (specs/ReadingBefore.antt, specs/WritingBefore.antt), and specs/Changed.antt says what became of their answers. Laws alone.
#![tactic(auto)]
