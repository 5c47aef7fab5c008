// The stereo set written (document 02, W-211): a whole loop from rows of entries, in which the two layers have each its MVC extension descriptor; or the refusal, the loop
// writer's numbers first, with 20 bytes more for the two descriptors, then 44 and 46, and 17 last.
//
// Whoever calls this has tested 25 (`entry_rows::some_too_wide`, `mvc_rows::extension_too_wide`); the function for C in `thoquenry_stereo` does.
#![tactic(auto)]

mod entry;
mod passes;
mod writer;

pub use writer::write_stereo;
