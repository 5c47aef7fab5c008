// What joining answers: the units of all rows that no other row claims, or the refusal (11 to 18) with its place, as document 01 has it under 'Rows and units' and
// document 02 under W-204. specs/Joining.antt computes it, specs/Meaning.antt says what is right, and proofs/Meant.antt has the laws between the two. The functions here
// are what an answer needs besides its rows: what each layer rests on, and the room. The crate `joining` puts it together.
#![tactic(auto)]

mod answer;
mod frame;
mod room;

pub use answer::Units;
pub use frame::own_sets;
pub use room::{LONGEST_TABLE, closure_rows, most_long, too_small};
