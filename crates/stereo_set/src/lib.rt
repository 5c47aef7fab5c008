// The stereo set (document 02, W-211): a loop that the 2015 reading accepts and that has exactly two layers, a base of type 0x1B and index 0 and one of type
// 0x20 and index 1 resting on it, each with one MVC extension descriptor, whose ranges of view order index don't meet. Every other loop is refused: with its own
// number, 1 to 9, or with 44, 45 or 46.
//
// `views` keeps the layers of a loop, two of them whole; `set` judges two layers, whoever found them; `reader` finds them in a loop's bytes.
#![tactic(auto)]

mod reader;
mod set;
mod views;

pub use reader::read_stereo;
pub use set::{StereoRead, is_base, is_second, set_of};
pub use views::{Layers, View, next_view, no_views};
