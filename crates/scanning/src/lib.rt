// A recording's packets, one after another in steps of 188 bytes: what each gives, after the last packet on its layer's PID, which stands in the same bytes
// or was kept of those before them; and the packets that give nothing, passed over at the cost of a look at three bytes, or at four where they are ordinary ones of a layer.
#![tactic(auto)]

mod events;
mod skipping;

pub use events::{Event, KEPT, Row, look_at, pid_of};
pub use skipping::skip;
