//! A stream, watched: what is found of a bus while it runs, each finding with the line at which it is certain.
//!
//! [`State`] is what is kept of a stream, whose first line is answered by [`put_head`]. [`State::take_line`] takes a line behind it, and puts
//! what the line makes certain: which terminal was at fault, by which timer and by how much; who is silent, and who wasn't heard for long.
//! [`State::end`] puts the end of the part under way.
//!
//! A *part* is what stands between two stretches of which anything may lack. In it each transmission is judged in a *window*: all that began
//! with the block of 1024 transmissions before its own, which is a recording of its own, begun later. So nothing of what `bus_findings` says
//! of recordings is said anew.
//!
//! Two windows grow side by side ([`bus_findings::Live`]): the older is the one by which is judged, the newer one was begun with this
//! block. Where a block turns the newer becomes the older, and a fresh one is begun.
//!
//! The definitions are in `specs/`: `Texts` (the lines of findings), `Parts` (windows and parts), `Streams` (what is kept, and what an item
//! makes of it), `Lines` (what comes of a line), `Standing` and `Looks` (what holds between calls).
#![tactic(auto)]

mod at;
mod lines;
mod part;
mod setting;
mod state;
mod window;

pub use at::{At, Looked};
pub use lines::put_head;
pub use part::Part;
pub use setting::Setting;
pub use state::State;
pub use window::Window;
