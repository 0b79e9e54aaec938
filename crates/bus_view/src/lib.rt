//! The commands of bus629-view, whatever their words, sources and sinks: a trace, or a table, to look at.
//!
//! [`view`] is the top call: it does the command that the words ask for, writes a fault line on `err`, and says how the program ends.
//! [`act`] is the command alone. What it has in common with every command over such texts is in `bus_command`; `specs/Due` has what is due
//! of both texts, `specs/Acts` what a call does, and `specs/Claims` what is claimed of texts that are right.
#![tactic(auto)]

mod breach;
mod command;
mod drawing;
mod forms;
mod itself;
mod paging;
mod painting;
mod refusal;
mod saving;
mod top;
mod windowing;
mod words;

pub use command::act;
pub use forms::{Form, Picture, View};
pub use refusal::{Doubled, Outcome};
pub use top::view;
