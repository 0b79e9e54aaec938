//! What draws: the two kinds of elements of an SVG, boxes and words, and what is made of them in pictures and pages. It knows nothing of
//! traces, of audits or of findings.
//!
//! - [`Class`] says what an element stands for, and so how it looks; [`put_style`] puts the style of all classes. [`put_box`], [`put_words`]
//!   and their like put elements into a text.
//! - [`Scale`] says where moments are drawn, and [`put_axis`] puts an axis of them.
//! - [`put_note`] puts what a legend says of boxes that are alike, a [`Note`] with its [`Sample`]s.
//! - [`put_parted`] and its like put numbers as people read them.
//! - [`laws`] has what follows of the definitions of places and marks, [`measures`] where words stand.
//!
//! All numbers are whole; a unit is a tenth of a pixel. The definitions are in `specs/`: `Classes`, `Styles`, `Shapes` (boxes and words),
//! `Scales` (places of moments), `Axes`, `Legends` and `Numbers` (how numbers are written). No call takes memory.
#![tactic(auto)]

mod area;
mod axis;
mod class;
pub mod laws;
mod legend;
pub mod measures;
mod number;
mod scale;
mod shapes;
mod style;

pub use area::Area;
pub use axis::{Axis, Unit, put_axis};
pub use class::{Class, digits_class};
pub use legend::{Note, Sample, put_note};
pub use number::{put_counted, put_load_share, put_parted, put_parted_microseconds};
pub use scale::Scale;
pub use shapes::{begin_titled, begin_words, end_titled, end_words, put_box, put_words};
pub use style::{put_fault_style, put_style};
