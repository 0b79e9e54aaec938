//! Where bytes come from and where they go: sources, sinks, and texts written through a buffer.
//!
//! A program over generic sources and sinks is proved for every outside at once: `Source` and `Sink` say
//! what a call takes or gives, and that a count rises exactly where the outside failed. `MemorySource` and
//! `MemorySink` are exact, and fail where they are told to; `SteadySource` and `CountSink` never fail;
//! `FileSource` and `OutSink` are the edge to the system.
//!
//! `read_whole` reads a source to its end and `write_all` writes bytes whole. A writer of a text puts its
//! fields into a `TextBuffer`, and its contract is the one fact `WritesText` (`specs/Texts.antt` shows how):
//!
//! ```
//! let mut text = TextBuffer::new();
//! text.put(sink, b"HORIZON ");
//! text.put_number(sink, horizon);
//! text.put_byte(sink, b'\n');
//! text.finish(sink)
//! ```
#![tactic(auto)]

mod count_sink;
mod file_source;
mod line;
mod memory_sink;
mod memory_source;
mod out_sink;
mod piece;
mod read_ahead;
mod sink;
mod source;
mod steady_source;
mod text_buffer;
mod waiting;
mod whole;

pub use count_sink::CountSink;
pub use file_source::FileSource;
pub use memory_sink::MemorySink;
pub use memory_source::MemorySource;
pub use out_sink::OutSink;
pub use sink::{Push, Sink, WriteFault};
pub use source::{Pull, Source};
pub use steady_source::SteadySource;
pub use text_buffer::TextBuffer;
pub use whole::{READ_LIMIT, ReadError, read_whole, write_all};
