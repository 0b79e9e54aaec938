//! The limits of a trace text, all of this project's profile. Contracts have them as the words of `specs/Limits`.

/// The most bytes of a trace text.
pub const TRACE_LIMIT: usize = 67_108_864;

/// The most bytes of a line before its line feed: those of a WS line with every word that it may have.
pub const LINE_LIMIT: usize = 1801;
