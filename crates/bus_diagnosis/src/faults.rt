//! What is said of a text that is refused, which the definitions cite: sentences with holes for numbers (`bus_say`), and texts without
//! holes. What is said of lines of any text stands in bus_explain.

// ---- which line is refused

/// The first line, `#0`, begins no text that stands beside a table.
pub(crate) const NO_KIND: &[u8] =
    b"Line #0 has to be the first line of a messages text, a cable text or a trace text, one of these:\n";

/// A messages text has more than `#0` bytes.
pub(crate) const LARGE_MESSAGES: &[u8] =
    b"The messages text is too large: it may have #0 bytes at most.\n";

/// A cable text has.
pub(crate) const LARGE_CABLE: &[u8] =
    b"The cable text is too large: it may have #0 bytes at most.\n";

/// A trace text has.
pub(crate) const LARGE_TRACE: &[u8] =
    b"The trace text is too large: it may have #0 bytes at most.\n";

/// Line `#0` of a messages text.
pub(crate) const MESSAGES_LINE: &[u8] = b"Line #0 of the messages text is refused: ";

/// That of a cable text.
pub(crate) const CABLE_LINE: &[u8] = b"Line #0 of the cable text is refused: ";

/// That of a trace text.
pub(crate) const TRACE_LINE: &[u8] = b"Line #0 of the trace text is refused: ";

/// The same, where `#1` bytes stand before it.
pub(crate) const TRACE_BYTE: &[u8] =
    b"Line #0 of the trace text, behind its first #1 byte$1, is refused: ";

// ---- why

/// The text has no line.
pub(crate) const NO_LINE: &[u8] = b"the text ends before its first line.\n";

/// A trace ends early.
pub(crate) const TRACE_ENDED: &[u8] = b"the text ends before it is whole.\n";

/// A line of a trace is too long.
pub(crate) const TRACE_LONG: &[u8] = b"it is longer than any line of a trace can be.\n";

/// No line with such a keyword can stand there in a trace.
pub(crate) const TRACE_MISPLACED: &[u8] =
    b"a line that begins so can't stand here; one space stands between two fields, and there are no comments.\n";

/// A line of a trace has other fields.
pub(crate) const TRACE_FIELDS: &[u8] =
    b"it hasn't the fields of its form; one space stands between two fields, none at the end, and a line feed alone ends a line.\n";

/// A field of a trace is spelled otherwise.
pub(crate) const TRACE_SPELLING: &[u8] = b"a field isn't written as its form asks.\n";

/// A word of a trace has another parity.
pub(crate) const TRACE_PARITY: &[u8] = b"the parity digit of a word isn't that of its value.\n";

/// A line of a trace is out of order.
pub(crate) const TRACE_ORDER: &[u8] = b"it doesn't ascend behind the line of its kind before it.\n";

/// A line of a trace tells another end.
pub(crate) const TRACE_MARK: &[u8] =
    b"its moment isn't the end of its transmission, or a mark is wrong, its own or that of the transmission before it.\n";

// ---- what has to stand there

/// What stands before the first line that a text has to have.
pub(crate) const FIRST: &[u8] = b"The first line has to be:\n";

/// That of a messages text.
pub(crate) const MESSAGES_FIRST: &[u8] = b"MESSAGES 1\n";

/// That of a cable text.
pub(crate) const CABLE_FIRST: &[u8] = b"CABLE 1\n";

/// That of a trace text.
pub(crate) const TRACE_FIRST: &[u8] =
    b"TRACE 1, or TRACE 2, where each transmission is closed by a TE line\n";

/// What stands before the form of an item in a messages text.
pub(crate) const MESSAGES_FORMS: &[u8] = b"Behind the first line stand any number of these:\n";

/// What stands before it in a cable text: the lines that name places and wakes among them.
pub(crate) const CABLE_FORMS: &[u8] =
    b"Behind the first line stand any number of each of these, in this order:\n\
    PLACE n x: terminal n, 1 to 128, is at the place x, 0 to 1024 bit times from the beginning of the cable; n ascends\n\
    WAKE n w: terminal n, 1 to 128, wakes at the moment w, 0 to 1099511627775; n ascends\n";

/// An item.
pub(crate) const ITEM_FORM: &[u8] =
    b"MSG n : w w : w: a message of terminal n, 1 to 128; a colon stands before each of its 1 to 31 wordstrings, and each w is one \
    of its data words, 0 to 256 of them, in four hexadecimal digits\n";

/// The lines of a trace.
pub(crate) const TRACE_FORMS: &[u8] =
    b"Behind the first line stand these, in this order, TX, WS and TE lines again for each transmission:\n\
    HORIZON h: once; the moment up to which the bus was looked at, 0 to 1099511627776\n\
    HOLD n c: any number of these; terminal n, 1 to 128, held c messages, 0 to 4294967295; n ascends\n\
    TX m n: terminal n, 1 to 128, starts at the moment m, below the horizon; m ascends, and at the same moment n\n\
    WS w w w: 1 to 31 behind each TX line; a wordstring, with its label word and 0 to 256 data words\n\
    TE e c: in format 2 behind the WS lines; e is the moment of the end, and c is C where another overlaps it, else -\n\
    END: once\n";
