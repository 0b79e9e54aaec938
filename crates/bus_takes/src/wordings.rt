//! What is said, which the definitions cite: sentences with holes for numbers (`bus_say`). A TAKE line is `TAKE ^1 _2 #3 #4` of terminal
//! `#0`, and a SEND line of another that feeds it is `SEND ^1 _6 #7 #8` of terminal `#5`.

/// Nobody sends what a TAKE line asks for.
pub(crate) const NOBODY_SENDS: &[u8] =
    b"Nobody sends what TAKE ^1 _2 #3 #4 of terminal #0 asks for: nothing comes of it.\n";

/// Only its own terminal does.
pub(crate) const ITSELF_SENDS: &[u8] =
    b"Only terminal #0 itself sends what its TAKE ^1 _2 #3 #4 asks for, and none takes from itself: nothing comes of it.\n";

/// The last `#9` words of a TAKE line stand behind the most of a SEND line.
pub(crate) const NEVER_COME: &[u8] =
    b"TAKE ^1 _2 #3 #4 of terminal #0 asks for #9 word$9 that SEND ^1 _6 #7 #8 of terminal #5 never has.\n";

/// `#9` of its words stand between the least and the most.
pub(crate) const SOMETIMES_COME: &[u8] =
    b"TAKE ^1 _2 #3 #4 of terminal #0 asks for #9 word$9 that SEND ^1 _6 #7 #8 of terminal #5 has only in its longer wordstrings.\n";

/// No terminal has a TAKE line.
pub(crate) const NO_TAKES: &[u8] = b"Nobody takes anything: no terminal has a TAKE line.\n";

/// What stands before the SEND lines that nobody takes.
pub(crate) const NOBODY_TAKES: &[u8] = b"Nobody takes ";

/// Each of them, of terminal `#0`.
pub(crate) const UNTAKEN: &[u8] = b"SEND ^1 _2 of terminal #0, ";

/// How many they are, `#0`, of how many, `#1`.
pub(crate) const IN_ALL: &[u8] = b"in all #0 of #1 SEND line$1.\n";
