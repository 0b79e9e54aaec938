//! The texts of the tests.

/// Two senders whose shortest cycle is longer than the transmit interval.
pub(crate) const TWO_SENDERS: &str =
    "TABLE 1\nMODE aperiodic\nTI 1000\nSG 300\nSENDER 1 TG 20\nSEND 0A1 1 2 4\nSENDER 2 TG 30\nSEND 0B2 1 30 40\n";

/// Two senders with offsets, whose gaps are 1290 and 30.
pub(crate) const TWO_PERIODIC_SENDERS: &str =
    "TABLE 1\nMODE periodic\nTI 2000\nSG 300\nSENDER 1 TG 20 AT 0\nSEND 0A1 1 2 2\nSENDER 2 TG 30 AT 90\nSEND 0B2 1 30 30\n";

/// Two senders with a long synchronization gap and short messages, and a listener.
pub(crate) const LONG_GAP: &str = "TABLE 1
MODE aperiodic
TI 1000
SG 1000
SENDER 1 TG 20
SEND 0A1 1 2 2
SENDER 2 TG 30
SEND 0B2 1 0 2
TAKE 0A1 * 1 4
LISTENER 3
TAKE 0B2 1 0 2
";

/// A sender whose starts recur every longest interval, so that the schedule ends as late as it may.
pub(crate) const LONGEST_INTERVAL: &str =
    "TABLE 1\nMODE periodic\nTI 128000\nSG 300\nSENDER 1 TG 20 AT 0\nSEND 001 0 0 0\n";

/// One message of each sender of [`LONG_GAP`].
pub(crate) const ONE_EACH: &str = "MESSAGES 1\nMSG 1 : 0000 0001\nMSG 2 : 00FF\n";

/// The same on a cable, with the second sender four bit times from the first.
pub(crate) const FOUR_APART: &str =
    "CABLE 1\nPLACE 1 0\nPLACE 2 4\nMSG 1 : 0000 0001\nMSG 2 : 00FF\n";

/// Their trace.
pub(crate) const ONE_EACH_SEEN: &str =
    "TRACE 2\nHORIZON 150\nHOLD 1 1\nHOLD 2 1\nTX 20 1\nWS L0A111 D00001 D00010\nTE 80 -\nTX 110 2\nWS L0B210 D00FF1\nTE 150 -\nEND\n";

/// Their wave.
pub(crate) const ONE_EACH_WAVE: &str =
    "WAVE 1\nQ 20\nW E15665595A\nW 1D55555556\nW 1D55555559\nQ 30\nW E156696559\nW 1D5556AAAA\nEND\n";
