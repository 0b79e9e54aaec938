//! The texts of the stored rows.

/// Two aperiodic senders whose shortest cycle is longer than the transmit interval.
pub const TWO_SENDERS: &[u8] =
    b"TABLE 1\nMODE aperiodic\nTI 1000\nSG 300\nSENDER 1 TG 20\nSEND 0A1 1 2 4\nSENDER 2 TG 30\nSEND 0B2 1 30 40\n";

/// The same, but with a synchronization gap as long as the second terminal gap.
pub const SHORT_GAP: &[u8] =
    b"TABLE 1\nMODE aperiodic\nTI 1000\nSG 30\nSENDER 1 TG 20\nSEND 0A1 1 2 4\nSENDER 2 TG 30\nSEND 0B2 1 30 40\n";

/// Two periodic senders, whose gaps are 1290 and 30.
pub const TWO_OFFSETS: &[u8] =
    b"TABLE 1\nMODE periodic\nTI 2000\nSG 300\nSENDER 1 TG 20 AT 0\nSEND 0A1 1 2 2\nSENDER 2 TG 30 AT 90\nSEND 0B2 1 30 30\n";

/// The same, but the second begins one bit time too early.
pub const SMALL_GAP: &[u8] =
    b"TABLE 1\nMODE periodic\nTI 2000\nSG 300\nSENDER 1 TG 20 AT 0\nSEND 0A1 1 2 2\nSENDER 2 TG 30 AT 89\nSEND 0B2 1 30 30\n";

/// The same as the two, but with an interval that leaves the first one bit time too few to synchronize.
pub const NO_SYNC: &[u8] =
    b"TABLE 1\nMODE periodic\nTI 1029\nSG 300\nSENDER 1 TG 20 AT 0\nSEND 0A1 1 2 2\nSENDER 2 TG 30 AT 90\nSEND 0B2 1 30 30\n";

/// Two aperiodic senders, of which the second takes from the first, and a listener that takes from the second.
pub const RECEIVERS: &[u8] =
    b"TABLE 1\nMODE aperiodic\nTI 1000\nSG 1000\nSENDER 1 TG 20\nSEND 0A1 1 2 2\nSENDER 2 TG 30\nSEND 0B2 1 0 2\n\
      TAKE 0A1 * 1 4\nLISTENER 3\nTAKE 0B2 1 0 2\n";

/// No messages.
pub const NO_MESSAGES: &[u8] = b"MESSAGES 1\n";

/// One message of each sender.
pub const ONE_EACH: &[u8] = b"MESSAGES 1\nMSG 1 : 0000 0001\nMSG 2 : 00FF\n";

/// What `run` writes of the receivers without messages.
pub const SILENT_RUN: &[u8] =
    b"TRACE 2\nHORIZON 0\nHOLD 1 0\nHOLD 2 0\nEND\nRECEIVED 1\nTERMINAL 1\nTERMINAL 2\nTERMINAL 3\nEND\n";

/// What `run` writes of the receivers with one message of each sender.
pub const RUN: &[u8] =
    b"TRACE 2\nHORIZON 150\nHOLD 1 1\nHOLD 2 1\nTX 20 1\nWS L0A111 D00001 D00010\nTE 80 -\nTX 110 2\n\
      WS L0B210 D00FF1\nTE 150 -\nEND\nRECEIVED 1\nTERMINAL 1\nTERMINAL 2\nRX 20 0A1 1 0001\nTERMINAL 3\n\
      RX 110 0B2 1 00FF\nEND\n";

/// What `report` writes of the two aperiodic senders.
pub const REPORT: &[u8] = b"{\"line\":\"ACCEPT aperiodic 1030 1270\",\"mode\":\"aperiodic\",\
      \"senders\":[{\"at\":0,\"longest\":100,\"number\":1,\"shortest\":60,\"tg\":20},\
      {\"at\":0,\"longest\":820,\"number\":2,\"shortest\":620,\"tg\":30}],\"sg\":300,\"ti\":1000}\n";
