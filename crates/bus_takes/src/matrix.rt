//! Who sends and who takes, as a table in HTML.
ghost use Rattle.std.specs.Prelude.{◌≡◌};
ghost use Rattle.std.specs.List.{flat_map};
ghost use Rattle.bus_outer.specs.Texts.{Adds};
ghost use Rattle.bus_filter.specs.Received as received;
ghost use Rattle.bus_takes.specs.Matrix as matrix;

use bus_feeds::is_feeder;
use bus_outer::{Sink, TextBuffer};
use bus_table::{Listener, Sender, Table, TakeLine};

/// What stands before the columns.
pub(crate) const MATRIX: &[u8] =
    b"<div class=\"wide\"><table class=\"matrix\">\n<caption>A mark stands where the terminal of the row takes words of the \
    terminal of the column.</caption>\n<tr><td></td>";

/// What stands before the number above a column, and before that of a row.
pub(crate) const COLUMN: &[u8] = b"<th scope=\"col\">";

pub(crate) const ROW: &[u8] = b"<tr><th scope=\"row\">";

/// What stands behind such a number.
pub(crate) const BEHIND_NUMBER: &[u8] = b"</th>";

/// The cell of a terminal and itself, one where it takes, and one where it doesn't.
pub(crate) const OWN_CELL: &[u8] = b"<td class=\"own\"></td>";

pub(crate) const MARKED_CELL: &[u8] = b"<td>\xe2\x97\x8f</td>";

pub(crate) const EMPTY_CELL: &[u8] = b"<td></td>";

/// What stands behind a row, and behind all.
pub(crate) const ROW_END: &[u8] = b"</tr>\n";

pub(crate) const MATRIX_END: &[u8] = b"</table></div>\n";

/// Whether the terminal of this number, with these TAKE lines, takes words of a sender.
fn takes_of(number: u8, takes: &[TakeLine], sender: &Sender) -> bool
    ensures { let taker : received.Taker = record { number = number; takes = takes.now } in result ≡ matrix.takes_of taker sender.now }
{
    takes.iter().any(|take| is_feeder(number, take, sender))
}

/// The cell of the terminal of this number, with these TAKE lines, and a sender.
fn cell(number: u8, takes: &[TakeLine], sender: &Sender) -> &'static [u8]
    ensures { let taker : received.Taker = record { number = number; takes = takes.now } in result.now ≡ matrix.cell_text taker sender.now }
{
    if sender.number() == number {
        OWN_CELL
    } else if takes_of(number, takes, sender) {
        MARKED_CELL
    } else {
        EMPTY_CELL
    }
}

/// Puts the cells of the terminal of this number, with these TAKE lines.
fn put_cells<K: Sink>(
    text: &mut TextBuffer,
    sink: &mut K,
    number: u8,
    takes: &[TakeLine],
    senders: &[Sender],
)
    ensures { let taker : received.Taker = record { number = number; takes = takes.now } in
        Adds K.held K.faults sink.old sink.new text.old text.new (flat_map (matrix.cell_text taker) senders.now) }
{
    for sender in senders {
        text.put(sink, cell(number, takes, sender));
    }
}

/// Puts the row of the terminal of this number, with these TAKE lines.
fn put_row<K: Sink>(
    text: &mut TextBuffer,
    sink: &mut K,
    table: &Table,
    number: u8,
    takes: &[TakeLine],
)
    ensures { let taker : received.Taker = record { number = number; takes = takes.now } in
        Adds K.held K.faults sink.old sink.new text.old text.new (matrix.row_text table.now taker) }
{
    text.put(sink, ROW);
    text.put_number(sink, number);
    text.put(sink, BEHIND_NUMBER);
    put_cells(text, sink, number, takes, table.senders());
    text.put(sink, ROW_END);
}

/// Puts the rows of senders.
fn put_sender_rows<K: Sink>(text: &mut TextBuffer, sink: &mut K, table: &Table, senders: &[Sender])
    ensures { Adds K.held K.faults sink.old sink.new text.old text.new (flat_map (matrix.sender_row table.now) senders.now) }
{
    for sender in senders {
        put_row(text, sink, table, sender.number(), sender.takes());
    }
}

/// Puts those of listeners.
fn put_listener_rows<K: Sink>(
    text: &mut TextBuffer,
    sink: &mut K,
    table: &Table,
    listeners: &[Listener],
)
    ensures { Adds K.held K.faults sink.old sink.new text.old text.new (flat_map (matrix.listener_row table.now) listeners.now) }
{
    for listener in listeners {
        put_row(text, sink, table, listener.number(), listener.takes());
    }
}

/// Puts what stands above the column of a sender.
fn put_column<K: Sink>(text: &mut TextBuffer, sink: &mut K, sender: &Sender)
    ensures { Adds K.held K.faults sink.old sink.new text.old text.new (matrix.column_text sender.now) }
{
    text.put(sink, COLUMN);
    text.put_number(sink, sender.number());
    text.put(sink, BEHIND_NUMBER);
}

/// Puts what stands above the columns of senders.
fn put_columns<K: Sink>(text: &mut TextBuffer, sink: &mut K, senders: &[Sender])
    ensures { Adds K.held K.faults sink.old sink.new text.old text.new (flat_map matrix.column_text senders.now) }
{
    for sender in senders {
        put_column(text, sink, sender);
    }
}

/// Puts who sends and who takes, as a table in HTML: a row for each terminal, and a column for each sender.
pub fn put_matrix<K: Sink>(text: &mut TextBuffer, sink: &mut K, table: &Table)
    ensures { Adds K.held K.faults sink.old sink.new text.old text.new (matrix.matrix_text table.now) }
{
    text.put(sink, MATRIX);
    put_columns(text, sink, table.senders());
    text.put(sink, ROW_END);
    put_sender_rows(text, sink, table, table.senders());
    put_listener_rows(text, sink, table, table.listeners());
    text.put(sink, MATRIX_END);
}
