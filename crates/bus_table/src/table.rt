//! A valid table.
ghost use Rattle.std.specs.Prelude.{◌≡◌, ◌==◌, IsTrue};
ghost use Rattle.std.specs.List.{list_all};
ghost use Rattle.bus_table.specs.Ranges.{is_sender, is_listener};
ghost use Rattle.bus_table.specs.Valid as valid;
ghost use Rattle.bus_table.specs.Valid.{is_valid, is_in_range};

use crate::error::TableError;
use crate::listener::Listener;
use crate::mode::Mode;
use crate::ranges;
use crate::sender::Sender;
use crate::whole::whole_reason;
use std::marker::Model;

/// Whether each sender has the offset 0.
fn have_no_offsets(senders: &[Sender]) -> bool
    ensures { result ≡ list_all (λ sender. sender.at == 0) senders.now }
{
    senders.iter().all(|sender| sender.at() == 0)
}

/// Whether the senders have offsets only where the mode has.
fn fits_mode(mode: Mode, senders: &[Sender]) -> bool
    ensures { result ≡ valid.fits_mode mode senders.now }
{
    match mode {
        Mode::Aperiodic => have_no_offsets(senders),
        Mode::Periodic => true,
    }
}

/// A look at each sender, of which nothing is left in the built program, makes its ranges known.
fn look_at_senders(senders: &[Sender])
    ensures { IsTrue (list_all is_sender senders.now) }
{
    for sender in senders {
        let _ranges = sender.number();
    }
}

/// A look at each listener, of which nothing is left in the built program, makes its ranges known.
fn look_at_listeners(listeners: &[Listener])
    ensures { IsTrue (list_all is_listener listeners.now) }
{
    for listener in listeners {
        let _ranges = listener.number();
    }
}

/// The table of a bus. It keeps that it is valid: every number is in its range, and no whole reason applies.
#[derive(Debug, Drop)]
pub struct Table {
    mode: Mode,
    ti: u32,
    sg: u32,
    senders: Vec<Sender>,
    listeners: Vec<Listener>,
}

impl Model for Table {
    ghost use Rattle.std.specs.Prelude.{IsTrue};
    ghost use Rattle.bus_table.specs.Tables as tables;
    ghost use Rattle.bus_table.specs.Valid.{is_valid};

    ghost Value = { tables.Table };

    ghost view = { λ t. record { mode = t.mode; ti = t.ti; sg = t.sg; senders = t.senders.items; listeners = t.listeners.items } };

    ghost invariant = { λ t.
        IsTrue (is_valid (record { mode = t.mode; ti = t.ti; sg = t.sg; senders = t.senders.items; listeners = t.listeners.items })) };
}

impl Table {
    ghost use Rattle.bus_table.specs.Ranges.{kept};
    ghost use Rattle.bus_table.specs.Reading.{judged};
    ghost use Rattle.bus_table.specs.Valid.{is_table};

    /// None exactly where the transmit interval or the synchronization gap is out of its range, where some sender of an
    /// aperiodic table has another offset than 0, or where a whole reason applies.
    pub fn new(
        mode: Mode,
        ti: u32,
        sg: u32,
        senders: Vec<Sender>,
        listeners: Vec<Listener>,
    ) -> Option<Table>
        ensures { result ≡ kept is_table (record { mode = mode; ti = ti; sg = sg; senders = senders.items; listeners = listeners.items }) }
    {
        if !ranges::is_ti(ti) || !ranges::is_sg(sg) || !fits_mode(mode, &senders) {
            return None;
        }
        look_at_senders(&senders);
        look_at_listeners(&listeners);
        Table::judged(mode, ti, sg, senders, listeners).ok()
    }

    /// The table of these, unless a whole reason applies.
    pub(crate) fn judged(
        mode: Mode,
        ti: u32,
        sg: u32,
        senders: Vec<Sender>,
        listeners: Vec<Listener>,
    ) -> Result<Table, TableError>
        requires { IsTrue (is_in_range (record { mode = mode; ti = ti; sg = sg; senders = senders.items; listeners = listeners.items })) }
        ensures { result ≡ judged (record { mode = mode; ti = ti; sg = sg; senders = senders.items; listeners = listeners.items }) }
    {
        match whole_reason(mode, ti, sg, &senders, &listeners) {
            Some(reason) => Err(TableError::Whole(reason)),
            None => Ok(Table {
                mode,
                ti,
                sg,
                senders,
                listeners,
            }),
        }
    }

    /// The table of these, which is valid.
    pub(crate) fn of_parts(
        mode: Mode,
        ti: u32,
        sg: u32,
        senders: Vec<Sender>,
        listeners: Vec<Listener>,
    ) -> Table
        requires { IsTrue (is_valid (record { mode = mode; ti = ti; sg = sg; senders = senders.items; listeners = listeners.items })) }
        ensures { result ≡ record { mode = mode; ti = ti; sg = sg; senders = senders.items; listeners = listeners.items } }
    {
        Table {
            mode,
            ti,
            sg,
            senders,
            listeners,
        }
    }

    /// Its mode.
    pub fn mode(&self) -> Mode
        ensures value { result ≡ self.now.mode }
        ensures valid { IsTrue (is_valid self.now) }
    {
        self.mode
    }

    /// The transmit interval in bit times, the same for all terminals: 1000 to 128,000.
    pub fn ti(&self) -> u32
        ensures value { result ≡ self.now.ti }
        ensures valid { IsTrue (is_valid self.now) }
    {
        self.ti
    }

    /// The synchronization gap in bit times, the same for all terminals: 9 to 1024, and above every terminal gap.
    pub fn sg(&self) -> u32
        ensures value { result ≡ self.now.sg }
        ensures valid { IsTrue (is_valid self.now) }
    {
        self.sg
    }

    /// The terminals that send, in the order of the text: 1 to 128.
    pub fn senders(&self) -> &[Sender]
        ensures value { result.now ≡ self.now.senders }
        ensures valid { IsTrue (is_valid self.now) }
    {
        &self.senders
    }

    /// The terminals that only take, in the order of the text: at most 127.
    pub fn listeners(&self) -> &[Listener]
        ensures value { result.now ≡ self.now.listeners }
        ensures valid { IsTrue (is_valid self.now) }
    {
        &self.listeners
    }
}
