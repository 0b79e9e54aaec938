//! The forms of the lines of a table text, with their kinds and ranges.
ghost use Rattle.std.specs.Prelude.{◌≡◌};
ghost use Rattle.bus_outer.specs.Texts.{Adds};
ghost use Rattle.bus_explain.specs.Forms as forms;

use crate::faults::{
    LISTENER_FORM, MODE_FORM, OFFSET_FORM, SEND_FORM, SENDER_FORM, SG_FORM, TABLE_FORM, TAKE_FORM,
    TI_FORM,
};
use bus_outer::{Sink, TextBuffer};
use bus_say::say;
use bus_table::ranges::{LEAST_SG, LEAST_TG, LEAST_TI, MOST_SG, MOST_TG, MOST_TI};
use bus_table::{Keyword, Mode};

/// The form of a SENDER line in a table of this mode.
fn sender_wording(mode: Mode) -> &'static [u8]
    ensures { result.now ≡ forms.sender_wording mode }
{
    match mode {
        Mode::Aperiodic => SENDER_FORM,
        Mode::Periodic => OFFSET_FORM,
    }
}

/// That of a line of a keyword.
fn form_wording(mode: Mode, keyword: Keyword) -> &'static [u8]
    ensures { result.now ≡ forms.form_wording mode keyword }
{
    match keyword {
        Keyword::Table => TABLE_FORM,
        Keyword::Mode => MODE_FORM,
        Keyword::Ti => TI_FORM,
        Keyword::Sg => SG_FORM,
        Keyword::Sender => sender_wording(mode),
        Keyword::Send => SEND_FORM,
        Keyword::Take => TAKE_FORM,
        Keyword::Listener => LISTENER_FORM,
    }
}

/// Puts the form of a line of a keyword, in a table of this mode.
pub fn put_form<K: Sink>(text: &mut TextBuffer, sink: &mut K, mode: Mode, keyword: Keyword)
    ensures { Adds K.held K.faults sink.old sink.new text.old text.new (forms.form_text mode keyword) }
{
    say(
        text,
        sink,
        form_wording(mode, keyword),
        &[
            LEAST_TI as u128,
            MOST_TI as u128,
            LEAST_SG as u128,
            MOST_SG as u128,
            LEAST_TG as u128,
            MOST_TG as u128,
            0,
            MOST_TI as u128 - 1,
        ],
    );
}
