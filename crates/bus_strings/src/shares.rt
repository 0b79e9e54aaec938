//! Shares: a part of a whole, in tenths of a percent.
ghost use Rattle.std.specs.Prelude.{◌≡◌, ◌<◌, ◌^◌};
ghost use Rattle.bus_outer.specs.Texts.{Adds};
ghost use Rattle.bus_strings.specs.Shares as definition;

use bus_outer::{Sink, TextBuffer};

/// A share in tenths of a percent, rounded to the nearest, a half up. The whole isn't 0, and the part is below 2 to the power of 111.
pub fn tenths(part: u128, whole: u64) -> u128
    requires part { part < 2 ^ 111 }
    requires whole { 0 < whole }
    ensures { result ≡ definition.tenths part whole }
{
    (2000 * part + u128::from(whole)) / (2 * u128::from(whole))
}

/// Puts a share, which is told in tenths of a percent: `12.5 %`.
pub fn put_share<K: Sink>(text: &mut TextBuffer, sink: &mut K, share: u128)
    ensures { Adds K.held K.faults sink.old sink.new text.old text.new (definition.share_text share) }
{
    text.put_number(sink, share / 10);
    text.put(sink, b".");
    text.put_number(sink, share % 10);
    text.put(sink, b" %");
}
