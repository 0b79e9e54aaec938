//! Where two transmissions or more are sent at once.
ghost use Rattle.std.specs.Prelude.{◌≡◌, ◌≤◌};
ghost use Rattle.bus_outer.specs.Texts.{Adds};
ghost use Rattle.bus_strings.specs.Transmissions.{IsByMoment};
ghost use Rattle.bus_pen.specs.Scales.{IsScale};
ghost use Rattle.bus_picture.specs.OverlapBands as definition;
ghost use Rattle.bus_picture.specs.inside.Banding as working;
ghost use Rattle.bus_picture.specs.inside.Banding.{IsLastBand};

use crate::measures::PLOT_TOP;
use crate::places::meets;
use bus_outer::{Sink, TextBuffer};
use bus_pen::measures::PIXEL;
use bus_pen::{Area, Class, Scale, put_box};
use bus_shapes::{Sent, Sents};
use bus_strings::Transmission;
use bus_strings::laws::neighbours_tell;
use bus_trace::Trace;

/// An overlap band: a stretch of bit times, from the settled start.
#[derive(Clone, Copy, Debug, PartialEq, Eq)]
pub struct OverlapBand {
    /// Its first.
    pub from: u64,
    /// The one behind its last.
    pub to: u64,
}

/// The bit times of a transmission at which one before it is sent too.
fn overlap_of(sent: &Sent) -> OverlapBand
    ensures { result ≡ definition.overlap_of sent.now }
{
    OverlapBand {
        from: sent.moment,
        to: sent.end.min(sent.before),
    }
}

/// Whether there are such bit times that meet the scale.
fn is_overlapped(scale: &Scale, sent: &Sent) -> bool
    ensures { result ≡ definition.is_overlapped scale.now sent.now }
{
    let end = sent.end.min(sent.before);
    sent.moment < end && meets(scale, sent.moment, end)
}

/// Whether the next begins less than a pixel behind an overlap band, or before its end.
fn touches(scale: &Scale, band: &OverlapBand, next: &OverlapBand) -> bool
    requires { IsScale scale.now }
    ensures { result ≡ definition.touches scale.now band.now next.now }
{
    scale.place(next.from) < scale.place(band.to) + PIXEL
}

/// An overlap band that goes on to the end of the next.
fn widened(band: &OverlapBand, next: &OverlapBand) -> OverlapBand
    ensures { result ≡ definition.widened band.now next.now }
{
    OverlapBand {
        from: band.from,
        to: band.to.max(next.to),
    }
}

/// An overlap band, down to the end of the plot.
fn put_overlap_band<K: Sink>(
    text: &mut TextBuffer,
    sink: &mut K,
    scale: &Scale,
    bottom: u64,
    band: &OverlapBand,
)
    requires scale { IsScale scale.now }
    requires bottom { 1170 ≤ bottom }
    requires order { band.now.from ≤ band.now.to }
    ensures { Adds K.held K.faults sink.old sink.new text.old text.new (definition.overlap_band_text scale.now bottom band.now) }
{
    let area = Area {
        left: scale.place(band.from),
        top: PLOT_TOP,
        width: scale.extent(band.from, band.to),
        height: bottom - PLOT_TOP,
    };
    put_box(text, sink, Class::Overlap, area);
}

/// An overlap band, where the next doesn't touch it.
fn put_untouched<K: Sink>(
    text: &mut TextBuffer,
    sink: &mut K,
    scale: &Scale,
    bottom: u64,
    band: &OverlapBand,
    next: &OverlapBand,
)
    requires scale { IsScale scale.now }
    requires bottom { 1170 ≤ bottom }
    requires order { band.now.from ≤ band.now.to }
    ensures { Adds K.held K.faults sink.old sink.new text.old text.new
        (working.untouched scale.now bottom band.now next.now) }
{
    let touched = touches(scale, band, next);
    if !touched {
        put_overlap_band(text, sink, scale, bottom, band);
    }
}

/// The overlap band before the next, where that doesn't touch it.
fn put_before<K: Sink>(
    text: &mut TextBuffer,
    sink: &mut K,
    scale: &Scale,
    bottom: u64,
    last: &Option<OverlapBand>,
    next: &OverlapBand,
)
    requires scale { IsScale scale.now }
    requires bottom { 1170 ≤ bottom }
    requires last { IsLastBand last.now }
    ensures { Adds K.held K.faults sink.old sink.new text.old text.new
        (working.band_before scale.now bottom last.now next.now) }
{
    if let Some(band) = last {
        put_untouched(text, sink, scale, bottom, band, next);
    }
}

/// The last overlap band where this one comes next.
fn with_band(scale: &Scale, last: &Option<OverlapBand>, next: &OverlapBand) -> OverlapBand
    requires { IsScale scale.now }
    ensures { result ≡ working.with_band scale.now last.now next.now }
{
    match last {
        None => *next,
        Some(band) => {
            if touches(scale, band, next) {
                widened(band, next)
            } else {
                *next
            }
        }
    }
}

/// Takes the next transmission of the list: what is then the last overlap band.
fn take<K: Sink>(
    text: &mut TextBuffer,
    sink: &mut K,
    scale: &Scale,
    bottom: u64,
    last: Option<OverlapBand>,
    sent: &Sent,
) -> Option<OverlapBand>
    requires scale { IsScale scale.now }
    requires bottom { 1170 ≤ bottom }
    requires last { IsLastBand last }
    ensures adds { Adds K.held K.faults sink.old sink.new text.old text.new
        (working.next_band_text scale.now bottom last sent.now) }
    ensures last { result ≡ working.next_band scale.now last sent.now }
{
    if !is_overlapped(scale, sent) {
        return last;
    }
    let next = overlap_of(sent);
    put_before(text, sink, scale, bottom, &last, &next);
    Some(with_band(scale, &last, &next))
}

/// The last overlap band, where there is one.
fn put_last<K: Sink>(
    text: &mut TextBuffer,
    sink: &mut K,
    scale: &Scale,
    bottom: u64,
    last: &Option<OverlapBand>,
)
    requires scale { IsScale scale.now }
    requires bottom { 1170 ≤ bottom }
    requires last { IsLastBand last.now }
    ensures { Adds K.held K.faults sink.old sink.new text.old text.new
        (working.last_band_text scale.now bottom last.now) }
{
    if let Some(band) = last {
        put_overlap_band(text, sink, scale, bottom, band);
    }
}

/// The overlap bands of a list. It goes over the list once.
fn put_all<K: Sink>(
    text: &mut TextBuffer,
    sink: &mut K,
    scale: &Scale,
    bottom: u64,
    list: &[Transmission],
)
    requires scale { IsScale scale.now }
    requires bottom { 1170 ≤ bottom }
    requires by_moment { IsByMoment list.now }
    ensures { Adds K.held K.faults sink.old sink.new text.old text.new (definition.overlap_bands_text scale.now bottom list.now) }
{
    let mut last = None;
    for sent in Sents::new(list) {
        last = take(text, sink, scale, bottom, last, &sent);
    }
    put_last(text, sink, scale, bottom, &last);
}

/// The overlap bands of a trace, from the bus down to the end of the plot.
pub(crate) fn put_overlap_bands<K: Sink>(
    text: &mut TextBuffer,
    sink: &mut K,
    scale: &Scale,
    bottom: u64,
    trace: &Trace,
)
    requires scale { IsScale scale.now }
    requires bottom { 1170 ≤ bottom }
    ensures { Adds K.held K.faults sink.old sink.new text.old text.new
        (definition.overlap_bands_text scale.now bottom trace.now.list) }
{
    neighbours_tell();
    let list = trace.list();
    put_all(text, sink, scale, bottom, list);
}

/// Whether a list has an overlap band. It goes over the list up to the first.
fn any_band(scale: &Scale, list: &[Transmission]) -> bool
    requires by_moment { IsByMoment list.now }
    ensures { result ≡ definition.has_overlap_bands scale.now list.now }
{
    for sent in Sents::new(list) {
        if is_overlapped(scale, &sent) {
            return true;
        }
    }
    false
}

/// Whether a trace has an overlap band.
pub(crate) fn has_overlap_bands(scale: &Scale, trace: &Trace) -> bool
    ensures { result ≡ definition.has_overlap_bands scale.now trace.now.list }
{
    neighbours_tell();
    let list = trace.list();
    any_band(scale, list)
}
