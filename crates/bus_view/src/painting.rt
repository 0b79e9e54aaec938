//! The pictures.
ghost use Rattle.std.specs.Prelude.{◌≡◌, ◌≤◌, true, IfOk};
ghost use Rattle.bus_command.specs.Acts.{Ends};
ghost use Rattle.bus_options.specs.Bounding.{most_near_delay};
ghost use Rattle.bus_command.specs.Outside.{sink_seen};
ghost use Rattle.bus_command.specs.Readers.{by_recorded};
ghost use Rattle.bus_command.specs.declared.outcome.Outcome.TheVariants.{Done};
ghost use Rattle.bus_load.specs.Loads.{IsCarrierOf};
ghost use Rattle.bus_outer.specs.Sinks.{WritesText};
ghost use Rattle.bus_regime.specs.Verdicts.{verdict_of};
ghost use Rattle.bus_shapes.specs.Sending.{sents as all_told};
ghost use Rattle.bus_trace.specs.Traces.{IsTrace};
ghost use Rattle.bus_view.specs.inside.Acting.{EndsOnRecorded, EndsOnView};
ghost use Rattle.bus_view.specs.Due.{painted, window_or_whole};
ghost use Rattle.bus_view.specs.Forms.{Painted, Judged};
ghost use Rattle.bus_view.specs.declared.forms.Picture.TheVariants.{TimeLine};

use crate::forms::Picture;
use crate::refusal::Outcome;
use crate::windowing::window_or_whole;
use bus_audit::audit;
use bus_bounds::Bounds;
use bus_command::after_writing;
use bus_cycles::write_cycles;
use bus_findings::judgements;
use bus_load::{Stretch, carrier_stretches};
use bus_outer::{Sink, WriteFault};
use bus_picture::write_time_line;
use bus_regime::{TableVerdict, verdict};
use bus_shapes::{Sent, Told, all_sents};
use bus_strings::laws::neighbours_tell;
use bus_table::Table;
use bus_trace::{Trace, Window};
use std::alloc::{AllocError, Global};

/// What a time line tells of each transmission of a trace; cycles ask for nothing of it, which takes no memory.
fn sents_of(alloc: Global, picture: Picture, trace: &Trace) -> Result<Vec<Sent>, AllocError>
    ensures { IfOk result (λ told. picture ≡ TimeLine → told.items ≡ all_told trace.now.list) }
{
    neighbours_tell();
    match picture {
        Picture::TimeLine => all_sents(alloc, trace.list()),
        Picture::Cycles => Ok(Vec::new(alloc)),
    }
}

/// Writes a picture of a window of a trace, of which the carrier is given, and for a time line what is told of each transmission.
fn write_picture<K: Sink>(
    picture: Picture,
    window: &Window,
    verdict: &TableVerdict,
    told: &Told,
    table: &Table,
    trace: &Trace,
    carrier: &[Stretch],
    sents: &[Sent],
    out: &mut K,
) -> Result<(), WriteFault>
    requires carrier { IsCarrierOf carrier.now trace.now.list }
    requires all { picture ≡ TimeLine → sents.now ≡ all_told trace.now.list }
    ensures { WritesText K.held K.faults out.old out.new result
        (painted picture window.now verdict.now told.now table.now trace.now) }
{
    match picture {
        Picture::TimeLine => write_time_line(
            window, verdict, told, table, trace, carrier, sents, out,
        ),
        Picture::Cycles => write_cycles(window, verdict, told, table, trace, carrier, out),
    }
}

/// Writes this picture of a trace on a table, of which this is told; of a window of it, or of all.
fn paint_told<K: Sink>(
    alloc: Global,
    picture: Picture,
    window: Option<Window>,
    told: &Told,
    table: &Table,
    trace: &Trace,
    out: &mut K,
) -> Outcome
    ensures { Ends (by_recorded true) Done
        (λ text. text ≡ painted picture (window_or_whole window trace.now) (verdict_of table.now) told.now table.now trace.now)
        (sink_seen ⟦<K as Sink>⟧ out.old) (sink_seen ⟦<K as Sink>⟧ out.new) result }
{
    let Ok(carrier) = carrier_stretches(alloc, trace.list()) else {
        return Outcome::NoMemory;
    };
    let Ok(sents) = sents_of(alloc, picture, trace) else {
        return Outcome::NoMemory;
    };
    let window = window_or_whole(window, trace);
    let verdict = verdict(table);
    let painted = write_picture(
        picture, &window, &verdict, told, table, trace, &carrier, &sents, out,
    );
    after_writing(painted, Outcome::Done)
}

/// Writes this picture of a trace on a table, with what an audit finds; of a window of it, or of all.
fn paint_audited<K: Sink>(
    alloc: Global,
    picture: Picture,
    window: Option<Window>,
    table: &Table,
    trace: &Trace,
    out: &mut K,
) -> Outcome
    requires { IsTrace trace.now }
    ensures { EndsOnView ⟦<K as Sink>⟧ (Painted picture window) table.now trace.now out.old out.new result }
{
    match audit(alloc, table, trace) {
        Ok(answer) => {
            let told = Told::Audit(answer);
            paint_told(alloc, picture, window, &told, table, trace, out)
        }
        Err(_) => Outcome::NoMemory,
    }
}

/// Writes this picture of a trace on a table, with what an audit finds or, where it is known how many receptions are garbled, with that;
/// of a window of it, or of all.
pub fn paint<K: Sink>(
    alloc: Global,
    picture: Picture,
    window: Option<Window>,
    table: &Table,
    trace: &Trace,
    garbled: Option<u64>,
    out: &mut K,
) -> Outcome
    requires { IsTrace trace.now }
    ensures { EndsOnRecorded ⟦<K as Sink>⟧ (Painted picture window) table.now trace.now garbled out.old out.new result }
{
    match garbled {
        Some(garbled) => {
            let told = Told::OnCable { garbled };
            paint_told(alloc, picture, window, &told, table, trace, out)
        }
        None => paint_audited(alloc, picture, window, table, trace, out),
    }
}

/// Writes this picture of a trace on a table, with what is found in it as in a recording of a bus within bounds, and with how many
/// receptions are garbled, where that is known; of a window of it, or of all.
pub fn paint_judged<K: Sink>(
    alloc: Global,
    picture: Picture,
    bounds: Bounds,
    window: Option<Window>,
    table: &Table,
    trace: &Trace,
    garbled: Option<u64>,
    out: &mut K,
) -> Outcome
    requires near { bounds.delay ≤ most_near_delay }
    ensures { EndsOnRecorded ⟦<K as Sink>⟧ (Judged picture bounds window) table.now trace.now garbled out.old out.new result }
{
    match judgements(alloc, table, trace, bounds) {
        Ok(judgements) => {
            let told = Told::Findings {
                bounds,
                judgements,
                garbled,
            };
            paint_told(alloc, picture, window, &told, table, trace, out)
        }
        Err(_) => Outcome::NoMemory,
    }
}
