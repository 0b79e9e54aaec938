//! What the program tells of itself.
ghost use Rattle.std.specs.Prelude.{◌≡◌, ◌≢◌};
ghost use Rattle.bus_command.specs.About.{EndsTelling};
ghost use Rattle.bus_command.specs.declared.outcome.Outcome.TheVariants.{NoMemory};
ghost use Rattle.bus_view.specs.Itself.{itself_text, version_text};

use crate::refusal::Outcome;
use bus_command::{About, tell};
use bus_outer::Sink;

/// The help, which `docs/bus629-view.help` has too.
pub const HELP: &[u8] =
    b"bus629-view shows recorded traces of buses after ARINC 629 (Basic Protocol). It writes them as Value
Change Dumps (IEEE 1364), which wave viewers such as GTKWave read (sigrok and PulseView only wires),
and as SVG pictures, which browsers show; and on a table one HTML page for who reviews it. What it
writes is proved.

  bus629-view vcd T R [WINDOW]      the dump of the trace in the file R, on the table in the file T:
                                    the bus, with the first breach, and each sender or other
                                    terminal that sends
  bus629-view wires T R [WINDOW]    its signals of one bit alone
  bus629-view timers T R [WINDOW]   the dump with the timers of each sender, and where it may start
  bus629-view gtkw T R [WINDOW]     the save file with which GTKWave shows all signals of any of
                                    these dumps
  bus629-view svg T R [BOUNDS] [WINDOW]
                                    the trace as a time line, with a lane for each terminal; with
                                    bounds with each fault that diagnose of bus629 finds within
                                    them, by timer and amount
  bus629-view cycles T R [BOUNDS] [WINDOW]
                                    a row for each cycle, for long traces; with bounds with these
                                    faults
  bus629-view page T [BOUNDS]       the page on the table in the file T, without any trace: verdict,
                                    cycles, what limits it, and where data wait; with bounds with
                                    the room that margins of bus629 tells within them
  bus629-view --help                this text
  bus629-view --version             the version of the program, and of each text that it reads

WINDOW and BOUNDS are options, in any order behind the files:

  --from F, --to G   what is written is of the bit times from F to below G, or in cycles of what
                     begins there; from the first moment on without --from, of all of the trace
                     without both
  --delay D, --jitter J, --clocks P
                     how exact the recorded bus is, one or more, up to 9bt, 255bt and 1000ppm; in
                     page the bus of the table, up to 1ms, 100us and 1000ppm; what isn't given is 0

F, G, D and J are written 600ns, 1.5us, 2ms or 3bt, bit times of half a microsecond, with at most
three places behind the point, and rounded up to bit times but in page. --to=3bt is the same as
--to 3bt. A file whose name begins with -- is written ./--.

What run, drop, observe, cable and unwave of bus629 write is a trace. The status is 0 where the text
is written, 1 where the page says that T gives no accepted table, 2 where the words are no command,
3 where the text of the table or the table as a whole is refused, 4 where the trace is, 5 for a
failed read, 6 for a failed write, 7 where memory is refused, and 8 for a file past its limit. A
line on standard error says why from 2 on.

docs/FORMATS.md has the signals, the texts, lines and statuses, docs/CLAIMS.md what is proved;
examples/ has a table and a trace to try.
";

/// The version of the program, and those of the texts that it reads and writes.
pub const VERSION: &[u8] = b"bus629-view 1.1.0 (TABLE 1, TRACE 1 and 2)\n";

/// The version line.
#[tactic(auto, unfolding(crate::specs::Itself::version_text))]
pub(crate) fn version() -> &'static [u8]
    ensures { result.now ≡ version_text }
{
    VERSION
}

/// What is asked of the program itself.
#[tactic(auto, unfolding(crate::specs::Itself::help_text, crate::specs::Itself::version_text))]
fn text_of(about: About) -> &'static [u8]
    ensures { result.now ≡ itself_text about }
{
    match about {
        About::Help => HELP,
        About::Version => VERSION,
    }
}

/// Writes what is asked of the program itself. It takes no memory.
pub fn tell_itself<K: Sink>(about: About, out: &mut K) -> Outcome
    ensures ends { EndsTelling ⟦<K as Sink>⟧ (itself_text about) out.old out.new result }
    ensures room { result ≢ NoMemory }
{
    tell(text_of(about), out)
}
