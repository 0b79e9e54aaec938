//! The words of a command line, and the form that they have.
ghost use Rattle.std.specs.Prelude.{◌≡◌, ◌≤◌, IfSome, length, take};
ghost use Rattle.std.specs.Option.{option_map};
ghost use Rattle.bus_options.specs.Bounding.{most_near_delay};
ghost use Rattle.bus_options.specs.Words.{words_of};
ghost use Rattle.bus_view.specs.Forms as forms;
ghost use Rattle.bus_view.specs.Forms.{IsNear, IsWithinLimits};

use crate::forms::{Form, Picture, View};
use bus_bounds::Bounds;
use bus_command::about_of;
use bus_dump::Dump;
use bus_options::{OptionSet, Options, bounds_of, line_of, near_bounds_of};
use bus_trace::Window;
use bus_units::bits_up;

/// No window is asked for rightly: it has a beginning and no end, or no moment, or goes further than a trace may.
#[derive(Clone, Copy, Debug, PartialEq, Eq)]
pub(crate) struct NoWindow;

/// The window from a moment to a later one, in bit times.
fn window_bits(from: u64, to: u64) -> Result<Option<Window>, NoWindow>
    ensures { result ≡ forms.window_bits from to }
{
    match Window::new(from, to) {
        Some(window) => Ok(Some(window)),
        None => Err(NoWindow),
    }
}

/// The window that options ask for, whose moments are rounded up to bit times.
fn window_by(options: &Options) -> Result<Option<Window>, NoWindow>
    ensures { result ≡ forms.window_by options.now.from options.now.to }
{
    match (options.from, options.to) {
        (None, None) => Ok(None),
        (Some(_), None) => Err(NoWindow),
        (None, Some(to)) => window_bits(0, bits_up(to)),
        (Some(from), Some(to)) => window_bits(bits_up(from), bits_up(to)),
    }
}

/// The dump of a command.
fn dump_of(command: &str) -> Option<Dump>
    ensures { result ≡ forms.dump_of command.now }
{
    if command == "vcd" {
        Some(Dump::Vcd)
    } else if command == "wires" {
        Some(Dump::Wires)
    } else if command == "timers" {
        Some(Dump::Timers)
    } else {
        None
    }
}

/// The picture of a command.
fn picture_of(command: &str) -> Option<Picture>
    ensures { result ≡ forms.picture_of command.now }
{
    if command == "svg" {
        Some(Picture::TimeLine)
    } else if command == "cycles" {
        Some(Picture::Cycles)
    } else {
        None
    }
}

/// The dump or the picture of a command, of all of a trace or of a window of it.
fn dumped_or_painted(command: &str, window: Option<Window>) -> Option<View>
    ensures value { result ≡ forms.dumped_or_painted command.now window }
    ensures near { IfSome result IsNear }
{
    match dump_of(command) {
        Some(dump) => Some(View::Dump(dump, window)),
        None => {
            let picture = picture_of(command)?;
            Some(View::Picture(picture, window))
        }
    }
}

/// The dump, the save file or the picture of a command, of all of a trace or of a window of it.
fn drawn(command: &str, window: Option<Window>) -> Option<View>
    ensures value { result ≡ forms.drawn command.now window }
    ensures near { IfSome result IsNear }
{
    if command == "gtkw" {
        Some(View::SaveFile(window))
    } else {
        dumped_or_painted(command, window)
    }
}

/// The picture of a command with what is found within bounds, of all of a trace or of a window of it.
fn judged(command: &str, bounds: Bounds, window: Option<Window>) -> Option<View>
    requires limit { bounds.delay ≤ most_near_delay }
    ensures value { result ≡ forms.judged command.now bounds window }
    ensures near { IfSome result IsNear }
{
    let picture = picture_of(command)?;
    Some(View::Judged(picture, bounds, window))
}

/// What a word asks for, where it is the only one.
fn one_word(word: &str) -> Option<Form>
    ensures value { result ≡ forms.one_word word.now }
    ensures limits { IfSome result IsWithinLimits }
{
    let about = about_of(word)?;
    Some(Form::OnItself(about))
}

/// The view of a command, within the bounds and of the window that options ask for.
fn view_by(command: &str, options: &Options) -> Option<View>
    ensures value { result ≡ forms.view_by command.now (forms.near_bounds_of options.now) (forms.window_by options.now.from options.now.to) }
    ensures near { IfSome result IsNear }
{
    match near_bounds_of(options) {
        Ok(bounds) => match (bounds, window_by(options)) {
            (None, Ok(window)) => drawn(command, window),
            (Some(bounds), Ok(window)) => judged(command, bounds, window),
            (_, Err(NoWindow)) => None,
        },
        Err(_) => None,
    }
}

/// The view that a command with two files and these options asks for: `vcd`, `wires`, `timers`, `gtkw`, `svg`, `cycles`.
fn view_of(command: &str, options: &Options) -> Option<View>
    ensures value { result ≡ forms.view_of command.now options.now }
    ensures near { IfSome result IsNear }
{
    if OptionSet::BOUNDS_AND_WINDOW.takes(options) {
        view_by(command, options)
    } else {
        None
    }
}

/// A view, as a form.
fn on_trace(view: Option<View>) -> Option<Form>
    requires { IfSome view IsNear }
    ensures value { result ≡ option_map forms.OnTrace view }
    ensures limits { IfSome result IsWithinLimits }
{
    let view = view?;
    Some(Form::OnTrace(view))
}

/// The page of a table, with its margins within the bounds that options ask for, where they ask for any.
fn page_by(options: &Options) -> Option<Form>
    ensures value { result ≡ forms.page_by (forms.bounds_of options.now) }
    ensures limits { IfSome result IsWithinLimits }
{
    match bounds_of(options) {
        Ok(asked) => Some(Form::Page(asked)),
        Err(_) => None,
    }
}

/// What a command with one file and these options asks for: `page`.
fn page_of(command: &str, options: &Options) -> Option<Form>
    ensures value { result ≡ forms.page_of command.now options.now }
    ensures limits { IfSome result IsWithinLimits }
{
    if command == "page" && OptionSet::BOUNDS.takes(options) {
        page_by(options)
    } else {
        None
    }
}

/// The form of so many plain words, with options behind.
fn form_with(words: &[String], plain: usize, options: &Options) -> Option<Form>
    requires { plain ≤ length words.now }
    ensures value { result ≡ forms.form_with (take plain (words_of words.now)) options.now }
    ensures limits { IfSome result IsWithinLimits }
{
    match plain {
        2 => page_of(words[0].as_str(), options),
        3 => on_trace(view_of(words[0].as_str(), options)),
        _ => None,
    }
}

/// What these words ask for: a view; the page of a table; `--help`, `--version`; None where they are no form.
pub fn form_of(words: &[String]) -> Option<Form>
    ensures value { result ≡ forms.form_of (words_of words.now) }
    ensures limits { IfSome result IsWithinLimits }
{
    match words.len() {
        0 => None,
        1 => one_word(words[0].as_str()),
        _ => match line_of(words) {
            Ok(line) => form_with(words, line.plain, &line.options),
            Err(_) => None,
        },
    }
}
