//! The names of options.
ghost use Rattle.std.specs.Prelude.{◌≡◌};
ghost use Rattle.bus_options.specs.Keys as keys;

/// An option, by its name.
#[derive(Clone, Copy, Debug, PartialEq, Eq)]
pub enum Key {
    /// `--delay LENGTH`
    Delay,
    /// `--jitter LENGTH`
    Jitter,
    /// `--clocks MILLIONTHS`
    Clocks,
    /// `--from LENGTH`
    From,
    /// `--to LENGTH`
    To,
    /// `--order free`
    Order,
    /// `--age K=LENGTH`
    Age,
    /// `--unit ns`, `--unit s`
    Unit,
    /// `--json`
    Json,
}

impl Key {
    /// Whether the option has no value.
    pub fn is_flag(self) -> bool
        ensures { result ≡ keys.is_flag self }
    {
        matches!(self, Key::Json)
    }
}

/// The option of this name, which begins with `--`.
pub(crate) fn key_of(name: &str) -> Option<Key>
    ensures { result ≡ keys.key_of name.now }
{
    if name == "--delay" {
        Some(Key::Delay)
    } else if name == "--jitter" {
        Some(Key::Jitter)
    } else if name == "--clocks" {
        Some(Key::Clocks)
    } else if name == "--from" {
        Some(Key::From)
    } else if name == "--to" {
        Some(Key::To)
    } else if name == "--order" {
        Some(Key::Order)
    } else if name == "--age" {
        Some(Key::Age)
    } else if name == "--unit" {
        Some(Key::Unit)
    } else if name == "--json" {
        Some(Key::Json)
    } else {
        None
    }
}
