//! What a terminal hears of a list, and what it hears next. A list is sent in order, and what is heard is heard later by no more than the
//! length of the cable: what is heard next is looked for from the first that is not heard yet, as far as it can stand.
ghost use Rattle.std.specs.Prelude.{◌≡◌, ℕ, ◌+◌, ◌*◌, ◌<◌, ◌≤◌, ◌^◌, nat_lt, length, slice_get, false};
ghost use Rattle.std.specs.List.{AllByRecursion};
ghost use Rattle.std.specs.Option.{option_map_or};
ghost use Rattle.bus_strings.specs.Limits.{horizon_limit};
ghost use Rattle.bus_strings.specs.Transmissions.{IsTransmission, IsByMoment};
ghost use Rattle.bus_medium.specs.Delays.{cable, later, heard};
ghost use Rattle.bus_propagation.specs.Numbered.{most_place};
ghost use Rattle.bus_cable.specs.inside.Ranks.{heard_as, rank, rank_in, rank_of, IsFirst};
ghost use Rattle.bus_propagation.specs.Numbered.{numbered};

use bus_propagation::{distance, number_of};
use bus_strings::Transmission;

/// What is kept of a transmission as a terminal hears it.
#[derive(Clone, Copy)]
pub(crate) struct Heard {
    /// When it begins there.
    pub moment: u64,
    /// Who sends it.
    pub terminal: u8,
    /// When it has ended there.
    pub end: u64,
}

/// A transmission as the terminal `number` hears it.
pub(crate) fn hear(places: &[u64], number: u8, x: &Transmission) -> Heard
    requires { (n : ℕ) → numbered places.now n ≤ most_place }
    ensures value { result ≡ heard_as (later (cable (numbered places.now) x.now number) x.now) }
    ensures low { result.moment < horizon_limit + 1024 }
    ensures from { x.now.moment ≤ result.moment }
    ensures ranges { IsTransmission x.now }
{
    let delay = distance(number_of(places, x.terminal), number_of(places, number));
    Heard {
        moment: x.moment + delay,
        terminal: x.terminal,
        end: x.end() + delay,
    }
}

/// The rank of a moment and a terminal: of what is heard, the first has the least.
pub(crate) fn rank_of(moment: u64, terminal: u8) -> u64
    requires { moment < 2 ^ 48 }
    ensures { result ≡ rank_of moment terminal }
{
    256 * moment + u64::from(terminal)
}

/// The rank of a transmission as the terminal `number` hears it.
fn rank(places: &[u64], number: u8, x: &Transmission) -> u64
    requires { (n : ℕ) → numbered places.now n ≤ most_place }
    ensures value { result ≡ rank (later (cable (numbered places.now) x.now number) x.now) }
    ensures few { result < 2 ^ 50 }
    ensures from { 256 * x.now.moment ≤ result }
{
    let heard = hear(places, number, x);
    rank_of(heard.moment, heard.terminal)
}

/// The first place from `from` on whose rank is at least `bound`.
pub(crate) fn passed(
    list: &[Transmission],
    places: &[u64],
    number: u8,
    from: usize,
    bound: u64,
) -> usize
    requires places { (n : ℕ) → numbered places.now n ≤ most_place }
    requires from { from ≤ length list.now }
    ensures within { result ≤ length list.now }
    ensures before { (k : ℕ) → from ≤ k → k < result → rank_in (heard (cable (numbered places.now)) number list.now) k < bound }
{
    for at in from..list.len() {
        if rank(places, number, &list[at]) >= bound {
            return at;
        }
    }
    list.len()
}

/// Of the places from `from` on whose rank is at least `bound`, the one with the least; the list's length where there is none.
pub(crate) fn first_heard(
    list: &[Transmission],
    places: &[u64],
    number: u8,
    from: usize,
    bound: u64,
) -> usize
    requires places { (n : ℕ) → numbered places.now n ≤ most_place }
    requires order { IsByMoment list.now }
    requires from { from ≤ length list.now }
    ensures { IsFirst (rank_in (heard (cable (numbered places.now)) number list.now)) from bound (length list.now) result }
{
    let mut best = list.len();
    let mut least = u64::MAX;
    for at in from..list.len() {
        let x = &list[at];
        if x.moment * 256 >= least {
            return best;
        }
        let rank = rank(places, number, x);
        if bound <= rank && rank < least {
            best = at;
            least = rank;
        }
    }
    best
}

/// Whether the transmission at a place is heard to begin before a moment; not where there is none.
pub(crate) fn begins_before(
    list: &[Transmission],
    places: &[u64],
    number: u8,
    at: usize,
    end: u64,
) -> bool
    requires { (n : ℕ) → numbered places.now n ≤ most_place }
    ensures { result ≡ option_map_or (λ y. nat_lt y.moment end) (slice_get (heard (cable (numbered places.now)) number list.now) at) false }
{
    match list.get(at) {
        None => false,
        Some(next) => hear(places, number, next).moment < end,
    }
}

/// A look at each transmission, of which nothing is left in the built program, makes its ranges known.
pub(crate) fn look_at(list: &[Transmission])
    ensures { AllByRecursion IsTransmission list.now }
{
    for x in list {
        let _ranges = (x.terminal, x.end());
    }
}
