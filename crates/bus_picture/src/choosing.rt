//! Which lanes are drawn.
ghost use Rattle.std.specs.Prelude.{◌≡◌, ◌<◌, ◌≤◌, ◌+◌, ◌++◌, [], ◌∷◌, filter, length};
ghost use Rattle.std.specs.List.{list_any};
ghost use Rattle.arrayvec.specs.ArrayVec.{array_vec_len};
ghost use Rattle.bus_picture.specs.Lanes as definition;

use crate::places::meets;
use arrayvec::ArrayVec;
use bus_audit::AuditAnswer;
use bus_dump::{Lane, MOST_LANES};
use bus_pen::Scale;
use bus_shapes::Told;
use bus_strings::Transmission;

/// Whether a transmission is of the terminal of a lane and meets the moments of the scale.
fn is_in(scale: &Scale, lane: Lane, x: &Transmission) -> bool
    ensures { result ≡ definition.is_in scale.now lane x.now }
{
    x.terminal == lane.terminal && meets(scale, x.moment, x.end())
}

/// Whether the first breach of an audit names this terminal.
fn is_named(told: &Told, number: u8) -> bool
    ensures { result ≡ definition.is_named told.now number }
{
    match told {
        Told::Audit(AuditAnswer::Breach { terminal, .. }) => *terminal == number,
        Told::Audit(AuditAnswer::Lawful { .. }) => false,
        Told::OnCable { .. } | Told::Findings { .. } => false,
    }
}

/// Whether a terminal sends in the scale. It goes over the list up to its first transmission there.
fn sends(scale: &Scale, list: &[Transmission], lane: Lane) -> bool
    ensures { result ≡ list_any (definition.is_in scale.now lane) list.now }
{
    list.iter().any(|x| is_in(scale, lane, x))
}

/// Whether a lane has something to show.
fn has_some(scale: &Scale, told: &Told, list: &[Transmission], lane: Lane) -> bool
    ensures { result ≡ definition.has_some scale.now told.now list.now lane }
{
    sends(scale, list, lane) || is_named(told, lane.terminal)
}

/// Adds a lane, where it has something to show.
fn add_lane(
    lanes: &mut ArrayVec<Lane, MOST_LANES>,
    scale: &Scale,
    told: &Told,
    list: &[Transmission],
    lane: &Lane,
)
    requires { array_vec_len lanes.old < MOST_LANES }
    ensures items { lanes.new.items ≡ lanes.old.items ++ filter (definition.has_some scale.now told.now list.now) (lane.now ∷ []) }
    ensures few { array_vec_len lanes.new ≤ array_vec_len lanes.old + 1 }
{
    if has_some(scale, told, list, *lane) {
        lanes.push(*lane);
    }
}

/// The lanes that have something to show.
fn lanes_with_some(
    scale: &Scale,
    told: &Told,
    list: &[Transmission],
    lanes: &[Lane],
) -> ArrayVec<Lane, MOST_LANES>
    requires { length lanes.now ≤ MOST_LANES }
    ensures { result.items ≡ definition.lanes_with_some scale.now told.now list.now lanes.now }
{
    let mut some = ArrayVec::new();
    for k in 0..lanes.len() {
        let lane = &lanes[k];
        add_lane(&mut some, scale, told, list, lane);
    }
    some
}

/// The lanes that are drawn: all of them, or those that have something to show. It goes over the list up to the first transmission of each.
pub(crate) fn drawn_lanes(
    scale: &Scale,
    told: &Told,
    list: &[Transmission],
    lanes: ArrayVec<Lane, MOST_LANES>,
) -> ArrayVec<Lane, MOST_LANES>
    ensures { result.items ≡ definition.drawn_lanes scale.now told.now list.now lanes.items }
{
    let some = lanes_with_some(scale, told, list, lanes.as_slice());
    let empty = lanes.len().saturating_sub(some.len());
    if empty > 8 { some } else { lanes }
}
