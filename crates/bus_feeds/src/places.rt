//! Places of a list, from one on.
ghost use Rattle.std.specs.Prelude.{◌≡◌, ◌+◌, ◌<◌, length, drop, IfSome};
ghost use Rattle.std.specs.Option.{option_map};

/// What stands at a place or behind it.
pub(crate) fn behind<T>(list: &[T], from: usize) -> &[T]
    ensures { result.now ≡ drop from list.now }
{
    list.split_at(from.min(list.len())).1
}

/// The place in a list of what has this place behind `from`.
pub(crate) fn counted_from<T>(list: &[T], from: usize, place: Option<usize>) -> Option<usize>
    requires { IfSome place (λ k. from + k < length list.now) }
    ensures { result ≡ option_map (λ k. from + k) place }
{
    match place {
        Some(place) => Some(from + place),
        None => None,
    }
}
