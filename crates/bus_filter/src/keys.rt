//! What each transmission of a list is looked up by, found by one pass over it.
ghost use Rattle.std.specs.Prelude.{◌≡◌, ◌<◌, [], IsTrue, IfSome};
ghost use Rattle.bus_strings.specs.Transmissions.{IsByMoment, IsClear};
ghost use Rattle.bus_filter.specs.inside.Keys as inside;
ghost use Rattle.bus_filter.specs.inside.Keys.{key_count, AreKeys};

use arrayvec::ArrayVec;
use bus_strings::laws::neighbours_tell;
use bus_strings::{Marks, Message, Transmission};

/// The key of a message of several wordstrings. The key of one is its label.
pub(crate) const SEVERAL: u16 = 4096;

/// The key of a garbled transmission.
const SILENT: u16 = 4097;

/// How many keys there are.
pub(crate) const KEYS: usize = 4098;

/// How many transmissions there is room for, on the stack.
const ROOM: usize = 262_144;

/// The keys of a list.
pub(crate) type Keys = ArrayVec<u16, ROOM>;

/// The key of a message.
fn message_key(message: &Message) -> u16
    ensures value { result ≡ inside.message_key message.now }
    ensures range { result < key_count }
{
    match message.strings() {
        [one] => one.label().value(),
        _ => SEVERAL,
    }
}

/// The key of a transmission that is marked where it is garbled.
pub(crate) fn key(x: &Transmission, garbled: bool) -> u16
    ensures value { result ≡ inside.key (x.now, garbled) }
    ensures range { result < key_count }
{
    if garbled {
        SILENT
    } else {
        message_key(&x.message)
    }
}

/// Gathers the keys of a list. False where there is no room for all.
fn gather(keys: &mut Keys, list: &[Transmission]) -> bool
    requires order { IsByMoment list.now }
    requires none { keys.old.items ≡ [] }
    ensures { IsTrue result → AreKeys keys.new.items list.now }
{
    let mut marks = Marks::new(list);
    for x in list {
        let garbled = marks.next() == Some(true);
        if keys.try_push(key(x, garbled)).is_err() {
            return false;
        }
    }
    true
}

/// Gathers the keys of a list without overlaps, of which none is garbled. False where there is no room for all.
fn gather_clear(keys: &mut Keys, list: &[Transmission]) -> bool
    requires clear { IsClear list.now }
    requires none { keys.old.items ≡ [] }
    ensures { IsTrue result → AreKeys keys.new.items list.now }
{
    neighbours_tell();
    for x in list {
        if keys.try_push(key(x, false)).is_err() {
            return false;
        }
    }
    true
}

/// The keys of a list, where there is room for all.
pub(crate) fn gathered<'a>(room: &'a mut Keys, list: &[Transmission]) -> Option<&'a [u16]>
    requires order { IsByMoment list.now }
    requires none { room.old.items ≡ [] }
    ensures { IfSome result (λ keys. AreKeys keys.now list.now) }
{
    if gather(room, list) {
        Some(room.as_slice())
    } else {
        None
    }
}

/// The keys of a list without overlaps, where there is room for all.
pub(crate) fn gathered_clear<'a>(room: &'a mut Keys, list: &[Transmission]) -> Option<&'a [u16]>
    requires clear { IsClear list.now }
    requires none { room.old.items ≡ [] }
    ensures { IfSome result (λ keys. AreKeys keys.now list.now) }
{
    if gather_clear(room, list) {
        Some(room.as_slice())
    } else {
        None
    }
}
