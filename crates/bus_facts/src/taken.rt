//! Who takes a SEND line, as a JSON value.
ghost use Rattle.std.specs.Prelude.{◌≡◌, ◌++◌, map, IfOk};
ghost use Rattle.std.specs.List.{filter};
ghost use Rattle.serde_json.specs.View.{view};
ghost use Rattle.bus_table.specs.Tables as tables;
ghost use Rattle.bus_feeds.specs.Feeds as definitions;
ghost use Rattle.bus_facts.specs.Values.{count};
ghost use Rattle.bus_facts.specs.Takes as told;

use bus_feeds::{listener_takes, sender_takes};
use bus_table::{Listener, SendLine, Sender, Table};
use serde_json::Value;
use std::alloc::{AllocError, Global};

/// Adds the numbers of the senders that take words of a SEND line of the terminal of this number.
fn add_senders(
    values: &mut Vec<Value>,
    number: u8,
    send: &SendLine,
    senders: &[Sender],
) -> Result<(), AllocError>
    ensures { IfOk result (λ _. map view values.new.items ≡ map view values.old.items
        ++ map (λ (sender : tables.Sender). count sender.number) (filter (definitions.sender_takes number send.now) senders.now)) }
{
    for sender in senders {
        if sender_takes(number, send, sender) {
            values.push(Value::from(sender.number()))?;
        }
    }
    Ok(())
}

/// Adds those of the listeners that do.
fn add_listeners(
    values: &mut Vec<Value>,
    number: u8,
    send: &SendLine,
    listeners: &[Listener],
) -> Result<(), AllocError>
    ensures { IfOk result (λ _. map view values.new.items ≡ map view values.old.items
        ++ map (λ (listener : tables.Listener). count listener.number) (filter (definitions.listener_takes number send.now) listeners.now)) }
{
    for listener in listeners {
        if listener_takes(number, send, listener) {
            values.push(Value::from(listener.number()))?;
        }
    }
    Ok(())
}

/// The numbers of the terminals that take words of a SEND line of the terminal of this number.
fn taken_values(
    alloc: Global,
    table: &Table,
    number: u8,
    send: &SendLine,
) -> Result<Vec<Value>, AllocError>
    ensures { IfOk result (λ values. map view values.items ≡ told.taken_values table.now number send.now) }
{
    let mut values = Vec::new(alloc);
    add_senders(&mut values, number, send, table.senders())?;
    add_listeners(&mut values, number, send, table.listeners())?;
    Ok(values)
}

/// The same as one value.
pub(crate) fn taken_by_value(
    alloc: Global,
    table: &Table,
    number: u8,
    send: &SendLine,
) -> Result<Value, AllocError>
    ensures { IfOk result (λ value. view value ≡ told.taken_by_value table.now number send.now) }
{
    Ok(Value::from(taken_values(alloc, table, number, send)?))
}
