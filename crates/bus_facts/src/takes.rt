//! The TAKE lines of a table, with what feeds each, and who takes a SEND line, as JSON values.
ghost use Rattle.std.specs.Prelude.{◌≡◌, ◌++◌, map, IfOk};
ghost use Rattle.std.specs.List.{filter, flat_map};
ghost use Rattle.serde_json.specs.View.{view};
ghost use Rattle.bus_filter.specs.Received.{listener_taker, sender_taker};
ghost use Rattle.bus_feeds.specs.Feeds as definitions;
ghost use Rattle.bus_facts.specs.Takes as told;

use crate::values::{ext_text, label_text};
use bus_feeds::{feeds, listener_takes, sender_takes, share_of};
use bus_table::{Listener, SendLine, Sender, Table, TakeLine};
use bus_words::Ext;
use serde_json::{Value, json};
use std::alloc::{AllocError, Global};

/// The extension of a TAKE line; null where it has `*`.
fn ext_or_null(alloc: Global, ext: Option<Ext>) -> Result<Value, AllocError>
    ensures { IfOk result (λ value. view value ≡ told.ext_or_null ext) }
{
    match ext {
        Some(ext) => Ok(Value::from(ext_text(alloc, ext)?)),
        None => Ok(Value::Null),
    }
}

/// A SEND line of a terminal that feeds a TAKE line, and how many words of that come with it.
fn feed_value(
    alloc: Global,
    other: u8,
    take: &TakeLine,
    send: &SendLine,
) -> Result<Value, AllocError>
    ensures { IfOk result (λ value. view value ≡ told.feed_value other take.now send.now) }
{
    let share = share_of(send, take);
    let ext = ext_text(alloc, send.ext)?;
    let label = label_text(alloc, send.label)?;
    json!(in alloc; {
        "always": share.always,
        "ext": ext,
        "label": label,
        "most": u32::from(share.always) + u32::from(share.sometimes),
        "never": share.never,
        "terminal": other
    })
}

/// Adds those of the SEND lines of another terminal that feed a TAKE line.
fn add_feeds(
    alloc: Global,
    values: &mut Vec<Value>,
    other: u8,
    take: &TakeLine,
    sends: &[SendLine],
) -> Result<(), AllocError>
    ensures { IfOk result (λ _. map view values.new.items
        ≡ map view values.old.items ++ told.feed_values other take.now sends.now) }
{
    for send in sends {
        if feeds(send, take) {
            values.push(feed_value(alloc, other, take, send)?)?;
        }
    }
    Ok(())
}

/// Adds those of a sender, unless it is the terminal of this number itself.
fn add_feeder(
    alloc: Global,
    values: &mut Vec<Value>,
    number: u8,
    take: &TakeLine,
    sender: &Sender,
) -> Result<(), AllocError>
    ensures { IfOk result (λ _. map view values.new.items
        ≡ map view values.old.items ++ told.feeder_values number take.now sender.now) }
{
    if sender.number() == number {
        return Ok(());
    }
    add_feeds(alloc, values, sender.number(), take, sender.sends())
}

/// All that feeds a TAKE line of the terminal of this number.
fn feeders(
    alloc: Global,
    number: u8,
    take: &TakeLine,
    senders: &[Sender],
) -> Result<Vec<Value>, AllocError>
    ensures { IfOk result (λ values. map view values.items ≡ flat_map (told.feeder_values number take.now) senders.now) }
{
    let mut values = Vec::new(alloc);
    for sender in senders {
        add_feeder(alloc, &mut values, number, take, sender)?;
    }
    Ok(values)
}

/// A TAKE line of the terminal of this number, with all that feeds it.
fn take_value(
    alloc: Global,
    table: &Table,
    number: u8,
    take: &TakeLine,
) -> Result<Value, AllocError>
    ensures { IfOk result (λ value. view value ≡ told.take_value table.now number take.now) }
{
    let ext = ext_or_null(alloc, take.ext)?;
    let feeds = feeders(alloc, number, take, table.senders())?;
    let label = label_text(alloc, take.label)?;
    json!(in alloc; {
        "count": take.count,
        "ext": ext,
        "feeds": feeds,
        "first": take.first,
        "label": label,
        "terminal": number
    })
}

/// Adds the TAKE lines of the terminal of this number.
fn add_takes(
    alloc: Global,
    values: &mut Vec<Value>,
    table: &Table,
    number: u8,
    takes: &[TakeLine],
) -> Result<(), AllocError>
    ensures { IfOk result (λ _. map view values.new.items
        ≡ map view values.old.items ++ map (told.take_value table.now number) takes.now) }
{
    for take in takes {
        values.push(take_value(alloc, table, number, take)?)?;
    }
    Ok(())
}

/// Adds those of senders.
fn add_of_senders(
    alloc: Global,
    values: &mut Vec<Value>,
    table: &Table,
    senders: &[Sender],
) -> Result<(), AllocError>
    ensures { IfOk result (λ _. map view values.new.items
        ≡ map view values.old.items ++ flat_map (λ sender. told.taker_values table.now (sender_taker sender)) senders.now) }
{
    for sender in senders {
        add_takes(alloc, values, table, sender.number(), sender.takes())?;
    }
    Ok(())
}

/// Adds those of listeners.
fn add_of_listeners(
    alloc: Global,
    values: &mut Vec<Value>,
    table: &Table,
    listeners: &[Listener],
) -> Result<(), AllocError>
    ensures { IfOk result (λ _. map view values.new.items
        ≡ map view values.old.items ++ flat_map (λ listener. told.taker_values table.now (listener_taker listener)) listeners.now) }
{
    for listener in listeners {
        add_takes(alloc, values, table, listener.number(), listener.takes())?;
    }
    Ok(())
}

/// The TAKE lines of all terminals, as they stand in the table.
pub(crate) fn takes_value(alloc: Global, table: &Table) -> Result<Value, AllocError>
    ensures { IfOk result (λ value. view value ≡ told.takes_value table.now) }
{
    let mut values = Vec::new(alloc);
    add_of_senders(alloc, &mut values, table, table.senders())?;
    add_of_listeners(alloc, &mut values, table, table.listeners())?;
    Ok(Value::from(values))
}
