//! The commands on a table and messages.
ghost use Rattle.bus_command.specs.Taken.{AreReady};
ghost use Rattle.bus_tool.specs.inside.Acting.{DoesBoth, EndsOnMessages, IsOfMode};
ghost use Rattle.bus_tool.specs.Forms.{OnMessages, messages_mode, IsWithinHorizon};

use crate::dropout::dropout;
use crate::forms::MessagesCommand;
use crate::inputs::take_dealt;
use crate::observe::observe;
use crate::refusal::Outcome;
use crate::run::run;
use crate::schedule::schedule;
use bus_command::Dealt;
use bus_outer::{Sink, Source};
use std::alloc::Global;

/// Answers a command to a table and hands. All the memory of the command is taken before its first written byte.
fn answer<K: Sink>(alloc: Global, command: MessagesCommand, dealt: Dealt, out: &mut K) -> Outcome
    requires mode { IsOfMode (messages_mode command) dealt.table }
    requires ready { AreReady dealt.table dealt.hands.items }
    requires horizon { IsWithinHorizon command }
    ensures { EndsOnMessages ⟦<K as Sink>⟧ command dealt.table dealt.hands.items out.old out.new result }
{
    let Dealt { table, hands } = dealt;
    match command {
        MessagesCommand::Observe { horizon } => observe(alloc, horizon, &table, hands, out),
        MessagesCommand::Run => run(alloc, &table, hands, out),
        MessagesCommand::Drop => dropout(alloc, &table, hands, out),
        MessagesCommand::Schedule => schedule(alloc, &table, hands, out),
    }
}

/// Does a command on the table in the first source, of which it may need one mode, and the messages in the second.
pub fn on_messages<S: Source, K: Sink>(
    alloc: Global,
    command: MessagesCommand,
    first: &mut S,
    second: &mut S,
    out: &mut K,
) -> Outcome
    requires horizon { IsWithinHorizon command }
    ensures { DoesBoth ⟦<S as Source>⟧ ⟦<K as Sink>⟧ (OnMessages command) first.old second.old out.old first.new second.new out.new result }
{
    match take_dealt(alloc, command.mode(), first, second) {
        Ok(dealt) => answer(alloc, command, dealt, out),
        Err(outcome) => outcome,
    }
}
