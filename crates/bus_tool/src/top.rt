//! The top call: the command of some words, over two sources and two sinks.
ghost use Rattle.bus_command.specs.Outside.{call};
ghost use Rattle.bus_tool.specs.Acts.{ComesOf};
ghost use Rattle.bus_tool.specs.Keeping.{Keeps, Spells};

use crate::command::act;
use bus_advice::laws::{advices_work, none_missing};
use bus_audit::laws::{no_breach_is_right, one_answer};
use bus_cable::laws::{borne_is_orderly, texts_read_as_their_cables};
use bus_cable_plan::laws::answers_are_right;
use bus_command::{Status, outcome_text};
use bus_diagnosis::laws::{
    borne_cables_are_orderly, named_item_is_first, right_messages_run, whole_traces_are_traces,
};
use bus_exact::laws::any_start_settles_on_cable;
use bus_explain::laws::{gaps_are_told, load_is_of_longest_cycle, spare_is_fall, spare_is_rise};
use bus_feeds::laws::{each_feed_gives, each_line_is_fed, unfed_is_silent};
use bus_findings::laws::{
    amounts_are_meant, faults_are_just, files_are_unblamed, good_buses_have_no_fault,
};
use bus_made::laws::{answers_are_meant, free_is_freest};
use bus_margins::laws::{any_settles, level_keeps_order};
use bus_margins_periodic::laws::{leads_follow_one, turns_keep_turns};
use bus_medium::laws::{one_cable_list, one_lawful_list};
use bus_outer::{Sink, Source};
use bus_plan::laws::{planned_is_accepted, short_is_refused};
use bus_reach::laws::{
    accepted_bear_zero, any_start_settles, borne_is_closed, data_are_in_time, limits_tell_bearing,
    periodic_bearing_is_exact, periodic_borne_is_closed, some_never_part, tolerance_is_exact,
};
use bus_recording::laws::amounts_are_true;
use bus_recording_lawful::laws::lawful_has_no_fault;
use bus_schedule::laws::{
    accepted_is_closed, closed_is_orderly, even_hands_agree, gaps_are_left, verdicts_are_exact,
    witnesses_have_schedules,
};
use bus_strings::laws::texts_read_as_their_items;
use bus_table::laws::{
    canonical_text_reads_as_its_table, fitting_items_give_hands, text_reads_as_its_table,
    what_may_stand_goes_on,
};
use bus_trace::laws::traces_read_back;
use bus_vote::laws::{runs_are_voted, two_fix_the_vote};
use bus_wave::laws::{runs_are_spaced, waves_tell_traces};
use std::alloc::Global;

/// The top call: does the command that the words ask for, writes a line on `err` where there is no answer, and says how the program
/// ends. A failure on `err` changes no status, and a beginning of that status's line stands there. Want of memory is free here as
/// everywhere, so that by contract status 7 too may stand behind half a line: as much of its own as was written when `err` failed.
pub fn tool<S: Source, K: Sink, E: Sink>(
    alloc: Global,
    words: &[String],
    first: &mut S,
    second: &mut S,
    out: &mut K,
    err: &mut E,
) -> Status
    // Of texts that are right, where nothing outside fails: what each command promises.
    ensures keeps { Keeps (call S.Source K.Sink words.now first.old second.old out.old first.new second.new out.new) result }

    // And what the texts of its replies tell.
    ensures spells { Spells (call S.Source K.Sink words.now first.old second.old out.old first.new second.new out.new) }

    // Of any words and bytes: the outcome that is due or a fault in its place, what was taken and written, what `err` holds, and the
    // status.
    ensures acts { ComesOf S.Source K.Sink E.Sink words.now first.old second.old out.old err.old
        first.new second.new out.new err.new result }
{
    text_reads_as_its_table();
    texts_read_as_their_items();
    canonical_text_reads_as_its_table();
    planned_is_accepted();
    short_is_refused();
    answers_are_right();
    fitting_items_give_hands();
    one_lawful_list();
    traces_read_back();
    no_breach_is_right();
    one_answer();
    even_hands_agree();
    closed_is_orderly();
    verdicts_are_exact();
    witnesses_have_schedules();
    runs_are_voted();
    two_fix_the_vote();
    runs_are_spaced();
    waves_tell_traces();
    borne_is_closed();
    periodic_borne_is_closed();
    tolerance_is_exact();
    periodic_bearing_is_exact();
    accepted_bear_zero();
    any_start_settles();
    any_start_settles_on_cable();
    limits_tell_bearing();
    data_are_in_time();
    some_never_part();
    any_settles();
    answers_are_meant();
    free_is_freest();
    level_keeps_order();
    turns_keep_turns();
    leads_follow_one();
    faults_are_just();
    files_are_unblamed();
    good_buses_have_no_fault();
    lawful_has_no_fault();
    amounts_are_true();
    amounts_are_meant();
    advices_work();
    none_missing();
    spare_is_rise();
    spare_is_fall();
    load_is_of_longest_cycle();
    gaps_are_told();
    gaps_are_left();
    accepted_is_closed();
    what_may_stand_goes_on();
    unfed_is_silent();
    each_line_is_fed();
    each_feed_gives();
    texts_read_as_their_cables();
    one_cable_list();
    borne_is_orderly();
    right_messages_run();
    named_item_is_first();
    borne_cables_are_orderly();
    whole_traces_are_traces();
    let outcome = act(alloc, words, first, second, out);
    let _ = outcome_text(&outcome, err);
    outcome.status()
}
