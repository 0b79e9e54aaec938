//! The commands of bus629, whatever their words, sources and sinks.
//!
//! [`tool`] is the top call: it does the command that the words ask for, writes a fault line on `err`, and says how the program ends.
//! [`act`] is the command alone, [`Outcome`] what it came to, and [`outcome_text`] the line.
//!
//! The commands are in groups by what they take: a table (`on_table`), a table and messages (`on_messages`), a table and a trace
//! (`on_trace`), a table and a wave (`on_wave`), a table and a cable (`on_cable`), a number (`drill`), a text that may be one of a table
//! (`explain`) and another beside it (`beside`), or nothing (`itself`). `bus_command` has what each of them has in common with the commands
//! of any program over such texts.
//!
//! # How a command flows
//!
//! ```
//! words ── bus_options::line_of ── Line ── Form
//! first file ── bus_outer::read_whole ── bytes ── bus_table::read_table ── Table ── bus_regime::verdict ── TableVerdict
//! second file ── read_whole ── bytes ── bus_hands::read_hands ── a Hand for each sender
//!          or ── bus_trace::read_trace ── Trace
//! check:    TableVerdict ── bus_regime::write_verdict ── standard output
//! explain:  bytes ── bus_table::read_or_stop ── Table ── verdict, tolerance, bus_advice::advices, periodic_table ── bus_explain::write_accepted, write_beyond, write_refused ── standard output
//!          or ── Unread ── write_whole, write_unread ── standard output
//! explain with a second file:  Table, bytes ── bus_diagnosis::diagnose ── Diagnosis ── write_diagnosis ── standard output
//! --help, --version: their text ── standard output
//! tolerance: Table, TableVerdict ── bus_reach::tolerance, bus_regime::starts_itself ── its line ── standard output
//! margins:  Table, TableVerdict, Bounds ── bus_margins::level_of, write_aperiodic, or bus_margins_periodic::level_of, write_periodic ── its lines ── standard output
//!           or ── TableVerdict ── write_verdict ── standard output
//! tidy:     Table ── bus_table::write_table ── standard output
//! report:   Table, TableVerdict ── serde_json::Value ── its text ── standard output
//! facts:    bytes ── bus_facts::facts_of ── its line, and whether a table is accepted ── standard output
//! drill:    N ── bus_vectors::make_hands ── Table, a Hand for each sender ── run_settled ── list ── count_received ── one line ── standard output
//! witness:  Table ── bus_regime::witness ── Payloads ── bus_strings::write_messages ── standard output
//! plan:     Table ── bus_plan::plan ── PlanAnswer ── bus_table::write_table, or its line ── standard output
//!           with a delay, or best:  Table ── bus_cable_plan::plan_for, plan_best ── CablePlan ── write_table, or its line ── standard output
//! observe:  Table, hands ── bus_medium::Bus::settled, observe_by_jumps ── list ── Trace ── bus_trace::write_trace ── standard output
//! cable:    second file ── read_whole ── bytes ── bus_cable::read_cable ── Cable, Payloads ── fits, hands ── observe_on ── list ── Trace ── write_trace, bus_cable::write_heard ── standard output
//! run:      Table, hands ── bus_schedule::run_settled ── list ── Trace ── write_clear_trace, bus_filter::write_clear_received ── standard output
//! drop:     Table, hands ── bus_dropout::run_dropout ── list ── Trace ── write_clear_trace, bus_filter::write_clear_received ── standard output
//! schedule: Table, hands ── bus_schedule::closed ── list ── Trace ── write_trace ── standard output
//! receive:  Table, Trace ── bus_filter::write_received ── standard output
//! audit:    Table, Trace ── bus_audit::audit ── AuditAnswer ── its line ── standard output
//! diagnose: Table, Trace, Bounds ── bus_findings::write_findings ── standard output, and whether there is a fault
//! vote:     Table, Trace ── bus_vote::write_votes ── standard output
//! wave:     Table, Trace ── bus_wave::spaced, write_wave ── standard output
//! unwave:   second file ── read_whole ── bytes ── bus_wave::read_wave ── Trace ── bus_trace::write_trace ── standard output
//! vcd, wires, timers (bus629-view): Table, Trace ── bus_dump::doubled, bus_audit::audit, bus_regime::verdict ── bus_dump::write_dump ── standard output
//! gtkw (bus629-view): Table, Trace ── bus_audit::audit ── bus_dump::write_save_file ── standard output
//! svg, cycles (bus629-view): Table, Trace, what stands behind it ── bus_audit::audit or bus_findings::judgements, bus_load::carrier_stretches, bus_shapes::all_sents for svg, bus_regime::verdict ── bus_picture::write_time_line, bus_cycles::write_cycles ── standard output
//! page (bus629-view): bytes ── bus_table::read_or_stop ── Table ── bus_page::find ── Findings ── bus_page::write_page ── standard output
//!                   or ── Unread ── bus_page::write_unread_page, write_whole_page ── standard output
//!                                     Outcome ── outcome_text ── standard error
//! ```
//!
//! `bus_tool::tool` is `act`, which does the command and gives an `Outcome`, then `outcome_text`, which writes the outcome's line on
//! standard error, then the outcome's status. `act` takes all its memory before it writes its first byte.
#![tactic(auto)]

mod audit;
mod beside;
mod cable_plan;
mod check;
mod command;
mod design;
mod diagnose;
mod drill;
mod dropout;
mod explain;
mod facts;
pub mod forms;
mod holds;
mod in_memory;
mod inputs;
mod itself;
pub mod laws;
mod margins;
mod observe;
mod on_cable;
mod on_messages;
mod on_table;
mod on_trace;
mod on_wave;
mod plan;
mod refusal;
mod report;
mod run;
mod schedule;
mod tolerance;
mod top;
mod wave;
mod witness;
mod words;

pub use bus_command::{Status, outcome_text};
pub use command::act;
pub use in_memory::answer;
pub use refusal::{Outcome, ToolRefusal};
pub use top::tool;
