//! Laws of the definitions, as contracts of functions that do nothing.
ghost use Rattle.std.specs.Prelude.{◌≡◌, ◌↔◌, ◌⊎◌, ◌-◌, ◌++◌, ◌∷◌, [], ℕ, Bool, List, None, Some, IsSomeAnd, false, true, slice_get};
ghost use Rattle.std.specs.Str.{bytes_eq};
ghost use Rattle.hume_base.specs.declared.rule.Refusal.{Refusal};
ghost use Rattle.hume_model.specs.declared.core_tree.BoxC.{BoxC};
ghost use Rattle.hume_model.specs.declared.core_tree.Core.{Core};
ghost use Rattle.hume_model.specs.declared.core_tree.NodeC.TheVariants.{Rules};
ghost use Rattle.hume_net.specs.Lockstep.{lockstep};
ghost use Rattle.hume_net.specs.Start.{start};
ghost use Rattle.box_costs.specs.Costs.{IsAtMost};
ghost use Rattle.box_costs.specs.Bounds.{box_bound};
ghost use Rattle.net_costs.specs.Steps.{step_spent};
ghost use Rattle.hume_ports.specs.Port.{PortView};
ghost use Rattle.hume_ports.specs.Ports.{is_among, names};
ghost use Rattle.hume_ports.specs.Delivery.{Delivered, bytes_for, names_in};
ghost use Rattle.port_acts.specs.Acts.{finished, wanted, written};
ghost use Rattle.port_acts.specs.Early.{after_reads};
ghost use Rattle.port_acts.specs.Ends.{Fails, NoneRose, Owed, bytes_of, never};
ghost use Rattle.hume_front.specs.declared.acceptance.Accepted.{Accepted};
ghost use Rattle.hume_front.specs.Accepted.{IsAccepted};
ghost use Rattle.run_rounds.specs.Inputs.{Inputs, AreInputs};
ghost use Rattle.run_rounds.specs.Streams.{inputs, ports_of, std_out, streams};
ghost use Rattle.run_rounds.specs.Writes.{writes};
ghost use Rattle.run_log.specs.Logs.{log_of};
ghost use Rattle.log_rounds.specs.Supersteps.{blocked_superstep};
ghost use Rattle.log_rounds.specs.RecordActs.{record_acts};
ghost use Rattle.log_rounds.specs.Outcomes.{Outcome};
ghost use Rattle.log_rounds.specs.VerifyActs.{outcome_line};
ghost use Rattle.hume_calls.specs.declared.order.Order.{Order};
ghost use Rattle.hume_calls.specs.declared.order.Order.TheVariants.{Run};
ghost use Rattle.hume_calls.specs.declared.status.Status.{Status};
ghost use Rattle.hume_calls.specs.declared.status.Status.TheVariants.{Done, Usage, BadValue, NoMemory, LogFails};
ghost use Rattle.hume_calls.specs.Streams.{unfit_line};
ghost use Rattle.hume_calls.specs.Owed.{IsOwedLogged, owed_record, owed_verify};
ghost use Rattle.hume_calls.specs.Owed.{IsOwed, owed_refused, owed_check, owed_demo, owed_run, demo_writes, refused_line, run_finishes, table_writes};
ghost use Rattle.hume_calls.specs.Few.{call_few};
ghost use Rattle.hume_calls.specs.Reading.{read_first, source_reads};
ghost use Rattle.hume_calls.specs.Headline.{Headline, LacksPort, OwesAlone};
ghost use Rattle.hume_calls.specs.Words.{Named, named_by, order_of};
ghost use Rattle.hume_calls.specs.Calls.{GivesOwed, HaveRoom, HaveSameTexts, IsThrough};
ghost use Rattle.hume_calls.specs.Faults.{FailedInput, HasFault, HasFaultAlone, ReadRose};

use log_rounds::{
    each_log_has_one_outcome, logged_runs_read_their_ports, logs_hold_exactly, records_are_logs,
    verified_runs_tell_one_line,
};
use run_rounds::{
    each_run_has_inputs, inputs_are_unique, inputs_have_types, runs_write_their_lines,
    wants_stand_before_rounds,
};

/// Whatever comes to the run of an accepted source, each execute step of a box takes at most the heap, the stack and the work
/// that the table of bounds has for it.
pub fn runs_keep_bounds()
    ensures { (text : List ℕ) (accepted : Accepted) → IsAccepted text accepted
        → (texts : List ℕ → List ℕ) (coming : Inputs) → AreInputs accepted.core texts coming
        → (k n : ℕ) (b : BoxC) → slice_get accepted.core.nodes n ≡ Some (Rules b)
        → IsAtMost (step_spent accepted.core (lockstep accepted.core (start accepted.core coming.good) k) n) (box_bound accepted.core b) }
{
    inputs_have_types();
}

/// What a call owes is one thing, whatever the words ask for, the source's text, the names of the ports and their texts.
pub fn each_call_owes_one_thing()
    ensures some { (order : Order) (named : Named) (text : List ℕ) (names : List (List ℕ)) (texts : List ℕ → List ℕ)
        → (owed : Owed Status) × IsOwed order named text names texts owed }
    ensures one { (order : Order) (named : Named) (text : List ℕ) (names : List (List ℕ)) (texts : List ℕ → List ℕ) (first second : Owed Status)
        → IsOwed order named text names texts first → IsOwed order named text names texts second → first ≡ second }
{
    each_run_has_inputs();
    inputs_are_unique();
    each_log_has_one_outcome();
}

/// A call over ports that have room for what it owes gives the owed answer and writes all of it, unless memory runs out.
pub fn calls_with_room_are_answered()
    ensures { (words : List (List ℕ)) (order : Order) (old new : List PortView) (status : Status) → order_of words ≡ Some order → (status ≡ Usage → ⊥)
        → Headline words old new status → HaveRoom order (named_by words order) old
        → (status ≡ NoMemory) ⊎ GivesOwed order (named_by words order) old new status }
{
    each_run_has_inputs();
    each_log_has_one_outcome();
}

/// Two calls of the same words, over ports of the same names and with the same texts, that come to their ends give the same answer,
/// and the same bytes to each port that had told the same: however their reads cut the texts.
pub fn equal_calls_end_alike()
    ensures { (words : List (List ℕ)) (order : Order) (old new others later : List PortView) (status other : Status) → order_of words ≡ Some order
        → (IsSomeAnd (named_by words order) (LacksPort (names old)) → ⊥) → HaveSameTexts old others
        → Headline words old new status → Headline words others later other → IsThrough status → IsThrough other
        → (status ≡ other) × ((name had : List ℕ) → bytes_of name old ≡ Some had → bytes_of name others ≡ Some had → bytes_of name new ≡ bytes_of name later) }
{
    inputs_are_unique();
    each_log_has_one_outcome();
}

/// A refused call writes its one line, a check the table, a run the table and then what its inputs give, a recorded run its log or as
/// much of it as its inputs allow, a verified log one line, and a demo the bounds of all boxes together and its chains.
pub fn calls_write_their_lines()
    ensures refused { (refusal : Refusal) → written (owed_refused refusal).acts ≡ (std_out, refused_line refusal) ∷ [] }
    ensures check { (core : Core) → written (owed_check core).acts ≡ table_writes core }
    ensures demo { (core : Core) (steps : ℕ) → written (owed_demo steps core).acts ≡ demo_writes steps core }
    ensures run { (core : Core) (coming : Inputs) (traced : Bool) (steps : ℕ)
        → written (owed_run traced steps core coming).acts ≡ table_writes core ++ writes core coming traced steps }
    ensures record { (core : Core) (coming : Inputs) (steps : ℕ) (log : List ℕ)
        → written (owed_record steps core coming log).acts ≡ written (record_acts core coming log steps) }
    ensures verify { (core : Core) (coming : Inputs) (steps : ℕ) (log : List ℕ) (outcome : Outcome)
        → written (owed_verify steps core coming log outcome).acts ≡ (std_out, outcome_line core coming steps outcome) ∷ [] }
{
    runs_write_their_lines();
    records_are_logs();
    verified_runs_tell_one_line();
}

/// A recorded run that no bad line blocks writes the log of the run to the log's port, and is Done. A log whose run isn't
/// blocked is answered with Done exactly where its bytes are the log of the run, and else with LogFails. A bad line is told exactly where
/// the log is right up to the superstep that it blocks.
pub fn logs_are_those_of_their_runs()
    ensures recorded { (core : Core) (coming : Inputs) (steps : ℕ) (log : List ℕ) → bytes_eq log std_out ≡ false
        → blocked_superstep core coming steps ≡ None
        → (bytes_for log (written (owed_record steps core coming log).acts) ≡ log_of core coming.good steps)
        × ((owed_record steps core coming log).answer ≡ Done) }
    ensures holds { (core : Core) (coming : Inputs) (steps : ℕ) (log text : List ℕ) (owed : Owed Status)
        → IsOwedLogged true steps core coming log text owed → blocked_superstep core coming steps ≡ None
        → (owed.answer ≡ Done) ↔ (text ≡ log_of core coming.good steps) }
    ensures fails { (core : Core) (coming : Inputs) (steps : ℕ) (log text : List ℕ) (owed : Owed Status)
        → IsOwedLogged true steps core coming log text owed → blocked_superstep core coming steps ≡ None
        → (owed.answer ≡ LogFails) ↔ (text ≡ log_of core coming.good steps → ⊥) }
    ensures blocked { (core : Core) (coming : Inputs) (steps : ℕ) (log text : List ℕ) (owed : Owed Status)
        → IsOwedLogged true steps core coming log text owed
        → (owed.answer ≡ BadValue) ↔ ((superstep : ℕ) × (blocked_superstep core coming steps ≡ Some superstep)
        × (rest : List ℕ) × (text ≡ log_of core coming.good (superstep - 1) ++ rest)) }
{
    records_are_logs();
    logs_hold_exactly();
}

/// A run reads ports of input streams, writes to `std_out` and to ports of output streams, and finishes each of those.
pub fn runs_touch_their_ports()
    ensures reads { (core : Core) (coming : Inputs) (traced : Bool) (steps : ℕ) (name : List ℕ)
        → is_among name (wanted (owed_run traced steps core coming).acts) ≡ true → is_among name (ports_of (inputs core)) ≡ true }
    ensures writes { (core : Core) (coming : Inputs) (traced : Bool) (steps : ℕ) (name : List ℕ)
        → is_among name (names_in (written (owed_run traced steps core coming).acts)) ≡ true → is_among name (run_finishes core) ≡ true }
    ensures finishes { (core : Core) (coming : Inputs) (traced : Bool) (steps : ℕ) → finished (owed_run traced steps core coming).acts ≡ run_finishes core }
{
    runs_write_their_lines();
    wants_stand_before_rounds();
}

/// A recorded run reads ports of input streams, and writes to the log's port and `std_out`, both of which it finishes. A log is verified by
/// reads of its port and of ports of input streams, and nothing but `std_out` is written to or finished.
pub fn logged_runs_touch_their_ports()
    ensures record_reads { (core : Core) (coming : Inputs) (steps : ℕ) (log name : List ℕ)
        → is_among name (wanted (owed_record steps core coming log).acts) ≡ true → is_among name (ports_of (inputs core)) ≡ true }
    ensures record_writes { (core : Core) (coming : Inputs) (steps : ℕ) (log name : List ℕ)
        → is_among name (names_in (written (owed_record steps core coming log).acts)) ≡ true → is_among name (log ∷ std_out ∷ []) ≡ true }
    ensures record_finishes { (core : Core) (coming : Inputs) (steps : ℕ) (log : List ℕ)
        → finished (owed_record steps core coming log).acts ≡ log ∷ std_out ∷ [] }
    ensures verify_reads { (core : Core) (coming : Inputs) (steps : ℕ) (log name : List ℕ) (outcome : Outcome)
        → is_among name (wanted (owed_verify steps core coming log outcome).acts) ≡ true → is_among name (log ∷ ports_of (inputs core)) ≡ true }
    ensures verify_finishes { (core : Core) (coming : Inputs) (steps : ℕ) (log : List ℕ) (outcome : Outcome)
        → finished (owed_verify steps core coming log outcome).acts ≡ std_out ∷ [] }
{
    records_are_logs();
    verified_runs_tell_one_line();
    logged_runs_read_their_ports();
}

/// A fault comes only where a count of one of the call's ports rose. That of a call without a source comes where a write count or a
/// finish count rose.
pub fn faults_come_from_their_ports()
    ensures sourced { (order : Order) (named : Named) (text : List ℕ) (texts : List ℕ → List ℕ) (owed : Owed Status) (old new : List PortView)
        → Fails (call_few order named text texts) [] (after_reads (source_reads named.source) owed).acts old new → HasFault named.source owed old new }
    ensures alone { (owed : Owed Status) (old new : List PortView) → Fails never [] owed.acts old new → HasFaultAlone owed old new }
{}

/// A fault where only finish counts rose came when all was written. One where only read counts of the source's port, of others that
/// are read whole and of a log that is compared rose came when nothing was written.
pub fn faults_tell_what_was_written()
    ensures finishes { (order : Order) (named : Named) (text : List ℕ) (names : List (List ℕ)) (texts : List ℕ → List ℕ) (owed : Owed Status)
        (old new : List PortView)
        → IsOwed order named text names texts owed
        → Fails (call_few order named text texts) [] (after_reads (source_reads named.source) owed).acts old new
        → NoneRose (λ port. port.read_faults) old new → NoneRose (λ port. port.write_faults) old new → Delivered old new (written owed.acts) }
    ensures source { (order : Order) (named : Named) (text : List ℕ) (names : List (List ℕ)) (texts : List ℕ → List ℕ) (owed : Owed Status)
        (old new : List PortView)
        → IsOwed order named text names texts owed
        → Fails (call_few order named text texts) [] (after_reads (source_reads named.source) owed).acts old new
        → NoneRose (λ port. port.write_faults) old new → NoneRose (λ port. port.finish_faults) old new
        → ((name : List ℕ) → is_among name (read_first order named) ≡ false → ReadRose name old new → ⊥)
        → Delivered old new [] }
    ensures alone { (order : Order) (owed : Owed Status) (old new : List PortView) → OwesAlone order old owed → Fails never [] owed.acts old new
        → NoneRose (λ port. port.read_faults) old new → NoneRose (λ port. port.write_faults) old new → Delivered old new (written owed.acts) }
{
    runs_write_their_lines();
    wants_stand_before_rounds();
    records_are_logs();
    verified_runs_tell_one_line();
    logged_runs_read_their_ports();
}

/// A fault of a run where only read counts rose, and not that of the source's port, came before a round, when exactly the rounds
/// before it were written, and some input stream had brought too few values for the round.
pub fn failed_inputs_tell_their_round()
    ensures { (workers place : ℕ) (named : Named) (text : List ℕ) (accepted : Accepted) (names : List (List ℕ)) (texts : List ℕ → List ℕ) (traced : Bool)
        (steps : ℕ) (coming : Inputs) (old new : List PortView)
        → IsAccepted text accepted → unfit_line names named.source [] (streams accepted.core) ≡ None
        → Fails (call_few (Run steps workers place traced) named text texts) []
        (after_reads (source_reads named.source) (owed_run traced steps accepted.core coming)).acts old new
        → NoneRose (λ port. port.write_faults) old new → NoneRose (λ port. port.finish_faults) old new → (ReadRose named.source old new → ⊥)
        → FailedInput accepted.core coming traced steps old new }
{
    wants_stand_before_rounds();
}
