//! What a failed read tells, in the forms beside `run`.
ghost use Rattle.std.specs.Prelude.{◌≡◌, ◌-◌, ◌++◌, ◌∷◌, [], ℕ, List, Ok, false, true};
ghost use Rattle.hume_model.specs.declared.core_tree.Core.{Core};
ghost use Rattle.hume_net.specs.Start.{start};
ghost use Rattle.hume_ports.specs.Delivery.{Delivered};
ghost use Rattle.hume_ports.specs.Port.{PortView};
ghost use Rattle.hume_front.specs.declared.acceptance.Accepted.{Accepted};
ghost use Rattle.hume_front.specs.declared.acceptance.Sound.{Sound};
ghost use Rattle.hume_front.specs.Accepted.{IsAccepted, IsSound};
ghost use Rattle.port_acts.specs.Early.{after_reads};
ghost use Rattle.port_acts.specs.Ends.{Fails, NoneRose};
ghost use Rattle.box_calculus.specs.Scripts.{scripted};
ghost use Rattle.run_log.specs.Logs.{log_lines};
ghost use Rattle.run_rounds.specs.Inputs.{Inputs};
ghost use Rattle.run_rounds.specs.Writes.{rounds_writes, told};
ghost use Rattle.log_rounds.specs.Outcomes.{Outcome};
ghost use Rattle.log_rounds.specs.RecordActs.{logged};
ghost use Rattle.hume_calls.specs.declared.order.Order.TheVariants.{Calc, Log, Union};
ghost use Rattle.hume_calls.specs.Faults.{FailedInput};
ghost use Rattle.hume_calls.specs.Few.{call_few};
ghost use Rattle.hume_calls.specs.Owed.{owed_record, owed_run, owed_union, owed_verify};
ghost use Rattle.hume_calls.specs.Reading.{reads_whole, script_reads, script_text, source_reads};
ghost use Rattle.hume_calls.specs.Unions.{AreAccepted, union_core, union_table, union_texts};
ghost use Rattle.hume_calls.specs.Words.{Named, further_of};
ghost use Rattle.call_laws.specs.FailedReads.{FailedStream, OnlyInputsFailed};

use log_rounds::verified_runs_tell_one_line;
use run_rounds::wants_stand_before_rounds;

/// A fault of a recorded run where only read counts of input streams rose came before a superstep, when exactly the log of the supersteps
/// before it was written, and some input stream had brought too few values for it. One of a run by which a log is verified where only
/// read counts rose came when nothing was written.
pub fn failed_reads_of_logged_runs_tell_their_superstep()
    ensures record { (steps place log : ℕ) (named : Named) (text : List ℕ) (texts : List ℕ → List ℕ) (accepted : Accepted) (coming : Inputs)
        (old new : List PortView)
        → IsAccepted text accepted
        → Fails (call_few (Log steps place log false) named text texts) []
        (after_reads (source_reads named.source) (owed_record steps accepted.core coming (further_of named))).acts old new
        → OnlyInputsFailed (Log steps place log false) named old new
        → FailedStream accepted.core coming true steps
        (λ superstep. logged (further_of named) (log_lines accepted.core (start accepted.core coming.good) (superstep - 1))) old new }
    ensures verify { (steps place log : ℕ) (named : Named) (text : List ℕ) (texts : List ℕ → List ℕ) (core : Core) (coming : Inputs)
        (outcome : Outcome) (old new : List PortView)
        → Fails (call_few (Log steps place log true) named text texts) []
        (after_reads (source_reads named.source) (owed_verify steps core coming (further_of named) outcome)).acts old new
        → NoneRose (λ port. port.write_faults) old new → NoneRose (λ port. port.finish_faults) old new → Delivered old new [] }
{
    verified_runs_tell_one_line();
}

/// A fault of `calc` or of a union where only read counts of input streams rose came before a round, when exactly the table and the
/// rounds before it were written, and some input stream had brought too few values for the round.
pub fn failed_reads_of_calc_and_unions_tell_their_round()
    ensures calc { (steps workers place script : ℕ) (named : Named) (text : List ℕ) (texts : List ℕ → List ℕ) (sound : Sound) (core : Core)
        (coming : Inputs) (old new : List PortView)
        → IsSound text sound → scripted sound.core (script_text (texts (further_of named))) ≡ Ok core
        → Fails (call_few (Calc steps workers place script) named text texts) []
        (after_reads (source_reads named.source) (after_reads (script_reads (further_of named)) (owed_run false steps core coming))).acts old new
        → OnlyInputsFailed (Calc steps workers place script) named old new → FailedInput core coming false steps old new }
    ensures union { (steps workers count place : ℕ) (named : Named) (text : List ℕ) (texts : List ℕ → List ℕ) (programs : List Accepted)
        (coming : Inputs) (old new : List PortView)
        → AreAccepted (union_texts text named texts) programs
        → Fails (call_few (Union steps workers count place) named text texts) [] (after_reads (source_reads named.source)
        (after_reads (reads_whole named.others) (owed_union steps (named.source ∷ named.others) programs coming))).acts old new
        → OnlyInputsFailed (Union steps workers count place) named old new
        → FailedStream (union_core programs) coming false steps
        (λ round. told (union_table (named.source ∷ named.others) programs)
        ++ rounds_writes (union_core programs) coming.good false steps (round - 1)) old new }
{
    wants_stand_before_rounds();
}
