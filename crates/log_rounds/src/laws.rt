//! Laws of the definitions, as contracts of functions that do nothing.
ghost use Rattle.std.specs.Prelude.{◌≡◌, ◌⊎◌, ◌↔◌, ◌-◌, ◌++◌, ◌∷◌, [], ℕ, List, None, Some, slice_get, true, false};
ghost use Rattle.std.specs.Str.{bytes_eq};
ghost use Rattle.hume_model.specs.declared.core_tree.NodeC.TheVariants.{From};
ghost use Rattle.hume_model.specs.declared.core_tree.StreamC.{StreamC};
ghost use Rattle.hume_model.specs.declared.core_tree.Core.{Core};
ghost use Rattle.hume_ports.specs.Delivery.{bytes_for, names_in};
ghost use Rattle.hume_ports.specs.Ports.{is_among};
ghost use Rattle.port_acts.specs.Acts.{Act, finished, wants, written};
ghost use Rattle.run_log.specs.Logs.{log_of};
ghost use Rattle.run_rounds.specs.Inputs.{Inputs};
ghost use Rattle.run_rounds.specs.Streams.{std_out};
ghost use Rattle.log_rounds.specs.declared.verdict.Verdict.TheVariants as verdict;
ghost use Rattle.log_rounds.specs.Supersteps.{blocked_superstep, supersteps_made};
ghost use Rattle.log_rounds.specs.RecordActs.{record_acts};
ghost use Rattle.log_rounds.specs.Outcomes.{IsOutcome, Outcome, verdict_of};
ghost use Rattle.log_rounds.specs.VerifyActs.{outcome_line, verify_acts, verify_reads};

/// A recorded run writes to its log the log of the supersteps that are made, and all of the run's where none is blocked. It writes
/// only there and to std_out, and finishes nothing.
pub fn records_are_logs()
    ensures log { (core : Core) (inputs : Inputs) (log : List ℕ) (steps : ℕ) → bytes_eq log std_out ≡ false
        → bytes_for log (written (record_acts core inputs log steps)) ≡ log_of core inputs.good (supersteps_made core inputs steps) }
    ensures writes { (core : Core) (inputs : Inputs) (log : List ℕ) (steps : ℕ) (name : List ℕ)
        → is_among name (names_in (written (record_acts core inputs log steps))) ≡ true → is_among name (log ∷ std_out ∷ []) ≡ true }
    ensures finishes { (core : Core) (inputs : Inputs) (log : List ℕ) (steps : ℕ) → finished (record_acts core inputs log steps) ≡ [] }
{}

/// A recorded run reads ports of input streams, and a run by which a log is verified reads the log's port besides.
pub fn logged_runs_read_their_ports()
    ensures record { (core : Core) (inputs : Inputs) (log : List ℕ) (steps : ℕ) (before later : List Act) (name : List ℕ) (count : ℕ)
        → record_acts core inputs log steps ≡ before ++ wants name count ∷ later
        → (n : ℕ) × (stream : StreamC) × (slice_get core.nodes n ≡ Some (From stream)) × (name ≡ stream.port) }
    ensures verify { (core : Core) (inputs : Inputs) (log : List ℕ) (steps : ℕ) (outcome : Outcome) (before later : List Act) (name : List ℕ)
        (count : ℕ)
        → verify_acts core inputs log steps outcome ≡ before ++ wants name count ∷ later
        → (name ≡ log) ⊎ ((n : ℕ) × (stream : StreamC) × (slice_get core.nodes n ≡ Some (From stream)) × (name ≡ stream.port)) }
{}

/// Something comes of each text that a log may have, and one thing.
pub fn each_log_has_one_outcome()
    ensures some { (core : Core) (inputs : Inputs) (steps : ℕ) (text : List ℕ) → (outcome : Outcome) × IsOutcome core inputs steps text outcome }
    ensures one { (core : Core) (inputs : Inputs) (steps : ℕ) (text : List ℕ) (first second : Outcome)
        → IsOutcome core inputs steps text first → IsOutcome core inputs steps text second → first ≡ second }
{}

/// A log that isn't blocked holds exactly where it is the log of the run, and else fails. It is blocked only where a superstep of the
/// run is.
pub fn logs_hold_exactly()
    ensures holds { (core : Core) (inputs : Inputs) (steps : ℕ) (text : List ℕ) (outcome : Outcome) → IsOutcome core inputs steps text outcome
        → (verdict_of outcome ≡ verdict.Holds) ↔ ((blocked_superstep core inputs steps ≡ None) × (text ≡ log_of core inputs.good steps)) }
    ensures fails { (core : Core) (inputs : Inputs) (steps : ℕ) (text : List ℕ) (outcome : Outcome) → IsOutcome core inputs steps text outcome
        → blocked_superstep core inputs steps ≡ None → (text ≡ log_of core inputs.good steps → ⊥) → verdict_of outcome ≡ verdict.Fails }
    ensures blocked { (core : Core) (inputs : Inputs) (steps : ℕ) (text : List ℕ) (outcome : Outcome) → IsOutcome core inputs steps text outcome
        → (verdict_of outcome ≡ verdict.Blocked) ↔ ((superstep : ℕ) × (blocked_superstep core inputs steps ≡ Some superstep)
        × (rest : List ℕ) × (text ≡ log_of core inputs.good (superstep - 1) ++ rest)) }
{}

/// A run by which a log is verified writes one line, after all its reads, and finishes nothing.
pub fn verified_runs_tell_one_line()
    ensures reads { (core : Core) (inputs : Inputs) (log : List ℕ) (steps : ℕ) (outcome : Outcome)
        → written (verify_reads core inputs log steps outcome) ≡ [] }
    ensures writes { (core : Core) (inputs : Inputs) (log : List ℕ) (steps : ℕ) (outcome : Outcome)
        → written (verify_acts core inputs log steps outcome) ≡ (std_out, outcome_line core inputs steps outcome) ∷ [] }
    ensures finishes { (core : Core) (inputs : Inputs) (log : List ℕ) (steps : ℕ) (outcome : Outcome)
        → finished (verify_acts core inputs log steps outcome) ≡ [] }
{}
