//! Laws of the definitions, as contracts of functions that do nothing.
ghost use Rattle.std.specs.Prelude.{◌≡◌, ℕ, ◌++◌, ◌∷◌, [], Bool, List};
ghost use Rattle.hume_model.specs.declared.core_tree.Core.{Core};
ghost use Rattle.hume_net.specs.StateTyping.{ComingAreTyped};
ghost use Rattle.phase_workers.specs.Runnable.{IsRunnable};
ghost use Rattle.port_acts.specs.Acts.{Act, wants, written, finished};
ghost use Rattle.run_rounds.specs.Inputs.{AreInputs, Inputs};
ghost use Rattle.run_rounds.specs.RunActs.{run_acts, ReadsForRound};
ghost use Rattle.run_rounds.specs.Writes.{writes};

/// Whatever texts the ports have to read, something comes of them.
pub fn each_run_has_inputs()
    ensures { (core : Core) → IsRunnable core → (texts : List ℕ → List ℕ) → (inputs : Inputs) × AreInputs core texts inputs }
{}

/// What comes from texts is of the types of the streams.
pub fn inputs_have_types()
    ensures { (core : Core) → IsRunnable core → (texts : List ℕ → List ℕ) (inputs : Inputs) → AreInputs core texts inputs
        → ComingAreTyped core inputs.good }
{}

/// From the texts of its streams one thing comes to a run.
pub fn inputs_are_unique()
    ensures { (core : Core) → IsRunnable core → (texts : List ℕ → List ℕ) (first second : Inputs)
        → AreInputs core texts first → AreInputs core texts second → first ≡ second }
{}

/// The acts of a run write its lines, in order, and finish nothing.
pub fn runs_write_their_lines()
    ensures writes { (core : Core) (inputs : Inputs) (traced : Bool) (steps : ℕ)
        → written (run_acts core inputs traced steps) ≡ writes core inputs traced steps }
    ensures finishes { (core : Core) (inputs : Inputs) (traced : Bool) (steps : ℕ) → finished (run_acts core inputs traced steps) ≡ [] }
{}

/// Each want of a run is for one input stream and one round, before which exactly the earlier rounds have written.
pub fn wants_stand_before_rounds()
    ensures { (core : Core) (inputs : Inputs) (traced : Bool) (steps : ℕ) (before later : List Act) (name : List ℕ) (count : ℕ)
        → run_acts core inputs traced steps ≡ before ++ wants name count ∷ later
        → ReadsForRound core inputs.good traced steps before name count }
{}
