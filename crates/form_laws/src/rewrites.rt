//! What a script leaves as it is in a run, as contracts of functions that do nothing.
ghost use Rattle.std.specs.Prelude.{◌≡◌, ◌↔◌, ℕ, Bool, false, List, None, Ok, Some};
ghost use Rattle.hume_base.specs.declared.types.Value.{Value};
ghost use Rattle.hume_model.specs.declared.core_tree.Core.{Core};
ghost use Rattle.hume_model.specs.WellFormed.{IsWellFormed};
ghost use Rattle.hume_net.specs.Start.{start};
ghost use Rattle.hume_ports.specs.Port.{PortView};
ghost use Rattle.hume_ports.specs.Ports.{names, place_of};
ghost use Rattle.port_acts.specs.Acts.{finished, wanted};
ghost use Rattle.port_acts.specs.Ends.{Owed};
ghost use Rattle.box_calculus.specs.Scripts.{scripted};
ghost use Rattle.run_rounds.specs.Inputs.{AreInputs, Inputs};
ghost use Rattle.run_rounds.specs.RunActs.{made_acts};
ghost use Rattle.run_rounds.specs.Streams.{inputs, outputs, streams};
ghost use Rattle.run_rounds.specs.Writes.{bad_value_writes, blocked_by, blocked_round, rounds_writes, span_of, writes};
ghost use Rattle.hume_calls.specs.declared.status.Status.{Status};
ghost use Rattle.hume_calls.specs.declared.status.Status.TheVariants.{Refused};
ghost use Rattle.hume_calls.specs.Calls.{HaveSameTexts};
ghost use Rattle.hume_calls.specs.Headline.{Headline};
ghost use Rattle.hume_calls.specs.Owed.{IsOwedCalc, IsOwedRun, owed_run};
ghost use Rattle.form_laws.specs.Alike.{AsksForCalc, AsksForRun, EndAlike, HasRun, OweAlike};

/// The net of the core that a script makes starts as that of the first core: each box keeps its number of rules, a fair one too.
pub fn scripts_keep_starts()
    ensures { (core new : Core) (script : List ℕ) → scripted core script ≡ Ok new
        → (coming : List (List Value)) → start new coming ≡ start core coming }
{}

/// The streams stay, each with its name and its port.
pub fn scripts_keep_streams()
    ensures all { (core new : Core) (script : List ℕ) → scripted core script ≡ Ok new → streams new ≡ streams core }
    ensures inputs { (core new : Core) (script : List ℕ) → scripted core script ≡ Ok new → inputs new ≡ inputs core }
    ensures outputs { (core new : Core) (script : List ℕ) → scripted core script ≡ Ok new → outputs new ≡ outputs core }
{}

/// From the texts of the ports the same values come to both cores, and the same bad lines.
pub fn scripts_keep_inputs()
    ensures { (core new : Core) (script : List ℕ) → scripted core script ≡ Ok new
        → (texts : List ℕ → List ℕ) (coming : Inputs) → AreInputs new texts coming ↔ AreInputs core texts coming }
{}

/// Both runs make the same rounds: a round reads and writes the same, what a trace tells of it too, the same round is blocked by the
/// same stream, and its bad line is told alike.
pub fn scripts_keep_rounds()
    ensures acts { (core new : Core) (script : List ℕ) → IsWellFormed core → scripted core script ≡ Ok new
        → (coming : Inputs) (traced : Bool) (steps : ℕ) → made_acts new coming traced steps ≡ made_acts core coming traced steps }
    ensures writes { (core new : Core) (script : List ℕ) → IsWellFormed core → scripted core script ≡ Ok new
        → (good : List (List Value)) (traced : Bool) (steps rounds : ℕ)
        → rounds_writes new good traced steps rounds ≡ rounds_writes core good traced steps rounds }
    ensures round { (core new : Core) (script : List ℕ) → IsWellFormed core → scripted core script ≡ Ok new
        → (coming : Inputs) (span steps : ℕ) → blocked_round new coming span steps ≡ blocked_round core coming span steps }
    ensures stream { (core new : Core) (script : List ℕ) → IsWellFormed core → scripted core script ≡ Ok new
        → (coming : Inputs) (traced : Bool) (steps round : ℕ) → blocked_by new coming traced steps round ≡ blocked_by core coming traced steps round }
    ensures line { (core new : Core) (script : List ℕ) → IsWellFormed core → scripted core script ≡ Ok new
        → (coming : Inputs) (traced : Bool) (steps round : ℕ)
        → bad_value_writes new coming (blocked_by new coming traced steps round) ≡ bad_value_writes core coming (blocked_by core coming traced steps round) }
    ensures blocked { (core new : Core) (script : List ℕ) → IsWellFormed core → scripted core script ≡ Ok new
        → (coming : Inputs) (traced : Bool) (steps round : ℕ) → blocked_round core coming (span_of traced) steps ≡ Some round
        → writes new coming traced steps ≡ writes core coming traced steps }
{}

/// The run of the core that a script makes owes the answer that the run of the first core owes, and to each port but `std_out` the same
/// bytes, whatever comes to both. It reads and finishes the same ports.
pub fn scripts_keep_bytes()
    ensures alike { (core new : Core) (script : List ℕ) → IsWellFormed core → scripted core script ≡ Ok new
        → (traced : Bool) (steps : ℕ) (coming : Inputs) → OweAlike (owed_run traced steps new coming) (owed_run traced steps core coming) }
    ensures finishes { (core new : Core) (script : List ℕ) → IsWellFormed core → scripted core script ≡ Ok new
        → (traced : Bool) (steps : ℕ) (coming : Inputs)
        → finished (owed_run traced steps new coming).acts ≡ finished (owed_run traced steps core coming).acts }
    ensures reads { (core new : Core) (script : List ℕ) → IsWellFormed core → scripted core script ≡ Ok new
        → (traced : Bool) (steps : ℕ) (coming : Inputs) → wanted (owed_run traced steps new coming).acts ≡ wanted (owed_run traced steps core coming).acts }
{}

/// Where neither is refused, a call of `calc` owes the answer that `run` of the same source over the same texts owes, and to each port
/// but `std_out` the same bytes.
pub fn calc_owes_the_bytes_of_run()
    ensures { (steps : ℕ) (source script text : List ℕ) (names : List (List ℕ)) (texts : List ℕ → List ℕ) (calc run : Owed Status)
        → IsOwedCalc steps source script text names texts calc → IsOwedRun false steps source text names texts run
        → (calc.answer ≡ Refused → ⊥) → (run.answer ≡ Refused → ⊥) → OweAlike calc run }
{}

/// A call of `calc` and one of `run`, of as many steps and of the same source, over ports of the same names and with the same texts: where
/// both have run, they give the same answer, and the same bytes to each port but `std_out` that had told the same.
pub fn calc_ends_as_run()
    ensures { (steps : ℕ) (source : List ℕ) (words plain : List (List ℕ)) (old new others later : List PortView) (first second : Status)
        → AsksForCalc words steps source → AsksForRun plain steps source → (place_of source (names old) ≡ None → ⊥) → HaveSameTexts old others
        → Headline words old new first → Headline plain others later second → HasRun first → HasRun second
        → EndAlike old new others later first second }
{}
