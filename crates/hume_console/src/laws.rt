//! Laws of the definitions, as contracts of functions that do nothing.
ghost use Rattle.std.specs.Prelude.{◌≡◌, ◌+◌, ◌∷◌, [], ℕ, List, None, Some, length, slice_get, true};
ghost use Rattle.hume_model.specs.declared.core_tree.Core.{Core};
ghost use Rattle.hume_ports.specs.Port.{PortView};
ghost use Rattle.hume_ports.specs.Ports.{place_of};
ghost use Rattle.run_rounds.specs.Streams.{std_out, streams};
ghost use Rattle.hume_calls.specs.Streams.{unfit_line};
ghost use Rattle.hume_console.specs.declared.ending.Ending.{Ending};
ghost use Rattle.hume_console.specs.declared.ending.Ending.TheVariants.{Fault};
ghost use Rattle.hume_console.specs.Hands.{Hands};
ghost use Rattle.hume_console.specs.Courses.{Course};
ghost use Rattle.hume_console.specs.EachPort.{IsServed, finishes_last};
ghost use Rattle.hume_console.specs.Headline.{AnswersFrom, IsOwed, session_course};
ghost use Rattle.hume_console.specs.Outputs.{IsLastOutput, WritesToOutputs};
ghost use Rattle.hume_console.specs.Session.{Offer, Supplies, names_of};
ghost use Rattle.hume_console.specs.Words.{std_in};

use run_rounds::each_run_has_inputs;

/// After a call that has answered, each port, whether it is there or has left, has exactly the bytes of the stretches in which it was
/// the first one there of its name, and it is flushed if it was finished last. No port is lost.
pub fn each_port_is_served()
    ensures served { (source : List ℕ) (old new : Hands) (ending : Ending) (answers : AnswersFrom source old new ending) → (ending ≡ Fault → ⊥)
        → (at : ℕ) (port : PortView) → slice_get old.ports at ≡ Some port → IsServed answers.course at port old new }
    ensures none_lost { (source : List ℕ) (old new : Hands) (ending : Ending) → AnswersFrom source old new ending → (ending ≡ Fault → ⊥)
        → length new.ports + length new.gone ≡ length old.ports + length old.gone }
{}

/// A session writes to `std_out`, and to another port only while an output stream has it.
pub fn sessions_write_to_their_outputs()
    ensures { (core : Core) (supplies : Supplies) (source : List ℕ) (offers : List Offer)
        → WritesToOutputs core (session_course core supplies source offers) }
{}

/// A session finishes `std_out` and each port that an output stream has in the end or had, last of all that it does to it.
pub fn sessions_finish_their_outputs()
    ensures { (core : Core) (supplies : Supplies) (source : List ℕ) (offers : List Offer)
        → unfit_line (names_of offers) source (std_in ∷ []) (streams core) ≡ None → (out : ℕ) → place_of std_out (names_of offers) ≡ Some out
        → (at : ℕ) → IsLastOutput core at (names_of offers) (session_course core supplies source offers)
        → finishes_last at (names_of offers) (session_course core supplies source offers) ≡ true }
{}

/// What a session owes is one course, whatever the source's text, the names of the ports and what each has to read.
pub fn each_session_owes_one_course()
    ensures some { (text source : List ℕ) (names : List (List ℕ)) (offers : List Offer) → (course : Course) × IsOwed text source names offers course }
    ensures one { (text source : List ℕ) (names : List (List ℕ)) (offers : List Offer) (first second : Course)
        → IsOwed text source names offers first → IsOwed text source names offers second → first ≡ second }
{
    each_run_has_inputs();
}
