//! What all runs take, against the bounds of their boxes.
ghost use Rattle.std.specs.Prelude.{◌≡◌, ◌∷◌, ℕ, List, Ok};
ghost use Rattle.hume_model.specs.declared.core_tree.Core.{Core};
ghost use Rattle.hume_net.specs.Start.{no_values};
ghost use Rattle.demo_net.specs.Source.{demo_text};
ghost use Rattle.hume_front.specs.declared.acceptance.Accepted.{Accepted};
ghost use Rattle.hume_front.specs.declared.acceptance.Sound.{Sound};
ghost use Rattle.hume_front.specs.Accepted.{IsAccepted, IsSound};
ghost use Rattle.box_calculus.specs.Scripts.{scripted};
ghost use Rattle.union_front.specs.Unions.{StaysWithin, first_of, others_of};
ghost use Rattle.run_rounds.specs.Inputs.{AreInputs, Inputs};
ghost use Rattle.hume_calls.specs.Unions.{AreAccepted, union_core};
ghost use Rattle.call_laws.specs.Bounds.{StaysInBounds};

/// Whatever comes to it, no run takes in an execute step of a box more heap, stack or work than the bound of the box, and no peak that
/// is told is greater: a run of an accepted source, traced, recorded, compared with a log or neither; of what a script makes of a sound
/// source; of accepted sources as one; and a demo.
pub fn all_runs_keep_bounds()
    ensures source { (text : List ℕ) (accepted : Accepted) → IsAccepted text accepted
        → (texts : List ℕ → List ℕ) (coming : Inputs) → AreInputs accepted.core texts coming → StaysInBounds accepted.core coming.good }
    ensures calc { (text : List ℕ) (sound : Sound) → IsSound text sound → (script : List ℕ) (new : Core) → scripted sound.core script ≡ Ok new
        → (texts : List ℕ → List ℕ) (coming : Inputs) → AreInputs new texts coming → StaysInBounds new coming.good }
    ensures union { (first : List ℕ) (others : List (List ℕ)) (programs : List Accepted) → AreAccepted (first ∷ others) programs
        → StaysWithin (first_of programs) (others_of programs)
        → (texts : List ℕ → List ℕ) (coming : Inputs) → AreInputs (union_core programs) texts coming → StaysInBounds (union_core programs) coming.good }
    ensures demo { (number : ℕ) (accepted : Accepted) → IsAccepted (demo_text number) accepted
        → StaysInBounds accepted.core (no_values accepted.core) }
{}
