//! Laws of the definitions, as contracts of functions that do nothing.
ghost use Rattle.std.specs.Prelude.{◌≡◌, ◌⊎◌, ℕ, List, Some, None, slice_get};
ghost use Rattle.hume_base.specs.Least.{IsLeast};
ghost use Rattle.hume_base.specs.declared.rule.Refusal.{Refusal};
ghost use Rattle.hume_ast.specs.declared.tree.Program.{Program};
ghost use Rattle.hume_model.specs.declared.core_tree.BoxC.{BoxC};
ghost use Rattle.hume_model.specs.declared.core_tree.NodeC.TheVariants.{Rules};
ghost use Rattle.hume_model.specs.Handling.{HandlesAll};
ghost use Rattle.hume_model.specs.WellFormed.{IsWellFormed};
ghost use Rattle.hume_model.specs.Wiring.{IsWired, WiresAgree};
ghost use Rattle.box_costs.specs.CostRules.{BreaksCosts};
ghost use Rattle.hume_front.specs.declared.acceptance.Accepted.{Accepted};
ghost use Rattle.hume_front.specs.declared.acceptance.Sound.{Sound};
ghost use Rattle.hume_front.specs.Accepted.{IsProgramOf, IsAccepted, IsSound, Breaks, BreaksSoundness};

/// A source stands for one program at most, and one that is accepted has one core.
pub fn one_program()
    ensures program { (text : List ℕ) (first second : Program) → IsProgramOf text first → IsProgramOf text second → first ≡ second }
    ensures core { (text : List ℕ) (first second : Accepted) → IsAccepted text first → IsAccepted text second → first.core ≡ second.core }
{}

/// Each source is accepted or breaks a rule. One that breaks a rule breaks one, at one line, and is not accepted.
pub fn one_answer()
    ensures some { (text : List ℕ) → ((accepted : Accepted) × IsAccepted text accepted) ⊎ ((refusal : Refusal) × Breaks text refusal) }
    ensures refusal { (text : List ℕ) (first second : Refusal) → Breaks text first → Breaks text second → first ≡ second }
    ensures apart { (text : List ℕ) (accepted : Accepted) (refusal : Refusal) → IsAccepted text accepted → Breaks text refusal → ⊥ }
{}

/// The core of an accepted source is well-formed, each of its inputs and outputs has one wire between equal types, and its
/// boxes handle all that they raise and may take no more than is allowed.
pub fn accepted_cores_are_sound()
    ensures formed { (text : List ℕ) (accepted : Accepted) → IsAccepted text accepted → IsWellFormed accepted.core }
    ensures wired { (text : List ℕ) (accepted : Accepted) → IsAccepted text accepted → IsWired accepted.core × WiresAgree accepted.core }
    ensures handled { (text : List ℕ) (accepted : Accepted) → IsAccepted text accepted
        → (n : ℕ) (b : BoxC) → slice_get accepted.core.nodes n ≡ Some (Rules b) → HandlesAll accepted.core b }
    ensures within { (text : List ℕ) (accepted : Accepted) → IsAccepted text accepted → IsLeast (BreaksCosts accepted.core) None }
{}

/// Each source is sound or breaks a rule for which it isn't, and never both. A sound source has one core, and so has the same source
/// where it is accepted.
pub fn one_sound_answer()
    ensures some { (text : List ℕ) → ((sound : Sound) × IsSound text sound) ⊎ ((refusal : Refusal) × BreaksSoundness text refusal) }
    ensures apart { (text : List ℕ) (sound : Sound) (refusal : Refusal) → IsSound text sound → BreaksSoundness text refusal → ⊥ }
    ensures core { (text : List ℕ) (first second : Sound) → IsSound text first → IsSound text second → first.core ≡ second.core }
    ensures accepted { (text : List ℕ) (sound : Sound) (accepted : Accepted) → IsSound text sound → IsAccepted text accepted → sound.core ≡ accepted.core }
{}

/// The core of a sound source is well-formed, each of its inputs and outputs has one wire between equal types, and its boxes handle all
/// that they raise.
pub fn sound_cores_are_wired()
    ensures formed { (text : List ℕ) (sound : Sound) → IsSound text sound → IsWellFormed sound.core }
    ensures wired { (text : List ℕ) (sound : Sound) → IsSound text sound → IsWired sound.core × WiresAgree sound.core }
    ensures handled { (text : List ℕ) (sound : Sound) → IsSound text sound
        → (n : ℕ) (b : BoxC) → slice_get sound.core.nodes n ≡ Some (Rules b) → HandlesAll sound.core b }
{}
