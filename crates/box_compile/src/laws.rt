//! Laws of the definitions, as contracts of functions that do nothing.
ghost use Rattle.std.specs.Prelude.{◌≡◌, ◌+◌, ℕ, List, Some, slice_get};
ghost use Rattle.hume_model.specs.declared.core_tree.BoxC.{BoxC};
ghost use Rattle.hume_model.specs.declared.core_tree.Core.{Core};
ghost use Rattle.hume_model.specs.declared.core_tree.NodeC.TheVariants.{Rules, From, To};
ghost use Rattle.hume_model.specs.declared.core_tree.StreamC.{StreamC};
ghost use Rattle.box_code.specs.declared.program.BoxProgram.{BoxProgram};
ghost use Rattle.box_compile.specs.Programs.{AreProgramsOf, HasProgram, boxes_before};

/// The program of a box of a core has as its number how many boxes stand before it, and represents it. So programs are counted
/// along the nodes: one for each box, and none for a stream.
pub fn boxes_have_their_programs()
    ensures at { (core : Core) (programs : List BoxProgram) → AreProgramsOf core programs
        → (n : ℕ) (b : BoxC) → slice_get core.nodes n ≡ Some (Rules b) → HasProgram core programs (boxes_before core n) b }
    ensures first { (core : Core) → boxes_before core 0 ≡ 0 }
    ensures after_box { (core : Core) (n : ℕ) (b : BoxC) → slice_get core.nodes n ≡ Some (Rules b)
        → boxes_before core (n + 1) ≡ boxes_before core n + 1 }
    ensures after_input { (core : Core) (n : ℕ) (stream : StreamC) → slice_get core.nodes n ≡ Some (From stream)
        → boxes_before core (n + 1) ≡ boxes_before core n }
    ensures after_output { (core : Core) (n : ℕ) (stream : StreamC) → slice_get core.nodes n ≡ Some (To stream)
        → boxes_before core (n + 1) ≡ boxes_before core n }
{}
