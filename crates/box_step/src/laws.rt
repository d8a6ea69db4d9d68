//! Laws of the definitions, as contracts of functions that do nothing.
ghost use Rattle.std.specs.Prelude.{◌≡◌, ℕ, List, Option, None, Some, true, length, slice_get};
ghost use Rattle.hume_base.specs.declared.types.Ty.{Ty};
ghost use Rattle.hume_base.specs.declared.types.Value.{Value};
ghost use Rattle.hume_base.specs.Sizes.{size_of};
ghost use Rattle.hume_model.specs.declared.core_tree.BoxC.{BoxC};
ghost use Rattle.hume_model.specs.declared.core_tree.Core.{Core};
ghost use Rattle.hume_model.specs.BoxTyping.{port_types};
ghost use Rattle.hume_model.specs.ResultTyping.{are_outputs};
ghost use Rattle.hume_net.specs.declared.state.Part.{Part};
ghost use Rattle.match_rules.specs.Outputs.{AreWordsOfOutputs};
ghost use Rattle.box_step.specs.Boxes.{IsBoxAt, AreBareForms, TakesLittle};
ghost use Rattle.box_step.specs.Views.{CompiledView, pending_words};
ghost use Rattle.hume_base.specs.Least.{IsLeast};
ghost use Rattle.hume_model.specs.declared.core_tree.NodeC.TheVariants.{Rules};
ghost use Rattle.hume_model.specs.Handling.{HandlesAll};
ghost use Rattle.hume_model.specs.WellFormed.{IsWellFormed};
ghost use Rattle.model_bare.specs.Bare.{bare_box, bare_of};
ghost use Rattle.box_code.specs.declared.program.BoxProgram.{BoxProgram};
ghost use Rattle.box_code.specs.RepresentsBox.{RepresentsBox};
ghost use Rattle.box_costs.specs.CostRules.{BreaksCosts};

/// The words of the outputs of a box that is at a part are the flat words of the values that are pending there, as many as the size
/// of the output's type. Where nothing is pending, or once it is forgotten, there are none.
pub fn pending_words_are_those_of_pending_values()
    ensures words { (core : Core) (b : BoxC) (part : Part) (box : CompiledView) (values : List (Option Value)) → IsBoxAt core b part box
        → part.pending ≡ Some values → AreWordsOfOutputs core.types (port_types b.outs) values (pending_words box) }
    ensures size { (core : Core) (b : BoxC) (part : Part) (box : CompiledView) (values : List (Option Value)) → IsBoxAt core b part box
        → part.pending ≡ Some values → are_outputs core.types (port_types b.outs) values ≡ true
        → (i : ℕ) (ty : Ty) (words : List ℕ) → slice_get (port_types b.outs) i ≡ Some ty → pending_words box i ≡ Some words
        → length words ≡ size_of core.types ty }
    ensures none { (core : Core) (b : BoxC) (part : Part) (box : CompiledView) → IsBoxAt core b part box → part.pending ≡ None
        → (i : ℕ) → pending_words box i ≡ None }
    ensures forgotten { (box : CompiledView) (i : ℕ) → pending_words (record box { pending = None }) i ≡ None }
{}

/// Where a core breaks no rule on costs, a program that represents one of its boxes takes no more words than a box may.
pub fn programs_of_boxes_take_little()
    ensures { (core : Core) → IsLeast (BreaksCosts core) None → (n : ℕ) (b : BoxC) → slice_get core.nodes n ≡ Some (Rules b)
        → (program : BoxProgram) → RepresentsBox core b program → TakesLittle program }
{}

/// A box of a well-formed core that handles all that its rules raise can be run by bare forms: by its own, and by the box that
/// stands at its place in the bare form of the core.
pub fn boxes_run_by_their_bare_forms()
    ensures own { (core : Core) → IsWellFormed core → (n : ℕ) (b : BoxC) → slice_get core.nodes n ≡ Some (Rules b) → HandlesAll core b
        → AreBareForms core b (bare_of core) (bare_box b) }
    ensures there { (core : Core) → IsWellFormed core → (n : ℕ) (b : BoxC) → slice_get core.nodes n ≡ Some (Rules b) → HandlesAll core b
        → (bare : Core) → bare ≡ bare_of core → (its : BoxC) → slice_get bare.nodes n ≡ Some (Rules its) → AreBareForms core b bare its }
{}
