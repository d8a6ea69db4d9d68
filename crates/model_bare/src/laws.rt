//! Laws of the definitions, as contracts of functions that do nothing.
ghost use Rattle.std.specs.Prelude.{◌≡◌, ◌↔◌, ℕ, Some, length, slice_get};
ghost use Rattle.std.specs.List.{position};
ghost use Rattle.hume_model.specs.declared.core_tree.BoxC.{BoxC};
ghost use Rattle.hume_model.specs.declared.core_tree.Core.{Core};
ghost use Rattle.hume_model.specs.declared.core_tree.NodeC.{NodeC};
ghost use Rattle.hume_model.specs.declared.core_tree.NodeC.TheVariants.{Rules};
ghost use Rattle.hume_model.specs.WellFormed.{HasSoundFrame};
ghost use Rattle.hume_model.specs.WireEnds.{is_stream};
ghost use Rattle.hume_model.specs.Wiring.{IsWired, WiresAgree, comes_from, inputs_of, leads_to, outputs_of};
ghost use Rattle.model_bare.specs.Bare.{bare_box, bare_node, bare_of};

/// What is asked of the frame of a core holds of its bare form too.
pub fn bare_forms_keep_the_frame()
    ensures { (core : Core) → HasSoundFrame core → HasSoundFrame (bare_of core) }
{}

/// The bare form of a core has the same types, exceptions and wires, found at the same inputs and outputs.
pub fn bare_forms_keep_types_and_wires()
    ensures types { (core : Core) → (bare_of core).types ≡ core.types }
    ensures exceptions { (core : Core) → (bare_of core).exns ≡ core.exns }
    ensures wires { (core : Core) → (bare_of core).wires ≡ core.wires }
    ensures wire_to { (core : Core) (n input : ℕ) → position (leads_to n input) (bare_of core).wires ≡ position (leads_to n input) core.wires }
    ensures wire_from { (core : Core) (n output : ℕ) → position (comes_from n output) (bare_of core).wires ≡ position (comes_from n output) core.wires }
{}

/// The bare form of a core has as many nodes, at each place the bare form of the node that stands there, and nothing else.
pub fn bare_forms_stand_at_their_places()
    ensures count { (core : Core) → length (bare_of core).nodes ≡ length core.nodes }
    ensures bare { (core : Core) (n : ℕ) (node : NodeC) → slice_get core.nodes n ≡ Some node → slice_get (bare_of core).nodes n ≡ Some (bare_node node) }
    ensures whole { (core : Core) (n : ℕ) (its : NodeC) → slice_get (bare_of core).nodes n ≡ Some its
        → (node : NodeC) × (slice_get core.nodes n ≡ Some node) × (bare_node node ≡ its) }
    ensures boxes { (core : Core) (n : ℕ) (its : BoxC) → slice_get (bare_of core).nodes n ≡ Some (Rules its)
        → (b : BoxC) × (slice_get core.nodes n ≡ Some (Rules b)) × (bare_box b ≡ its) }
{}

/// The bare form of a node has as many inputs and outputs, and is a stream if the node is one.
pub fn bare_nodes_have_the_same_ports()
    ensures inputs { (node : NodeC) → inputs_of (bare_node node) ≡ inputs_of node }
    ensures outputs { (node : NodeC) → outputs_of (bare_node node) ≡ outputs_of node }
    ensures kind { (node : NodeC) → is_stream (bare_node node) ≡ is_stream node }
{}

/// A core is wired, and its wires agree, exactly where this holds of its bare form.
pub fn bare_forms_are_wired_alike()
    ensures wired { (core : Core) → IsWired core ↔ IsWired (bare_of core) }
    ensures agree { (core : Core) → WiresAgree core ↔ WiresAgree (bare_of core) }
{}
