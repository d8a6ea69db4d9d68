//! Heap and stack of boxes in a run.
ghost use Rattle.std.specs.Prelude.{◌≡◌, ℕ, List, Some, slice_get};
ghost use Rattle.hume_model.specs.declared.core_tree.BoxC.{BoxC};
ghost use Rattle.hume_model.specs.declared.core_tree.NodeC.TheVariants.{Rules};
ghost use Rattle.hume_net.specs.Lockstep.{at_time};
ghost use Rattle.hume_streams.specs.Logs.{LogView};
ghost use Rattle.hume_streams.specs.Queues.{QueueView};
ghost use Rattle.hume_front.specs.declared.acceptance.Accepted.{Accepted};
ghost use Rattle.hume_front.specs.Accepted.{IsAccepted};
ghost use Rattle.box_costs.specs.Bounds.{box_bound};
ghost use Rattle.box_heap.specs.Heaps.{HasObjects, HeapView, Object};
ghost use Rattle.box_heap.specs.Stacks.{StackView};
ghost use Rattle.box_code.specs.Machine.{Machine, setting_of};
ghost use Rattle.box_machine.specs.Running.{machine_at};
ghost use Rattle.box_step.specs.Views.{CompiledView};
ghost use Rattle.box_step.specs.nodes.Openings.{Opening, opening_after};
ghost use Rattle.box_step.specs.nodes.Right.{IsRightBox};
ghost use Rattle.run_rounds.specs.Inputs.{AreInputs, Inputs};
ghost use Rattle.call_laws.specs.Memory.{HasItsMemory, IsBuiltFor, IsInRoom, IsReached, OpensWithin, run_opening};

/// In a run of an accepted source, the cell of a box has a heap and a stack of exactly the lengths that the table of bounds gives the box,
/// and there never were more words in them: whatever comes to the run, after any number of supersteps, and at any time of a round that
/// goes on from there.
pub fn cells_have_the_printed_memory()
    ensures runs { (text : List ℕ) (accepted : Accepted) → IsAccepted text accepted
        → (texts : List ℕ → List ℕ) (coming : Inputs) → AreInputs accepted.core texts coming
        → (steps : ℕ) (queues : ℕ → QueueView) (logs : ℕ → LogView)
        → OpensWithin (run_opening accepted.core coming.good steps queues logs) }
    ensures rounds { (opening : Opening) (steps : ℕ) → OpensWithin opening → OpensWithin (opening_after opening steps) }
    ensures cells { (opening : Opening) → OpensWithin opening → (n time : ℕ) (box : CompiledView) → IsRightBox opening n time box
        → (b : BoxC) → slice_get opening.core.nodes n ≡ Some (Rules b) → HasItsMemory (box_bound opening.core b) box }
{}

/// When a box fires, its machine has at no instruction more words in its heap or on its stack than those of the box's cell have room
/// for, from the inputs that are built to the outputs.
pub fn instructions_keep_the_memory_of_their_cell()
    ensures { (opening : Opening) → OpensWithin opening → (n time : ℕ) (box : CompiledView) → IsRightBox opening n time box
        → (b : BoxC) (number place : ℕ) (heap : HeapView) (stack : StackView)
        → IsBuiltFor opening.core (at_time opening.core opening.state time) n b number box heap stack → slice_get box.program.rules number ≡ Some place
        → (objects : List Object) → HasObjects heap objects
        → (count : ℕ) (m : Machine) → IsReached (setting_of opening.core.types box.program) (machine_at place stack objects) count m → IsInRoom box m }
{}
