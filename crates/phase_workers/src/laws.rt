//! Laws of the definitions, as contracts of functions that do nothing.
ghost use Rattle.std.specs.Prelude.{◌≡◌, ◌≤◌, ◌++◌, ◌⊎◌, ℕ, List, Some, Result, slice_get};
ghost use Rattle.hume_base.specs.declared.limits.TheConstants.{MAX_TYPE_WORDS};
ghost use Rattle.hume_base.specs.declared.types.Value.{Value};
ghost use Rattle.hume_base.specs.Sizes.{size_of};
ghost use Rattle.hume_model.specs.declared.core_tree.Core.{Core};
ghost use Rattle.hume_model.specs.declared.core_tree.WireC.{WireC};
ghost use Rattle.hume_net.specs.Nodes.{IsInputStream, IsOutputStream};
ghost use Rattle.hume_ports.specs.Port.{PortView};
ghost use Rattle.hume_streams.specs.declared.queue.FillError.{FillError};
ghost use Rattle.hume_text.specs.Bounds.{IsPrintable};
ghost use Rattle.phase_workers.specs.Engines.{EngineView, core_of, IsRight};
ghost use Rattle.phase_workers.specs.NodeFills.{FillsNode};
ghost use Rattle.phase_workers.specs.Runnable.{IsRunnable};
ghost use Rattle.phase_workers.specs.StreamTypes.{type_at};

/// The type of a stream is that of the wire that comes from it or leads to it.
pub fn stream_types_are_those_of_their_wires()
    ensures inputs { (core : Core) → IsRunnable core → (n w : ℕ) (wire : WireC) → slice_get core.wires w ≡ Some wire
        → IsInputStream core n → wire.from ≡ n → type_at core n ≡ wire.ty }
    ensures outputs { (core : Core) → IsRunnable core → (n w : ℕ) (wire : WireC) → slice_get core.wires w ≡ Some wire
        → IsOutputStream core n → wire.to ≡ n → type_at core n ≡ wire.ty }
{}

/// The values of a stream have texts, and no more words than a type may have.
pub fn stream_types_have_texts()
    ensures texts { (core : Core) → IsRunnable core → (n : ℕ) → IsInputStream core n ⊎ IsOutputStream core n
        → IsPrintable core.types (type_at core n) }
    ensures words { (core : Core) → IsRunnable core → (n : ℕ) → IsInputStream core n ⊎ IsOutputStream core n
        → size_of core.types (type_at core n) ≤ MAX_TYPE_WORDS }
{}

/// An engine that is right behind the bytes that were read of a port is so behind those that a fill reads.
pub fn engines_stay_right()
    ensures { (want : ℕ) (old new : EngineView) (node : ℕ) (name : List ℕ) (olds news : List PortView) (result : Result (Unit {0}) FillError)
        → (fill : FillsNode want old new node name olds news result) → core_of new ≡ core_of old
        → (bytes : List ℕ) (read : List Value) → IsRight old node bytes read → IsRight new node (bytes ++ fill.bytes) (read ++ fill.values) }
{}
