//! Laws of the calls and of the definitions.
ghost use Rattle.std.specs.Prelude.{◌≡◌, ◌++◌, ◌∷◌, [], ℕ, List, IfOk, OnOk, Some, true, length, drop, nat_lt, slice_get};
ghost use Rattle.std.specs.Option.{option_to_list};
ghost use Rattle.hume_base.specs.declared.types.Types.{Types};
ghost use Rattle.hume_base.specs.Flat.{flat};
ghost use Rattle.hume_model.specs.declared.core_tree.WireC.{WireC};
ghost use Rattle.hume_model.specs.declared.core_tree.Core.{Core};
ghost use Rattle.hume_model.specs.WellFormed.{HasSoundFrame};
ghost use Rattle.wire_cells.specs.Cells.{CellView, Holds, cell_has_room, first_cell};
ghost use Rattle.hume_base.specs.declared.types.Value.{Value};
ghost use Rattle.hume_base.specs.Sizes.{size_of, HaveTheirSizes};
ghost use Rattle.hume_base.specs.Values.{is_value};
ghost use Rattle.hume_model.specs.Reading.{AreWordsOf, HaveReadableSizes};

use crate::flat_words::flatten;
use hume_base::{Ty, Types, Value};
use hume_model::value_of;
use std::alloc::{AllocError, Global};

/// What `value_of` reads from the words that `flatten` writes is the value that was written.
pub fn value_of_undoes_flatten(
    alloc: Global,
    types: &Types,
    ty: &Ty,
    value: &Value,
    words: &mut [u64],
) -> Result<Value, AllocError>
    requires sizes { HaveTheirSizes types.now }
    requires readable { HaveReadableSizes types.now }
    requires value { is_value types.now ty.now value.now ≡ true }
    requires room { length words.old ≡ size_of types.now ty.now }
    ensures { IfOk result (λ read. read ≡ value.now) }
{
    flatten(types, ty, value, words);
    value_of(alloc, types, ty, words)
}

/// What `flatten` writes of the value that `value_of` reads is the words from which it was read.
pub fn flatten_undoes_value_of(
    alloc: Global,
    types: &Types,
    ty: &Ty,
    words: &[u64],
    into: &mut [u64],
) -> Result<(), AllocError>
    requires sizes { HaveTheirSizes types.now }
    requires readable { HaveReadableSizes types.now }
    requires words { (value : Value) × AreWordsOf types.now ty.now words.now value }
    requires room { length into.old ≡ size_of types.now ty.now }
    ensures { OnOk result (into.new ≡ words.now) }
{
    let value = value_of(alloc, types, ty, words)?;
    flatten(types, ty, &value, into);
    Ok(())
}

/// A cell begins with the initial value of its wire, or with none.
pub fn first_cells_hold_initial_values()
    ensures { (core : Core) (number : ℕ) (wire : WireC) → HasSoundFrame core → slice_get core.wires number ≡ Some wire
        → Holds core.types wire (first_cell core number wire) (option_to_list wire.initial) }
{}

/// What a cell shows are the flat words of the oldest value that it holds. A cell from which it is taken holds the later ones, and one
/// in which the words of a value are put holds that value behind the others. Each row has as many words as the wire's type. What a
/// cell holds doesn't depend on its time.
pub fn cells_hold_values()
    ensures shown { (types : Types) (wire : WireC) (cell : CellView) (oldest : Value) (later : List Value) → Holds types wire cell (oldest ∷ later)
        → slice_get cell.values 0 ≡ Some (flat types wire.ty oldest) }
    ensures taken { (types : Types) (wire : WireC) (cell : CellView) (oldest : Value) (later : List Value) → Holds types wire cell (oldest ∷ later)
        → Holds types wire (record cell { values = drop 1 cell.values }) later }
    ensures asserted { (types : Types) (wire : WireC) (cell : CellView) (held : List Value) (value : Value) → Holds types wire cell held
        → is_value types wire.ty value ≡ true
        → Holds types wire (record cell { values = cell.values ++ flat types wire.ty value ∷ [] }) (held ++ value ∷ []) }
    ensures whole { (types : Types) (wire : WireC) (cell : CellView) (held : List Value) (i : ℕ) (words : List ℕ) → Holds types wire cell held
        → slice_get cell.values i ≡ Some words → length words ≡ cell.size }
    ensures timed { (types : Types) (wire : WireC) (cell : CellView) (held : List Value) (time : ℕ) → Holds types wire cell held
        → Holds types wire (record cell { time = time }) held }
{}

/// A cell has room exactly where its wire has, which is where the wire holds fewer values than its depth.
pub fn cells_have_the_room_of_wires()
    ensures { (types : Types) (wire : WireC) (cell : CellView) (held : List Value) → Holds types wire cell held
        → cell_has_room cell ≡ nat_lt (length held) wire.depth }
{}
