//! Laws of the definitions, as contracts of functions that do nothing.
ghost use Rattle.std.specs.Prelude.{ℕ, ◌≤◌, ◌<◌, ◌^◌, List, length};
ghost use Rattle.hume_base.specs.declared.limits.TheConstants.{MAX_NAME_BYTES};
ghost use Rattle.box_costs.specs.declared.cost.Cost.{Cost};
ghost use Rattle.trace_print.specs.SpaceLines.{space_line, total_line, AreNumbers};
ghost use Rattle.trace_print.specs.TraceLines.{peak_line, step_line};
ghost use Rattle.trace_print.specs.declared.space_lines.TheConstants.{LINE_BYTES};

/// The lines of boxes whose names are those of a source, the line of all boxes, and the line of a superstep have room.
pub fn lines_are_short()
    ensures box_line { (name : List ℕ) (bound : Cost) → length name ≤ MAX_NAME_BYTES → AreNumbers bound → length (space_line name bound) ≤ LINE_BYTES }
    ensures peak { (name : List ℕ) (heap stack : ℕ) → length name ≤ MAX_NAME_BYTES → heap < 2 ^ 32 → stack < 2 ^ 32
        → length (peak_line name heap stack) ≤ LINE_BYTES }
    ensures step { (step : ℕ) → step < 2 ^ 32 → length (step_line step) ≤ LINE_BYTES }
    ensures total { (heap stack : ℕ) → heap < 2 ^ 32 → stack < 2 ^ 32 → length (total_line heap stack) ≤ LINE_BYTES }
{}
