//! Laws of the definitions, as contracts of functions that do nothing.
ghost use Rattle.std.specs.Prelude.{◌≡◌, ◌+◌, ◌++◌, ℕ, List};
ghost use Rattle.std.specs.List.{concat};
ghost use Rattle.hume_base.specs.declared.types.Value.{Value};
ghost use Rattle.hume_model.specs.declared.core_tree.Core.{Core};
ghost use Rattle.hume_net.specs.declared.state.State.{State};
ghost use Rattle.hume_net.specs.Lockstep.{mid, up};
ghost use Rattle.hume_net.specs.Start.{start};
ghost use Rattle.hume_net.specs.rounds.Pieces.{IsFilled, IsPieceOf};
ghost use Rattle.run_log.specs.declared.half.Half.{Half};
ghost use Rattle.run_log.specs.declared.half.Half.TheVariants.{End};
ghost use Rattle.run_log.specs.Logs.{block, log_of, superstep_blocks};
ghost use Rattle.run_log.specs.Moments.{forgotten};

/// A net that is fed before each superstep, and forgets what output streams took, holds a piece of the state of the whole run. Its
/// halves keep that, and its blocks are those of the whole run.
pub fn halves_keep_pieces()
    ensures blocks { (core : Core) (earlier later : ℕ → List Value) (piece whole : State) → IsPieceOf core earlier later piece whole
        → (half : Half) (superstep : ℕ) → block core half superstep piece ≡ block core half superstep whole }
    ensures forgotten { (core : Core) (earlier later : ℕ → List Value) (piece whole : State) → IsPieceOf core earlier later piece whole
        → (gone : ℕ → List Value) × IsPieceOf core gone later (forgotten core piece) whole }
    ensures mid { (core : Core) (earlier later : ℕ → List Value) (piece whole : State) → IsPieceOf core earlier later piece whole
        → IsPieceOf core earlier later (mid core piece) (mid core whole) }
    ensures up { (core : Core) (earlier later : ℕ → List Value) (piece whole : State) → IsPieceOf core earlier later piece whole
        → IsFilled core 1 later piece → IsPieceOf core earlier later (up core piece) (up core whole) }
{}

/// The log of no superstep is the block of the start, and each superstep goes on with its two blocks.
pub fn logs_go_on_by_supersteps()
    ensures start { (core : Core) (inputs : List (List Value)) → log_of core inputs 0 ≡ concat (block core End 0 (start core inputs)) }
    ensures on { (core : Core) (inputs : List (List Value)) (steps : ℕ)
        → log_of core inputs (steps + 1) ≡ log_of core inputs steps ++ concat (superstep_blocks core (start core inputs) (steps + 1)) }
{}
