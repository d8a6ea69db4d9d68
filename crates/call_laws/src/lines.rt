//! What calls of `calc` and `union` write, and which ports the forms beside `run` read, write and finish.
ghost use Rattle.std.specs.Prelude.{◌≡◌, ◌++◌, ◌∷◌, [], ℕ, List, Ok, false, true};
ghost use Rattle.hume_base.specs.declared.rule.Refusal.{Refusal};
ghost use Rattle.hume_model.specs.declared.core_tree.Core.{Core};
ghost use Rattle.hume_ports.specs.Delivery.{names_in};
ghost use Rattle.hume_ports.specs.Ports.{is_among};
ghost use Rattle.hume_front.specs.declared.acceptance.Accepted.{Accepted};
ghost use Rattle.port_acts.specs.Acts.{finished, wanted, written};
ghost use Rattle.port_acts.specs.Early.{after_reads};
ghost use Rattle.box_calculus.specs.Scripts.{scripted};
ghost use Rattle.run_rounds.specs.Inputs.{Inputs};
ghost use Rattle.run_rounds.specs.Members.{members_writes};
ghost use Rattle.run_rounds.specs.Streams.{inputs, ports_of, std_out};
ghost use Rattle.run_rounds.specs.Writes.{rounds_writes, told, writes};
ghost use Rattle.hume_calls.specs.declared.program_refusal.ProgramRefusal.{ProgramRefusal};
ghost use Rattle.hume_calls.specs.Owed.{owed_check, owed_demo, owed_program_refused, owed_refused, owed_run, owed_union};
ghost use Rattle.hume_calls.specs.Owed.{program_refused_line, refused_line, run_finishes, table_writes};
ghost use Rattle.hume_calls.specs.Reading.{reads_whole, script_reads};
ghost use Rattle.hume_calls.specs.Unions.{program_members, union_core, union_table};
ghost use Rattle.call_laws.specs.Rounds.{rounds_made};

use form_laws::scripts_keep_streams;
use hume_run::{calls_write_their_lines, runs_touch_their_ports};
use run_rounds::{runs_write_their_lines, wants_stand_before_rounds};

/// Behind the read of its script a call of `calc` writes the line of a refusal, or the table of the new core and what its run gives.
/// Behind the reads of its further sources a union writes the line of a refusal, or its table, the lines of the rounds that are
/// made, and what is told of its programs.
pub fn calc_and_union_write_their_lines()
    ensures calc { (new : Core) (coming : Inputs) (steps : ℕ) (script : List ℕ)
        → written (after_reads (script_reads script) (owed_run false steps new coming)).acts ≡ table_writes new ++ writes new coming false steps }
    ensures calc_refused { (refusal : Refusal) (script : List ℕ)
        → written (after_reads (script_reads script) (owed_refused refusal)).acts ≡ (std_out, refused_line refusal) ∷ [] }
    ensures union { (sources further : List (List ℕ)) (programs : List Accepted) (coming : Inputs) (steps : ℕ)
        → written (after_reads (reads_whole further) (owed_union steps sources programs coming)).acts
        ≡ told (union_table sources programs)
        ++ (rounds_writes (union_core programs) coming.good false steps (rounds_made (union_core programs) coming false steps)
        ++ members_writes (union_core programs) (program_members sources programs 1) coming false steps) }
    ensures union_refused { (refusal : ProgramRefusal) (further : List (List ℕ))
        → written (after_reads (reads_whole further) (owed_program_refused refusal)).acts ≡ (std_out, program_refused_line refusal) ∷ [] }
{
    calls_write_their_lines();
}

/// A demo, and a check behind the read of its source, read nothing, write to `std_out` and finish it.
pub fn checks_and_demos_touch_their_port()
    ensures check_reads { (core : Core) → wanted (owed_check core).acts ≡ [] }
    ensures check_writes { (core : Core) (name : List ℕ)
        → is_among name (names_in (written (owed_check core).acts)) ≡ true → is_among name (std_out ∷ []) ≡ true }
    ensures check_finishes { (core : Core) → finished (owed_check core).acts ≡ std_out ∷ [] }
    ensures demo_reads { (core : Core) (steps : ℕ) → wanted (owed_demo steps core).acts ≡ [] }
    ensures demo_writes { (core : Core) (steps : ℕ) (name : List ℕ)
        → is_among name (names_in (written (owed_demo steps core).acts)) ≡ true → is_among name (std_out ∷ []) ≡ true }
    ensures demo_finishes { (core : Core) (steps : ℕ) → finished (owed_demo steps core).acts ≡ std_out ∷ [] }
{}

/// A call of `calc` reads its script's port and those of the source's input streams, writes to `std_out` and to ports of the source's
/// output streams, and finishes each of those.
pub fn calc_touches_its_ports()
    ensures reads { (core new : Core) (lines : List ℕ) → scripted core lines ≡ Ok new → (coming : Inputs) (steps : ℕ) (script name : List ℕ)
        → is_among name (wanted (after_reads (script_reads script) (owed_run false steps new coming)).acts) ≡ true
        → is_among name (script ∷ ports_of (inputs core)) ≡ true }
    ensures writes { (core new : Core) (lines : List ℕ) → scripted core lines ≡ Ok new → (coming : Inputs) (steps : ℕ) (script name : List ℕ)
        → is_among name (names_in (written (after_reads (script_reads script) (owed_run false steps new coming)).acts)) ≡ true
        → is_among name (run_finishes core) ≡ true }
    ensures finishes { (core new : Core) (lines : List ℕ) → scripted core lines ≡ Ok new → (coming : Inputs) (steps : ℕ) (script : List ℕ)
        → finished (after_reads (script_reads script) (owed_run false steps new coming)).acts ≡ run_finishes core }
{
    scripts_keep_streams();
    runs_touch_their_ports();
}

/// A union reads the ports of its further sources and of all input streams, writes to `std_out` and to ports of output streams of its
/// programs, and finishes each of those.
pub fn unions_touch_their_ports()
    ensures reads { (sources further : List (List ℕ)) (programs : List Accepted) (coming : Inputs) (steps : ℕ) (name : List ℕ)
        → is_among name (wanted (after_reads (reads_whole further) (owed_union steps sources programs coming)).acts) ≡ true
        → is_among name (further ++ ports_of (inputs (union_core programs))) ≡ true }
    ensures writes { (sources further : List (List ℕ)) (programs : List Accepted) (coming : Inputs) (steps : ℕ) (name : List ℕ)
        → is_among name (names_in (written (after_reads (reads_whole further) (owed_union steps sources programs coming)).acts)) ≡ true
        → is_among name (run_finishes (union_core programs)) ≡ true }
    ensures finishes { (sources further : List (List ℕ)) (programs : List Accepted) (coming : Inputs) (steps : ℕ)
        → finished (after_reads (reads_whole further) (owed_union steps sources programs coming)).acts ≡ run_finishes (union_core programs) }
{
    calls_write_their_lines();
    runs_touch_their_ports();
    runs_write_their_lines();
    wants_stand_before_rounds();
}
