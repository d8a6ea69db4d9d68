//! Each program of a union reads and writes what it reads and writes alone.
ghost use Rattle.std.specs.Prelude.{◌≡◌, ◌↔◌, ℕ, false, Bool, All, List, [], ◌∷◌, length, map, None, Some, slice_get};
ghost use Rattle.std.specs.List.{AllZip};
ghost use Rattle.std.specs.Str.{bytes_eq};
ghost use Rattle.hume_model.specs.declared.core_tree.Core.{Core};
ghost use Rattle.hume_model.specs.declared.core_tree.NodeC.TheVariants.{To};
ghost use Rattle.hume_model.specs.declared.core_tree.StreamC.{StreamC};
ghost use Rattle.hume_model.specs.WellFormed.{IsWellFormed};
ghost use Rattle.hume_ports.specs.Delivery.{bytes_for};
ghost use Rattle.phase_workers.specs.Runnable.{IsRunnable};
ghost use Rattle.port_acts.specs.Acts.{written};
ghost use Rattle.run_rounds.specs.Inputs.{AreInputs, Inputs};
ghost use Rattle.run_rounds.specs.Members.{MemberView, members_acts, members_writes};
ghost use Rattle.run_rounds.specs.RunActs.{run_acts};
ghost use Rattle.run_rounds.specs.Streams.{ArePortsApart, std_out};
ghost use Rattle.run_rounds.specs.Writes.{blocked_round, rounds_writes, span_of, told};
ghost use Rattle.union_laws.specs.Union.{followed_by, united_all};
ghost use Rattle.form_laws.specs.Unions.{AreInputsOfEach, BlocksOne, ComesAlone, IsLeastOf, TellsBadLine, own_peaks, supersteps_made};

/// The union of all programs of a list is the first of them with the others behind it.
pub fn unions_begin_with_their_first_program()
    ensures { (first : Core) (others : List Core) → IsWellFormed first → united_all (first ∷ others) ≡ followed_by first others }
{}

/// What comes to a union from the texts of its ports is what comes to each of its programs from them, and nothing else.
pub fn unions_read_what_their_programs_read()
    ensures { (programs : List Core) → All IsWellFormed programs → (texts : List ℕ → List ℕ) (coming : Inputs)
        → AreInputs (united_all programs) texts coming ↔ AreInputsOfEach programs texts coming }
{}

/// The first blocked round of a union is the first in which one of its programs, run alone over the same texts, is blocked.
pub fn unions_are_blocked_as_their_programs()
    ensures { (programs : List Core) → All IsRunnable programs → (texts : List ℕ → List ℕ) (coming : Inputs)
        → AreInputs (united_all programs) texts coming → (span steps : ℕ)
        → IsLeastOf (BlocksOne programs texts span steps) (blocked_round (united_all programs) coming span steps) }
{}

/// An output stream's port gets from the run of a union the bytes that it gets from a run of its program alone, over the same texts
/// and of as many supersteps as the union makes: all, or those of the rounds before the first blocked one. Of a stream whose port is
/// `std_out`, where more is told, so it is of the bytes of each number of rounds.
pub fn unions_write_what_each_program_writes_alone()
    ensures run { (programs : List Core) → All IsRunnable programs → ArePortsApart (united_all programs)
        → (texts : List ℕ → List ℕ) (coming : Inputs) → AreInputs (united_all programs) texts coming
        → (place : ℕ) (program : Core) (own : Inputs) → ComesAlone programs texts place program own
        → (n : ℕ) (stream : StreamC) → slice_get program.nodes n ≡ Some (To stream) → bytes_eq stream.port std_out ≡ false
        → (members : List MemberView) (traced : Bool) (steps : ℕ)
        → bytes_for stream.port (written (members_acts (united_all programs) members coming traced steps))
        ≡ bytes_for stream.port (written (run_acts program own traced (supersteps_made (united_all programs) coming traced steps))) }
    ensures rounds { (programs : List Core) → All IsRunnable programs → ArePortsApart (united_all programs)
        → (texts : List ℕ → List ℕ) (coming : Inputs) → AreInputs (united_all programs) texts coming
        → (place : ℕ) (program : Core) (own : Inputs) → ComesAlone programs texts place program own
        → (n : ℕ) (stream : StreamC) → slice_get program.nodes n ≡ Some (To stream)
        → (steps rounds : ℕ) → bytes_for stream.port (rounds_writes (united_all programs) coming.good false steps rounds)
        ≡ bytes_for stream.port (rounds_writes program own.good false steps rounds) }
{}

/// A union that is blocked tells the bad line of the first program that is blocked in that round, as the program tells it alone, and
/// which one it is. Else it tells the peaks of each program, as the program tells them alone, behind the line that names it.
pub fn unions_tell_what_their_programs_tell()
    ensures bad_line { (programs : List Core) → All IsRunnable programs → (texts : List ℕ → List ℕ) (coming : Inputs)
        → AreInputs (united_all programs) texts coming
        → (members : List MemberView) → map (λ member. member.nodes) members ≡ map (λ program. length program.nodes) programs
        → (traced : Bool) (steps round : ℕ) → blocked_round (united_all programs) coming (span_of traced) steps ≡ Some round
        → TellsBadLine programs members texts coming traced steps round }
    ensures peaks { (programs : List Core) → All IsRunnable programs → (texts : List ℕ → List ℕ) (coming : Inputs)
        → AreInputs (united_all programs) texts coming
        → (members : List MemberView) → map (λ member. member.nodes) members ≡ map (λ program. length program.nodes) programs
        → (owns : List Inputs) → AllZip (λ program own. AreInputs program texts own) programs owns
        → (traced : Bool) (steps : ℕ) → blocked_round (united_all programs) coming (span_of traced) steps ≡ None
        → members_writes (united_all programs) members coming traced steps ≡ told (own_peaks programs members owns steps) }
{}
