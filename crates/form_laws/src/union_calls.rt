//! A call of `union` owes to each program's streams what calls of `run` owe to them.
ghost use Rattle.std.specs.Prelude.{◌≡◌, ◌↔◌, ℕ, false, List, ◌∷◌, None, Some, map, slice_get};
ghost use Rattle.std.specs.List.{AllZip};
ghost use Rattle.std.specs.Str.{bytes_eq};
ghost use Rattle.hume_model.specs.declared.core_tree.NodeC.TheVariants.{To};
ghost use Rattle.hume_model.specs.declared.core_tree.StreamC.{StreamC};
ghost use Rattle.hume_ports.specs.Delivery.{bytes_for};
ghost use Rattle.hume_front.specs.declared.acceptance.Accepted.{Accepted};
ghost use Rattle.port_acts.specs.Acts.{written};
ghost use Rattle.run_rounds.specs.Inputs.{AreInputs, Inputs};
ghost use Rattle.run_rounds.specs.Members.{members_writes};
ghost use Rattle.run_rounds.specs.Streams.{std_out};
ghost use Rattle.run_rounds.specs.Writes.{blocked_round, span_of, told};
ghost use Rattle.union_front.specs.Unions.{core_of};
ghost use Rattle.hume_calls.specs.declared.status.Status.TheVariants.{BadValue};
ghost use Rattle.hume_calls.specs.Owed.{owed_run, owed_union};
ghost use Rattle.hume_calls.specs.Unions.{MayUnite, program_members, union_core, union_texts};
ghost use Rattle.hume_calls.specs.Words.{Named};
ghost use Rattle.form_laws.specs.Unions.{TellsBadLine, own_peaks, supersteps_made};
ghost use Rattle.form_laws.specs.UnionCalls.{BlocksRun};

/// The port of a program's output stream, if it isn't `std_out`, gets from a call of `union` the bytes that it gets from a call of
/// `run` with this program alone, over ports with the same texts and of as many supersteps as the union makes. The union is answered
/// with BadValue exactly where such a call, of all supersteps, is for one of its programs. Then it tells that program's bad line, and else
/// the peaks of all, as those calls do.
pub fn union_calls_owe_what_runs_owe()
    ensures bytes { (named : Named) (text : List ℕ) (names : List (List ℕ)) (texts : List ℕ → List ℕ) (programs : List Accepted)
        → MayUnite names (named.source ∷ named.others) (union_texts text named texts) programs
        → (coming : Inputs) → AreInputs (union_core programs) texts coming
        → (steps place : ℕ) (program : Accepted) → slice_get programs place ≡ Some program → (own : Inputs) → AreInputs program.core texts own
        → (n : ℕ) (stream : StreamC) → slice_get program.core.nodes n ≡ Some (To stream) → bytes_eq stream.port std_out ≡ false
        → bytes_for stream.port (written (owed_union steps (named.source ∷ named.others) programs coming).acts)
        ≡ bytes_for stream.port (written (owed_run false (supersteps_made (union_core programs) coming false steps) program.core own).acts) }
    ensures answer { (named : Named) (text : List ℕ) (names : List (List ℕ)) (texts : List ℕ → List ℕ) (programs : List Accepted)
        → MayUnite names (named.source ∷ named.others) (union_texts text named texts) programs
        → (coming : Inputs) → AreInputs (union_core programs) texts coming → (steps : ℕ)
        → ((owed_union steps (named.source ∷ named.others) programs coming).answer ≡ BadValue) ↔ BlocksRun programs texts steps }
    ensures bad_line { (named : Named) (text : List ℕ) (names : List (List ℕ)) (texts : List ℕ → List ℕ) (programs : List Accepted)
        → MayUnite names (named.source ∷ named.others) (union_texts text named texts) programs
        → (coming : Inputs) → AreInputs (union_core programs) texts coming
        → (steps round : ℕ) → blocked_round (union_core programs) coming (span_of false) steps ≡ Some round
        → TellsBadLine (map core_of programs) (program_members (named.source ∷ named.others) programs 1) texts coming false steps round }
    ensures peaks { (named : Named) (text : List ℕ) (names : List (List ℕ)) (texts : List ℕ → List ℕ) (programs : List Accepted)
        → MayUnite names (named.source ∷ named.others) (union_texts text named texts) programs
        → (coming : Inputs) → AreInputs (union_core programs) texts coming
        → (owns : List Inputs) → AllZip (λ program own. AreInputs program.core texts own) programs owns
        → (steps : ℕ) → blocked_round (union_core programs) coming (span_of false) steps ≡ None
        → members_writes (union_core programs) (program_members (named.source ∷ named.others) programs 1) coming false steps
        ≡ told (own_peaks (map core_of programs) (program_members (named.source ∷ named.others) programs 1) owns steps) }
{}
