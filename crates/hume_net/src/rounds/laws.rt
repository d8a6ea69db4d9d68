//! Laws of the definitions, as contracts of functions that do nothing.
ghost use Rattle.std.specs.Prelude.{◌≡◌, ◌≤◌, ◌<◌, ◌+◌, ◌-◌, ◌++◌, ◌&&◌, ℕ, suc, nat_lt, Bool, true, false, List, [], Some, None, length, slice_get, slice_set, slice_index_or};
ghost use Rattle.hume_base.specs.declared.types.Value.{Value};
ghost use Rattle.hume_model.specs.declared.core_tree.Core.{Core};
ghost use Rattle.hume_model.specs.declared.core_tree.NodeC.{NodeC};
ghost use Rattle.hume_net.specs.declared.state.State.{State};
ghost use Rattle.hume_net.specs.Depths.{IsWithinDepths};
ghost use Rattle.hume_net.specs.Lockstep.{lockstep};
ghost use Rattle.hume_net.specs.Nodes.{HasParts, IsInputStream, IsOutputStream};
ghost use Rattle.hume_net.specs.Sides.{part_of};
ghost use Rattle.hume_net.specs.Start.{no_values, start};
ghost use Rattle.hume_net.specs.StatePlaces.{HaveAllOutputs};
ghost use Rattle.hume_net.specs.StateTyping.{IsTypedState};
ghost use Rattle.hume_net.specs.rounds.Blocked.{blocking, blocks, first_blocked};
ghost use Rattle.hume_net.specs.rounds.Pieces.{IsFedByRounds, IsFilled, IsPieceOf, after_rounds, cleared, fed, listed, nothing, only, round_over, taken_by, taken_in};
ghost use Rattle.hume_net.specs.rounds.Rounds.{IsRound, begins, ends, length_of, made, rounds_of};
ghost use Rattle.hume_net.specs.rounds.Streams.{AlikeUpTo, asserted_between, gained};

/// So many supersteps and then so many more are as many as both together.
pub fn locksteps_follow_one_another()
    ensures { (core : Core) (state : State) (first more : ℕ)
        → lockstep core state (first + more) ≡ lockstep core (lockstep core state first) more }
{}

/// Values that were taken earlier are never looked at, nor those that come later than so many supersteps may need: without
/// them these supersteps are the same but for them.
pub fn pieces_go_on_as_the_whole()
    ensures { (core : Core) (earlier later : ℕ → List Value) (steps : ℕ) (piece whole : State) → IsFilled core steps later piece
        → IsPieceOf core earlier later piece whole → IsPieceOf core earlier later (lockstep core piece steps) (lockstep core whole steps) }
{}

/// What comes to a node drops by what it asserts, and that is one value a superstep at most.
pub fn streams_assert_one_value_a_superstep()
    ensures all { (core : Core) (state : State) (k n : ℕ) (node : NodeC) → slice_get core.nodes n ≡ Some node
        → (part_of state n).coming ≡ asserted_between state (lockstep core state k) n ++ (part_of (lockstep core state k) n).coming }
    ensures few { (core : Core) (state : State) (k n : ℕ) (node : NodeC) → slice_get core.nodes n ≡ Some node
        → length (asserted_between state (lockstep core state k) n) ≤ k }
{}

/// Values that come after as many as there are supersteps are not seen: states that differ only there differ only there
/// afterwards, and each node has asserted the same values.
pub fn values_ahead_are_not_seen()
    ensures alike { (core : Core) (count more : ℕ) (s t : State) → AlikeUpTo (count + more) s t
        → AlikeUpTo more (lockstep core s count) (lockstep core t count) }
    ensures asserted { (core : Core) (count : ℕ) (s t : State) → AlikeUpTo count s t → (n : ℕ) (node : NodeC) → slice_get core.nodes n ≡ Some node
        → asserted_between s (lockstep core s count) n ≡ asserted_between t (lockstep core t count) n }
{}

/// What a node has taken only grows, by just what it takes when it is cleared before; all else is the same when it is.
pub fn taken_values_only_grow()
    ensures grow { (core : Core) (state : State) (k n : ℕ) (node : NodeC) → slice_get core.nodes n ≡ Some node
        → (part_of (lockstep core state k) n).taken ≡ (part_of state n).taken ++ gained state (lockstep core state k) n }
    ensures gain { (core : Core) (state : State) (k n : ℕ) (node : NodeC) → slice_get core.nodes n ≡ Some node
        → gained state (lockstep core state k) n ≡ (part_of (lockstep core (cleared core state) k) n).taken }
    ensures rest { (core : Core) (state : State) (k : ℕ)
        → IsPieceOf core (taken_in state) nothing (lockstep core (cleared core state) k) (lockstep core state k) }
{}

/// A piece has values of the right types, an entry for each output, and no wire beyond its depth, where the whole has.
pub fn pieces_keep_what_the_whole_keeps()
    ensures types { (core : Core) (earlier later : ℕ → List Value) (piece whole : State) → IsPieceOf core earlier later piece whole
        → IsTypedState core whole → IsTypedState core piece }
    ensures outputs { (core : Core) (earlier later : ℕ → List Value) (piece whole : State) → IsPieceOf core earlier later piece whole
        → HaveAllOutputs core whole → HaveAllOutputs core piece }
    ensures depths { (core : Core) (earlier later : ℕ → List Value) (piece whole : State) → IsPieceOf core earlier later piece whole
        → IsWithinDepths core whole → IsWithinDepths core piece }
{}

/// Before the first superstep all values come later; values that are fed then come no longer later, and values that are
/// cleared were taken earlier.
pub fn pieces_are_fed_and_cleared()
    ensures start { (core : Core) (coming : List (List Value)) → IsPieceOf core nothing (listed coming) (start core (no_values core)) (start core coming) }
    ensures fed { (core : Core) (earlier later values : ℕ → List Value) (piece whole : State) → IsPieceOf core earlier (λ n. values n ++ later n) piece whole
        → IsPieceOf core earlier later (fed core values piece) whole }
    ensures cleared { (core : Core) (earlier later : ℕ → List Value) (piece whole : State) → IsPieceOf core earlier later piece whole
        → IsPieceOf core (λ n. earlier n ++ taken_in piece n) later (cleared core piece) whole }
{}

/// One node alone may be fed, or cleared.
pub fn nodes_are_fed_and_cleared()
    ensures fed { (core : Core) (earlier later : ℕ → List Value) (piece whole : State) → HasParts core piece
        → (n : ℕ) (node : NodeC) → slice_get core.nodes n ≡ Some node → (values : List Value)
        → IsPieceOf core earlier (λ other. only n values other ++ later other) piece whole
        → IsPieceOf core earlier later (record piece { coming = slice_set piece.coming n (slice_index_or piece.coming n [] ++ values) }) whole }
    ensures cleared { (core : Core) (earlier later : ℕ → List Value) (piece whole : State) → HasParts core piece
        → (n : ℕ) (node : NodeC) → slice_get core.nodes n ≡ Some node → IsPieceOf core earlier later piece whole
        → IsPieceOf core (λ other. earlier other ++ only n (taken_in piece n) other) later (record piece { taken = slice_set piece.taken n [] }) whole }
{}

/// Only an output stream takes values, and only an input stream asserts those that come to it.
pub fn other_nodes_take_and_assert_nothing()
    ensures take { (core : Core) (state : State) (k n : ℕ) (node : NodeC) → slice_get core.nodes n ≡ Some node → (IsOutputStream core n → ⊥)
        → (part_of (lockstep core state k) n).taken ≡ (part_of state n).taken }
    ensures assert { (core : Core) (state : State) (k n : ℕ) (node : NodeC) → slice_get core.nodes n ≡ Some node → (IsInputStream core n → ⊥)
        → (part_of (lockstep core state k) n).coming ≡ (part_of state n).coming }
{}

/// The rounds of a run follow one another, and make all its supersteps.
pub fn rounds_make_all_supersteps()
    ensures counted { (span steps round : ℕ) → 1 ≤ span → IsRound span steps round → round ≤ rounds_of span steps }
    ensures each { (span steps round : ℕ) → 1 ≤ span → 1 ≤ round → round ≤ rounds_of span steps → IsRound span steps round }
    ensures begin { (span steps round : ℕ) → IsRound span steps round → begins span round ≡ made span steps (round - 1) }
    ensures end { (span steps round : ℕ) → IsRound span steps round → ends span steps round ≡ made span steps round }
    ensures none { (span steps : ℕ) → made span steps 0 ≡ 0 }
    ensures more { (span steps done : ℕ) → made span steps done + length_of span steps (suc done) ≡ made span steps (suc done) }
    ensures all { (span steps : ℕ) → 1 ≤ span → made span steps (rounds_of span steps) ≡ steps }
{}

/// A round of a piece with what it may need leads to the piece of the whole run at the end of the round, and an empty piece
/// takes what the whole run gains in it.
pub fn rounds_go_on_as_the_whole()
    ensures over { (core : Core) (coming : List (List Value)) (span steps done : ℕ) (earlier later : ℕ → List Value) (piece : State)
        → IsPieceOf core earlier later piece (lockstep core (start core coming) (made span steps done))
        → IsFilled core (length_of span steps (suc done)) later piece
        → IsPieceOf core earlier later (lockstep core piece (length_of span steps (suc done)))
        (lockstep core (start core coming) (made span steps (suc done))) }
    ensures gain { (core : Core) (coming : List (List Value)) (span steps done : ℕ) (earlier later : ℕ → List Value) (piece : State)
        → IsPieceOf core earlier later piece (lockstep core (start core coming) (made span steps done))
        → IsFilled core (length_of span steps (suc done)) later piece
        → (n : ℕ) (node : NodeC) → slice_get core.nodes n ≡ Some node → (part_of piece n).taken ≡ []
        → gained (lockstep core (start core coming) (made span steps done)) (lockstep core (start core coming) (made span steps (suc done))) n
        ≡ (part_of (lockstep core piece (length_of span steps (suc done))) n).taken }
{}

/// A run by rounds, each of which is fed what it may need and cleared when it is over, passes through the states of the
/// lockstep, and takes in each round what the lockstep gains in it.
pub fn rounds_give_the_lockstep()
    ensures states { (core : Core) (coming : List (List Value)) (span steps : ℕ) (feeds later : ℕ → ℕ → List Value) (rounds : ℕ)
        → IsFedByRounds core span steps coming feeds later rounds
        → IsPieceOf core (taken_by core span steps feeds rounds) (later rounds) (after_rounds core span steps feeds rounds)
        (lockstep core (start core coming) (made span steps rounds)) }
    ensures gains { (core : Core) (coming : List (List Value)) (span steps : ℕ) (feeds later : ℕ → ℕ → List Value) (rounds done : ℕ)
        → IsFedByRounds core span steps coming feeds later rounds → done < rounds
        → (n : ℕ) (node : NodeC) → slice_get core.nodes n ≡ Some node
        → gained (lockstep core (start core coming) (made span steps done)) (lockstep core (start core coming) (made span steps (suc done))) n
        ≡ (part_of (round_over core (length_of span steps (suc done)) (feeds (suc done)) (after_rounds core span steps feeds done)) n).taken }
{}

/// An input stream with a bad line blocks a round where fewer values are to come than the round has supersteps. So one that is
/// filled doesn't, and of one that is read to its end the values that it holds tell.
pub fn blocking_streams_lack_values()
    ensures lack { (core : Core) (good : List (List Value)) (is_bad : ℕ → Bool) (span steps round n : ℕ) (node : NodeC) → slice_get core.nodes n ≡ Some node
        → blocks core good is_bad span steps round n
        ≡ (is_bad n && nat_lt (length (part_of (lockstep core (start core good) (begins span round)) n).coming) (length_of span steps round)) }
    ensures over { (core : Core) (good : List (List Value)) (is_bad : ℕ → Bool) (span steps round n : ℕ) (node : NodeC) → slice_get core.nodes n ≡ Some node
        → (earlier later : ℕ → List Value) (piece : State) → IsPieceOf core earlier later piece (lockstep core (start core good) (begins span round))
        → later n ≡ []
        → blocks core good is_bad span steps round n ≡ (is_bad n && nat_lt (length (part_of piece n).coming) (length_of span steps round)) }
    ensures filled { (core : Core) (good : List (List Value)) (is_bad : ℕ → Bool) (span steps round n : ℕ) (node : NodeC) → slice_get core.nodes n ≡ Some node
        → (earlier later : ℕ → List Value) (piece : State) → IsPieceOf core earlier later piece (lockstep core (start core good) (begins span round))
        → length_of span steps round ≤ length (part_of piece n).coming → blocks core good is_bad span steps round n ≡ false }
{}

/// The stream that blocks a round is the first that does, and the first blocked round is the first that some stream blocks.
pub fn blocked_rounds_are_found()
    ensures stream { (core : Core) (good : List (List Value)) (is_bad : ℕ → Bool) (span steps round n : ℕ) → n < length core.nodes
        → blocks core good is_bad span steps round n ≡ true → ((other : ℕ) → other < n → blocks core good is_bad span steps round other ≡ false)
        → blocking core good is_bad span steps round ≡ Some n }
    ensures no_stream { (core : Core) (good : List (List Value)) (is_bad : ℕ → Bool) (span steps round : ℕ)
        → ((n : ℕ) → n < length core.nodes → blocks core good is_bad span steps round n ≡ false) → blocking core good is_bad span steps round ≡ None }
    ensures round { (core : Core) (good : List (List Value)) (is_bad : ℕ → Bool) (span steps round n : ℕ) → 1 ≤ span → IsRound span steps round
        → blocking core good is_bad span steps round ≡ Some n
        → ((other : ℕ) → 1 ≤ other → other < round → blocking core good is_bad span steps other ≡ None)
        → first_blocked core good is_bad span steps ≡ Some round }
    ensures no_round { (core : Core) (good : List (List Value)) (is_bad : ℕ → Bool) (span steps : ℕ)
        → ((round : ℕ) → 1 ≤ round → round ≤ rounds_of span steps → blocking core good is_bad span steps round ≡ None)
        → first_blocked core good is_bad span steps ≡ None }
{}
