//! Laws of the definitions, as contracts of functions that do nothing.
ghost use Rattle.std.specs.Prelude.{◌≡◌, ◌<◌, ◌++◌, ◌∷◌, ℕ, List, [], Result, Some, length, true};
ghost use Rattle.hume_ports.specs.declared.port.Failed.{Failed};
ghost use Rattle.hume_ports.specs.Port.{PortView};
ghost use Rattle.hume_ports.specs.Ports.{is_among, Untouched};
ghost use Rattle.hume_ports.specs.Delivery.{Pairs, Failure, Roomy, Delivered, SameFaults, bytes_for};
ghost use Rattle.port_acts.specs.Acts.{Act, wants, name_of, names_of, count_of, written, wanted, finished, is_finished, write_each, finish_each, FinishesLast};
ghost use Rattle.port_acts.specs.Ends.{Made, Fails, Ends, never, nothing, Owed, EndsAs, NoneRose, bytes_of};
ghost use Rattle.port_acts.specs.Rounds.{round_acts, StandsInRound};
ghost use Rattle.port_acts.specs.Early.{Reads, read_each, names_read, after_reads, Stops, EndsEarly};

/// When a call that wants a number of values of a name has too few of them.
pub trait Measure {
    ghost few: { List ℕ → ℕ → List ℕ → Type 0 };
}

/// Acts that were made, and then others that end in some way, are one list of acts that ends so. A list that fails fails in any
/// longer one. Acts without wants end the same whenever too few values have come.
pub fn acts_in_turn_are_one_list<M: Measure>()
    ensures on { (earlier ts us : Pairs) (ps qs : List Act) (old mid new : List PortView) (result : Result (Unit {0}) Failed)
        → Made ps ts old mid → Ends M.few (earlier ++ ts) qs us mid new result → Ends M.few earlier (ps ++ qs) (ts ++ us) old new result }
    ensures stop { (earlier : Pairs) (ps qs : List Act) (old new : List PortView)
        → Fails M.few earlier ps old new → Fails M.few earlier (ps ++ qs) old new }
    ensures within { (earlier ts : Pairs) (ps : List Act) (act : Act) (rest whole : List Act) (old mid new : List PortView) → whole ≡ ps ++ act ∷ rest
        → Made ps ts old mid → Fails M.few (earlier ++ ts) (act ∷ []) mid new → Fails M.few earlier whole old new }
    ensures any { (earlier taken : Pairs) (acts : List Act) (old new : List PortView) (result : Result (Unit {0}) Failed)
        → Ends never [] acts taken old new result → Ends M.few earlier acts taken old new result }
{}

/// Reads in turn are one want, also none, and also where the last of them fails. A single one that fails fails the want if too few
/// values had come before.
pub fn reads_in_turn_are_one_want<M: Measure>()
    ensures start { (name : List ℕ) (count : ℕ) (ports : List PortView) → Made (wants name count ∷ []) [] ports ports }
    ensures on { (name : List ℕ) (count : ℕ) (ts us : Pairs) (old mid new : List PortView)
        → Made (wants name count ∷ []) ts old mid → Made (wants name count ∷ []) us mid new → Made (wants name count ∷ []) (ts ++ us) old new }
    ensures stop { (earlier ts : Pairs) (name : List ℕ) (count : ℕ) (old mid new : List PortView) → Made (wants name count ∷ []) ts old mid
        → Fails M.few (earlier ++ ts) (wants name count ∷ []) mid new → Fails M.few earlier (wants name count ∷ []) old new }
    ensures single { (earlier : Pairs) (name : List ℕ) (count : ℕ) (old new : List PortView) → M.few name count (bytes_for name earlier)
        → Fails nothing [] (wants name count ∷ []) old new → Fails M.few earlier (wants name count ∷ []) old new }
{}

/// Where each port has room for what is written to it all acts are made.
pub fn acts_with_room_are_made<M: Measure>()
    ensures { (earlier taken : Pairs) (acts : List Act) (old new : List PortView) (result : Result (Unit {0}) Failed)
        → Ends M.few earlier acts taken old new result → Roomy old (written acts) → Made acts taken old new }
{}

/// However acts end, no port is touched that they don't name.
pub fn other_ports_are_untouched<M: Measure>()
    ensures { (earlier taken : Pairs) (acts : List Act) (old new : List PortView) (result : Result (Unit {0}) Failed)
        → Ends M.few earlier acts taken old new result → Untouched (names_of acts) old new }
{}

/// A failure, seen from the ports as they were at first: the count that rose, the bytes read and given by then, and that no port
/// of a later act was touched.
pub fn failures_tell_what_was_done<M: Measure>()
    ensures cause { (earlier : Pairs) (acts : List Act) (old new : List PortView) (fails : Fails M.few earlier acts old new)
        → Failure (count_of fails.act) (name_of fails.act) old new (fails.taken ++ fails.read) (written fails.before ++ fails.given) }
    ensures untouched { (earlier : Pairs) (acts : List Act) (old new : List PortView) (fails : Fails M.few earlier acts old new)
        → Untouched (names_of (fails.before ++ fails.act ∷ [])) old new }
{}

/// Which counts rose tells which act failed. Where only read counts rose it is a want, for which too few values had come. Where only
/// write counts rose some write wasn't made. Where only finish counts rose, and no write comes after a finish, all was written.
pub fn risen_counts_tell_the_act<M: Measure>()
    ensures reads { (earlier : Pairs) (acts : List Act) (old new : List PortView) (fails : Fails M.few earlier acts old new)
        → NoneRose (λ port. port.write_faults) old new → NoneRose (λ port. port.finish_faults) old new
        → (name : List ℕ) × (count : ℕ) × (fails.act ≡ wants name count)
        × M.few name count (bytes_for name (earlier ++ (fails.taken ++ fails.read))) × Delivered old new (written fails.before) }
    ensures writes { (earlier : Pairs) (acts : List Act) (old new : List PortView) (fails : Fails M.few earlier acts old new)
        → NoneRose (λ port. port.read_faults) old new → NoneRose (λ port. port.finish_faults) old new
        → length (written fails.before) < length (written acts) }
    ensures finishes { (earlier : Pairs) (acts : List Act) (old new : List PortView) → Fails M.few earlier acts old new
        → NoneRose (λ port. port.read_faults) old new → NoneRose (λ port. port.write_faults) old new → FinishesLast acts
        → Delivered old new (written acts) }
{}

/// In acts that go on by rounds, each of which reads first and then writes, a want is among the reads of one round, and before it
/// exactly the earlier rounds have written.
pub fn wants_stand_in_rounds()
    ensures { (reading writing : ℕ → List Act) → ((round : ℕ) → written (reading round) ≡ []) → ((round : ℕ) → wanted (writing round) ≡ [])
        → (rounds : List ℕ) (before later : List Act) (name : List ℕ) (count : ℕ)
        → round_acts reading writing rounds ≡ before ++ wants name count ∷ later
        → StandsInRound reading writing rounds before (wants name count) }
{}

/// A call that makes writes and then finishes writes what its pairs say, leaves each port flushed that it finishes, and has no write
/// after a finish.
pub fn finishes_come_last()
    ensures writes { (pairs : Pairs) → written (write_each pairs) ≡ pairs }
    ensures silent { (names : List (List ℕ)) → written (finish_each names) ≡ [] }
    ensures flushed { (acts : List Act) (names : List (List ℕ)) (name : List ℕ) → is_among name names ≡ true
        → is_finished name (acts ++ finish_each names) ≡ true }
    ensures last { (acts : List Act) (names : List (List ℕ)) → finished acts ≡ [] → FinishesLast (acts ++ finish_each names) }
    ensures writes_finish_nothing { (pairs : Pairs) → finished (write_each pairs) ≡ [] }
    ensures reads_finish_nothing { (reads : Reads) → finished (read_each reads) ≡ [] }
{}

/// A call that ends early has written nothing and touched no port but those that it read. If it has no fault, no count has changed.
pub fn early_ends_write_nothing<M: Measure, Status>()
    ensures delivered { (reads : Reads) (no_memory fault status : Status) (old new : List PortView)
        → EndsEarly M.few reads no_memory fault old new status → Delivered old new [] }
    ensures untouched { (reads : Reads) (no_memory fault status : Status) (old new : List PortView)
        → EndsEarly M.few reads no_memory fault old new status → Untouched (names_read reads) old new }
    ensures quiet { (reads : Reads) (no_memory fault status : Status) (old new : List PortView)
        → EndsEarly M.few reads no_memory fault old new status → (status ≡ fault → ⊥) → SameFaults old new }
{}

/// Reads that were made come before those at which memory runs out or one fails, and before the acts that are owed.
pub fn early_reads_come_first<M: Measure>()
    ensures stops { (ts : Pairs) (ps qs : List Act) (old mid new : List PortView) → Made ps ts old mid → written ps ≡ []
        → Stops qs mid new → Stops (ps ++ qs) old new }
    ensures stop { (ps qs : List Act) (old new : List PortView) → Stops ps old new → Stops (ps ++ qs) old new }
    ensures in_turn { (first second : Reads) → read_each (first ++ second) ≡ read_each first ++ read_each second }
    ensures silent { (reads : Reads) → written (read_each reads) ≡ [] }
{}

/// Reads and what is owed after them are one call. If a read fails, the call fails whatever is owed.
pub fn calls_begin_with_their_reads<M: Measure, Status>()
    ensures made { (reads : Reads) (owed : Owed Status) (fault : Status) (ts us : Pairs) (old mid new : List PortView)
        → Made (read_each reads) ts old mid → Made owed.acts us mid new → EndsAs M.few (after_reads reads owed) fault old new owed.answer }
    ensures failed { (reads : Reads) (owed : Owed Status) (fault : Status) (ts : Pairs) (old mid new : List PortView)
        → Made (read_each reads) ts old mid → Fails M.few ts owed.acts mid new → EndsAs M.few (after_reads reads owed) fault old new fault }
    ensures early { (reads : Reads) (owed : Owed Status) (fault : Status) (old new : List PortView)
        → Fails M.few [] (read_each reads) old new → EndsAs M.few (after_reads reads owed) fault old new fault }
{}

/// The same acts and the same answer are the same owed. Two calls that owe the same, and have no fault, give the same answer, and the
/// same bytes to each port that tells them.
pub fn calls_that_owe_the_same_end_alike<M: Measure, Status>()
    ensures same { (a b : Owed Status) → a.acts ≡ b.acts → a.answer ≡ b.answer → a ≡ b }
    ensures alike { (owed : Owed Status) (fault status other : Status) (old new others later : List PortView)
        → EndsAs M.few owed fault old new status → EndsAs M.few owed fault others later other → (status ≡ fault → ⊥) → (other ≡ fault → ⊥)
        → (status ≡ other) × ((name had : List ℕ) → bytes_of name old ≡ Some had → bytes_of name others ≡ Some had
        → bytes_of name new ≡ bytes_of name later) }
{}
