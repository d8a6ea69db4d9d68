//! Laws of the definitions, as contracts of functions that do nothing.
ghost use Rattle.std.specs.Prelude.{◌≡◌, ◌≤◌, ◌+◌, ◌*◌, ℕ, List, [], length, ◌++◌, map, Option, None, Some, true, Result, slice_get};
ghost use Rattle.std.specs.List.{list_all};
ghost use Rattle.hume_base.specs.declared.limits.TheConstants.{MAX_EMPTY_LINES};
ghost use Rattle.hume_base.specs.declared.types.Ty.{Ty};
ghost use Rattle.hume_base.specs.declared.types.Types.{Types};
ghost use Rattle.hume_base.specs.declared.types.Value.{Value};
ghost use Rattle.hume_base.specs.Flat.{flat};
ghost use Rattle.hume_base.specs.Sizes.{HaveTheirSizes, size_of};
ghost use Rattle.hume_base.specs.Values.{is_value};
ghost use Rattle.hume_text.specs.Bounds.{IsPrintable};
ghost use Rattle.hume_text.specs.Names.{HaveNames};
ghost use Rattle.hume_text.specs.Printed.{AreWordsOf};
ghost use Rattle.hume_ports.specs.Port.{PortView};
ghost use Rattle.hume_streams.specs.declared.log.OutLog.{OutLog};
ghost use Rattle.hume_streams.specs.declared.queue.FillError.{FillError};
ghost use Rattle.hume_streams.specs.declared.queue.InQueue.{InQueue};
ghost use Rattle.hume_streams.specs.Lines.{whole_lines};
ghost use Rattle.hume_streams.specs.Good.{IsGoodUntil};
ghost use Rattle.hume_streams.specs.Logs.{log_view};
ghost use Rattle.hume_streams.specs.Queues.{QueueView, IsQueueOf, queue_view, rebound, without_values};
ghost use Rattle.hume_streams.specs.Fills.{Fills, HasReadWholeLines};

/// Each text has good values and a first bad line, or none.
pub fn each_text_has_good_values()
    ensures { (types : Types) (ty : Ty) (text : List ℕ) → HaveTheirSizes types → HaveNames types → IsPrintable types ty
        → (good : List Value) × (bad : Option ℕ) × IsGoodUntil types ty text good bad }
{}

/// A text has its good values and its first bad line once.
pub fn good_values_are_unique()
    ensures { (types : Types) (ty : Ty) (text : List ℕ) (good values : List Value) (bad other : Option ℕ) → HaveNames types
        → IsGoodUntil types ty text good bad → IsGoodUntil types ty text values other → (good ≡ values) × (bad ≡ other) }
{}

/// Few lines stand before a bad one, as no more empty ones than are allowed stand in a row.
pub fn bad_lines_have_small_numbers()
    ensures { (types : Types) (ty : Ty) (text : List ℕ) (good : List Value) (number : ℕ) → IsGoodUntil types ty text good (Some number)
        → number ≤ (length good + 1) * (MAX_EMPTY_LINES + 1) }
{}

/// A queue is right for a text with the values that it holds exactly where it is right without them, when they count as given.
pub fn queues_are_right_without_what_they_hold()
    ensures without { (types : Types) (ty : Ty) (queue : QueueView) (text rest : List ℕ) (given : List Value) → IsQueueOf types ty queue text given rest
        → (held : List Value) × (queue.values ≡ map (flat types ty) held) × IsQueueOf types ty (without_values queue) text (given ++ held) rest }
    ensures with { (types : Types) (ty : Ty) (queue : QueueView) (text rest : List ℕ) (given held : List Value) → queue.values ≡ map (flat types ty) held
        → IsQueueOf types ty (without_values queue) text (given ++ held) rest → IsQueueOf types ty queue text given rest }
{}

/// A queue that goes on with another port is right for every text of that port, of which it has read nothing.
pub fn rebound_queues_are_right_for_each_text()
    ensures { (types : Types) (ty : Ty) (queue : QueueView) (text : List ℕ) → IsQueueOf types ty (without_values (rebound queue)) text [] text }
{}

/// What a queue gave and holds is the first of the good values of each text for which it is right.
pub fn queues_hold_the_next_values()
    ensures { (types : Types) (ty : Ty) (queue : QueueView) (text rest : List ℕ) (given good : List Value) (bad : Option ℕ) → HaveNames types
        → IsQueueOf types ty queue text given rest → IsGoodUntil types ty text good bad
        → (held later : List Value) × (queue.values ≡ map (flat types ty) held) × (good ≡ given ++ (held ++ later)) }
{}

/// Of a port that tells what it has left, a queue that is right for it before a fill is right for it behind the fill.
pub fn fills_follow_ports_that_tell()
    ensures { (types : Types) (ty : Ty) (want : ℕ) (old new : QueueView) (before after : PortView) (result : Result (Unit {0}) FillError)
        (text left rest : List ℕ) (given : List Value)
        → Fills types ty want old new before after result → before.left ≡ Some left → after.left ≡ Some rest
        → IsQueueOf types ty old text given left → IsQueueOf types ty new text given rest }
{}

/// What a queue gave and holds behind a read that failed are the good values of the whole lines that were taken from its port.
pub fn queues_hold_whole_lines()
    ensures { (types : Types) (ty : Ty) (queue : QueueView) (taken : List ℕ) (given : List Value) → HasReadWholeLines queue
        → ((rest : List ℕ) → IsQueueOf types ty queue (taken ++ rest) given rest)
        → (held : List Value) × (queue.values ≡ map (flat types ty) held) × IsGoodUntil types ty (whole_lines taken) (given ++ held) None }
{}

/// Each row of a queue and of a log has as many words as its values have.
pub fn rows_have_one_width()
    ensures queues { (queue : InQueue) (place : ℕ) (words : List ℕ) → slice_get (queue_view queue).values place ≡ Some words
        → length words ≡ (queue_view queue).width }
    ensures logs { (log : OutLog) (place : ℕ) (words : List ℕ) → slice_get (log_view log).values place ≡ Some words
        → length words ≡ (log_view log).width }
{}

/// The rows of a queue that is right for a text are the words of values of its type, as many in each as the type's size.
pub fn queues_hold_words_of_their_type()
    ensures values { (types : Types) (ty : Ty) (queue : QueueView) (text rest : List ℕ) (given : List Value) → IsQueueOf types ty queue text given rest
        → (place : ℕ) (words : List ℕ) → slice_get queue.values place ≡ Some words → (value : Value) × AreWordsOf types ty words value }
    ensures width { (types : Types) (ty : Ty) (queue : QueueView) (text rest : List ℕ) (given : List Value) → IsQueueOf types ty queue text given rest
        → (place : ℕ) (words : List ℕ) → slice_get queue.values place ≡ Some words → length words ≡ size_of types ty }
{}

/// Rows that are the words of values of a type, as a log holds those that an output stream has taken, have each as many words as
/// the type's size.
pub fn rows_of_values_have_the_size_of_their_type()
    ensures values { (types : Types) (ty : Ty) (values : List Value) → list_all (is_value types ty) values ≡ true
        → (place : ℕ) (words : List ℕ) → slice_get (map (flat types ty) values) place ≡ Some words → (value : Value) × AreWordsOf types ty words value }
    ensures width { (types : Types) (ty : Ty) (values : List Value) → list_all (is_value types ty) values ≡ true
        → (place : ℕ) (words : List ℕ) → slice_get (map (flat types ty) values) place ≡ Some words → length words ≡ size_of types ty }
{}
