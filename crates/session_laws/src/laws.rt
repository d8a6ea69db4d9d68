//! Laws of sessions, as contracts of functions that do nothing.
ghost use Rattle.std.specs.Prelude.{◌≡◌, [], ℕ, List, Some, slice_get};
ghost use Rattle.hume_base.specs.declared.rule.Refusal.{Refusal};
ghost use Rattle.hume_model.specs.declared.core_tree.Core.{Core};
ghost use Rattle.hume_ports.specs.Delivery.{HasRoom};
ghost use Rattle.hume_ports.specs.Port.{PortView};
ghost use Rattle.port_acts.specs.Early.{read_each};
ghost use Rattle.hume_calls.specs.Reading.{source_reads};
ghost use Rattle.hume_console.specs.declared.ending.Ending.{Ending};
ghost use Rattle.hume_console.specs.declared.ending.Ending.TheVariants.{Fault};
ghost use Rattle.hume_console.specs.Courses.{EndsCourse, first_do};
ghost use Rattle.hume_console.specs.EachPort.{there};
ghost use Rattle.hume_console.specs.Hands.{Hands};
ghost use Rattle.hume_console.specs.Headline.{AnswersFrom, EndsUntold, refused, session_course, session_few};
ghost use Rattle.hume_console.specs.Session.{Offer, Supplies};
ghost use Rattle.session_laws.specs.Faults.{CountRoseOf, GetsNothing, HasSessionFault, IsServedSoFar};
ghost use Rattle.session_laws.specs.OwnActs.{DoesOwnActs};
ghost use Rattle.session_laws.specs.Rooms.{HasRoomFor};

/// A session reads `std_in`, and another port only while an input stream has it. It writes to and finishes `std_out`, and another port only
/// while an output stream has it.
pub fn sessions_touch_their_ports()
    ensures { (core : Core) (supplies : Supplies) (source : List ℕ) (offers : List Offer)
        → DoesOwnActs core (session_course core supplies source offers) }
{}

/// A fault of a session comes only where a count of one of its ports rose, of one that is still there: the read count of the source's
/// port, or that of an act that the session owes: the read count of `std_in` or of a port that an input stream had then, or the write or
/// finish count of `std_out` or of one that an output stream had then.
pub fn session_faults_come_from_their_ports()
    ensures session { (core : Core) (supplies : Supplies) (source text : List ℕ) (offers : List Offer) (old new : Hands)
        → EndsCourse (session_few source text) [] (first_do (read_each (source_reads source)) (session_course core supplies source offers)) old new Fault
        → HasSessionFault core source (session_course core supplies source offers) old new }
    ensures refused { (core : Core) (source text : List ℕ) (refusal : Refusal) (old new : Hands)
        → EndsCourse (session_few source text) [] (first_do (read_each (source_reads source)) (refused refusal)) old new Fault
        → HasSessionFault core source (refused refusal) old new }
    ensures untold { (source : List ℕ) (old new : Hands) → EndsUntold source old new Fault
        → CountRoseOf (λ port. port.read_faults) there source old new }
{}

/// A session over ports that have room for what it owes to them doesn't end with Fault.
pub fn sessions_with_room_have_no_fault()
    ensures answers { (source : List ℕ) (old new : Hands) (ending : Ending) (answers : AnswersFrom source old new ending)
        → HasRoomFor old.ports answers.course → ending ≡ Fault → ⊥ }
    ensures untold { (source : List ℕ) (old new : Hands) (ending : Ending) → EndsUntold source old new ending
        → ((at : ℕ) (port : PortView) → slice_get old.ports at ≡ Some port → HasRoom port 0) → ending ≡ Fault → ⊥ }
{}

/// However a session ends, after a fault too, each port stands where the session leaves it when so many ports have left, and has got a front
/// of what the session owes to it. One that ends when it has only read its source has written nothing.
pub fn each_port_is_served_so_far()
    ensures answers { (source : List ℕ) (old new : Hands) (ending : Ending) (answers : AnswersFrom source old new ending)
        → (at : ℕ) (port : PortView) → slice_get old.ports at ≡ Some port → IsServedSoFar answers.course at port old new }
    ensures untold { (source : List ℕ) (old new : Hands) (ending : Ending) → EndsUntold source old new ending
        → (at : ℕ) (port : PortView) → slice_get old.ports at ≡ Some port → GetsNothing at port new }
{}
