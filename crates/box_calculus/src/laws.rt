//! Laws of scripts, as contracts of functions that do nothing.
ghost use Rattle.std.specs.Prelude.{◌≡◌, ℕ, List, None, Ok};
ghost use Rattle.hume_base.specs.Least.{IsLeast};
ghost use Rattle.hume_model.specs.declared.core_tree.Core.{Core};
ghost use Rattle.hume_model.specs.HandlerRules.{BreaksHandlers};
ghost use Rattle.hume_model.specs.WellFormed.{IsWellFormed};
ghost use Rattle.hume_model.specs.WireRules.{BreaksWires};
ghost use Rattle.hume_model.specs.Wiring.{IsWired, WiresAgree};
ghost use Rattle.hume_net.specs.declared.state.State.{State};
ghost use Rattle.hume_net.specs.Lockstep.{lockstep};
ghost use Rattle.hume_net.specs.StatePlaces.{BoxesHandleAll};
ghost use Rattle.calculus_laws.specs.Orders.{HasWrittenOrders};
ghost use Rattle.box_calculus.specs.Kept.{HasSameNet};
ghost use Rattle.box_calculus.specs.Scripts.{scripted};

/// A script changes no run: after any number of supersteps the whole state is the same, from each state whose unfair boxes have
/// the written order. That is then the written order of the new core too.
pub fn scripts_keep_runs()
    ensures runs { (core new : Core) (script : List ℕ) → IsWellFormed core → scripted core script ≡ Ok new
        → (state : State) → HasWrittenOrders core state → (k : ℕ) → lockstep new state k ≡ lockstep core state k }
    ensures orders { (core new : Core) (script : List ℕ) → scripted core script ≡ Ok new
        → (state : State) → HasWrittenOrders core state → HasWrittenOrders new state }
{}

/// A script keeps a core well formed and wired, and breaks no rule on wires and handlers that the core keeps. So each box still
/// handles what its rules raise.
pub fn scripts_keep_cores_sound()
    ensures formed { (core new : Core) (script : List ℕ) → IsWellFormed core → scripted core script ≡ Ok new → IsWellFormed new }
    ensures wired { (core new : Core) (script : List ℕ) → IsWired core → scripted core script ≡ Ok new → IsWired new }
    ensures agree { (core new : Core) (script : List ℕ) → WiresAgree core → scripted core script ≡ Ok new → WiresAgree new }
    ensures wires { (core new : Core) (script : List ℕ) → IsWellFormed core → IsLeast (BreaksWires core) None → scripted core script ≡ Ok new
        → IsLeast (BreaksWires new) None }
    ensures handlers { (core new : Core) (script : List ℕ) → IsWellFormed core → IsLeast (BreaksHandlers core) None → scripted core script ≡ Ok new
        → IsLeast (BreaksHandlers new) None }
    ensures handled { (core new : Core) (script : List ℕ) → IsWellFormed core → IsLeast (BreaksHandlers core) None → scripted core script ≡ Ok new
        → BoxesHandleAll new }
{}

/// A script changes nothing of a core but its functions and the rules of its boxes.
pub fn scripts_keep_nets()
    ensures { (core new : Core) (script : List ℕ) → scripted core script ≡ Ok new → HasSameNet core new }
{}
