//! Laws of groups of nodes, as contracts of a function that does nothing.
ghost use Rattle.std.specs.Prelude.{◌≡◌, ◌↔◌, ◌⊎◌, ◌<◌, ◌≤◌, ◌*◌, ℕ, Some, slice_get};
ghost use Rattle.hume_net.specs.declared.plan.Plan.{Plan};
ghost use Rattle.hume_net.specs.Plan.{IsPlan, producer_of};
ghost use Rattle.hume_net.specs.Times.{AreBalanced, IsOfSide, mover, wire_time};
ghost use Rattle.superstep_core.specs.Groups.{group_of, IsGrouping, IsInner, quotient, times_by};
ghost use Rattle.superstep_core.specs.Schedules.{AreScheduled};
ghost use Rattle.superstep_core.specs.declared.grouping.Grouping.{Grouping};

/// The groups are the nodes of a plan whose wires are the crossing ones. Times of groups are balanced exactly where the times that they
/// give to the nodes are balanced; these are then the times of a schedule of nodes. A crossing wire has the same time in both plans, and
/// an inner wire has the time of its group. Each wire of a node's side is an inner wire or a wire of its group's side.
pub fn groups_are_nodes_of_a_plan()
    ensures plan { (plan : Plan) (g : Grouping) → IsGrouping plan g → IsPlan plan → IsPlan (quotient plan g) }
    ensures balanced { (plan : Plan) (g : Grouping) → IsGrouping plan g → (times : ℕ → ℕ)
        → (AreBalanced (quotient plan g) times ↔ AreBalanced plan (times_by g times)) }
    ensures scheduled { (plan : Plan) (g : Grouping) → IsGrouping plan g → IsPlan plan → (steps : ℕ) (times : ℕ → ℕ)
        → ((i : ℕ) → i < g.count → times i ≤ 2 * steps) → AreBalanced (quotient plan g) times → AreScheduled plan steps (times_by g times) }
    ensures crossing { (plan : Plan) (g : Grouping) (times : ℕ → ℕ) (c w : ℕ) → slice_get g.crossing c ≡ Some w
        → wire_time (quotient plan g) times c ≡ wire_time plan (times_by g times) w }
    ensures inner { (plan : Plan) (g : Grouping) (times : ℕ → ℕ) (w : ℕ) → IsInner plan g w
        → wire_time plan (times_by g times) w ≡ times (group_of g (producer_of plan w)) }
    ensures member { (plan : Plan) (g : Grouping) → IsGrouping plan g → (time n w : ℕ) → IsOfSide plan time n w
        → IsInner plan g w ⊎ ((c : ℕ) × (slice_get g.crossing c ≡ Some w) × IsOfSide (quotient plan g) time (group_of g n) c) }
    ensures side { (plan : Plan) (g : Grouping) → IsGrouping plan g → (time i c w : ℕ) → slice_get g.crossing c ≡ Some w
        → IsOfSide (quotient plan g) time i c → IsOfSide plan time (mover plan time w) w × (group_of g (mover plan time w) ≡ i) }
{}
