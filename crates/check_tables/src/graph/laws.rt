//! Laws of the definitions, as contracts of functions that do nothing.
ghost use Rattle.std.specs.Prelude.{◌≡◌, ◌↔◌, ℕ, ◌<◌, List, length, take, slice_index_or, Contains};
ghost use Rattle.check_tables.specs.graph.Cycles.{LeadsTo, InCycle};
ghost use Rattle.check_tables.specs.graph.Orders.{IsOrder, HasAll};

/// No graph has two orders.
pub fn orders_are_unique()
    ensures { (graph : List (List ℕ)) (a b : List ℕ) → IsOrder graph a → IsOrder graph b → a ≡ b }
{}

/// Each node of an order leads only to earlier ones.
pub fn orders_go_up()
    ensures { (graph : List (List ℕ)) (order : List ℕ) → IsOrder graph order
        → (k b : ℕ) → k < length order → LeadsTo graph (slice_index_or order k 0) b → Contains (take k order) b }
{}

/// All nodes have a number exactly where none is in a cycle.
pub fn orders_have_all_where_nothing_is_in_a_cycle()
    ensures { (graph : List (List ℕ)) (order : List ℕ) → IsOrder graph order → HasAll graph order ↔ ((a : ℕ) → InCycle graph a → ⊥) }
{}
