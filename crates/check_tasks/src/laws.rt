//! Laws of tasks.
ghost use Rattle.std.specs.Prelude.{◌≡◌, ◌++◌, List, Some, true};
ghost use Rattle.hume_ast.specs.declared.tree.Exp.{Exp};
ghost use Rattle.check_typing.specs.Partial.{given};
ghost use Rattle.check_typing.specs.Signatures.{Scope};
ghost use Rattle.check_typing.specs.Typing.{int32};
ghost use Rattle.check_typing.specs.inner.Walk.{each_own, each_against};
ghost use Rattle.check_typing.specs.declared.signatures.Signatures.{Signatures};
ghost use Rattle.check_tasks.specs.declared.task.Task.{Task};
ghost use Rattle.check_tasks.specs.States.{State};
ghost use Rattle.check_tasks.specs.Tasks.{run, walks, walks_open};

/// Tasks that stand first are done first.
pub fn tasks_are_done_in_order()
    ensures { (first rest : List Task) (state : State) → run (first ++ rest) state ≡ given (run first state) (run rest) }
{}

/// Expressions of one type, all of which are open, are checked against `int 32`.
pub fn open_parts_are_int32()
    ensures { (signatures : Signatures) (scope : Scope) (parts : List Exp) → walks_open (walks signatures parts) ≡ true
        → each_own scope (walks signatures parts) ≡ given (each_against scope (walks signatures parts) int32) (λ cores. Some (int32, cores)) }
{}
