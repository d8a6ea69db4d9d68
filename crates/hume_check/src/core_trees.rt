//! The trees of a core, of those of its declarations.
ghost use Rattle.std.specs.Prelude.{◌≡◌, [], ◌∷◌, ◌++◌, ℕ, List as ListOf, map, None, slice_set, IfOk, OnOk};
ghost use Rattle.std.specs.List.{filter_map, cons_option};
ghost use Rattle.hume_ast.specs.declared.tree.Program.{Program};
ghost use Rattle.hume_model.specs.declared.core_tree.Core.{Core};
ghost use Rattle.check_typing.specs.declared.signatures.Signatures.{Signatures};
ghost use Rattle.check_rules.specs.SignaturesOf.{AreSignatures};
ghost use Rattle.check_rules.specs.CheckRules.{IsFine};
ghost use Rattle.check_rules.specs.CoreOf.{IsCoreOf};
ghost use Rattle.typed_core.specs.declared.trees.Trees.{Trees as TreesTold};
ghost use Rattle.typed_core.specs.Trees.{AreTrees};
ghost use Rattle.hume_check.specs.inner.CoreTrees.{AreInOrder, HasNoneTwice, box_trees_of, equations_of, slot_at, trees_in};

use hume_base::List;
use std::alloc::{AllocError, Global};
use typed_core::{BoxTrees, Trees, TypedDeclaration, TypedEquation};

/// The trees of the declarations of a program that breaks no rule, in their orders, are those of its core.
pub(crate) fn trees_are_those_of_the_core()
    ensures { (text : ListOf ℕ) (program : Program) (core : Core) (signatures : Signatures) (order : ListOf ℕ) (trees : TreesTold)
        → IsFine program.decls → IsCoreOf text program core → (are : AreSignatures program.decls signatures) → are.funs.order ≡ order
        → AreInOrder signatures program.decls order trees → AreTrees core trees }
{}

// The trees of equations in the places of their declarations, and those of boxes.
#[derive(Drop)]
pub(crate) struct SortedTrees {
    pub(crate) equations: List<Option<List<TypedEquation>>>,
    pub(crate) boxes: List<BoxTrees>,
}

/// The trees of the functions in the order of their numbers, and those of the boxes in the order of their declarations.
pub(crate) fn core_trees(
    alloc: Global,
    declared: List<TypedDeclaration>,
    order: &[u32],
) -> Result<Trees, AllocError>
    requires { HasNoneTwice order.now }
    ensures { IfOk result (λ trees. trees ≡ trees_in order.now declared) }
{
    let SortedTrees { equations, boxes } = sort_trees(alloc, declared)?;
    let functions = in_order(alloc, equations, order)?;
    Ok(Trees { functions, boxes })
}

fn sort_trees(alloc: Global, declared: List<TypedDeclaration>) -> Result<SortedTrees, AllocError>
    ensures equations { IfOk result (λ sorted. sorted.equations ≡ map equations_of declared) }
    ensures boxes { IfOk result (λ sorted. sorted.boxes ≡ filter_map box_trees_of declared) }
{
    let mut sorted = SortedTrees {
        equations: List::new(alloc),
        boxes: List::new(alloc),
    };
    for trees in declared.into_vec() {
        sort_one(&mut sorted, trees)?;
    }
    Ok(sorted)
}

fn sort_one(sorted: &mut SortedTrees, trees: TypedDeclaration) -> Result<(), AllocError>
    ensures equations { OnOk result (sorted.new.equations ≡ sorted.old.equations ++ equations_of trees ∷ []) }
    ensures boxes { OnOk result (sorted.new.boxes ≡ sorted.old.boxes ++ cons_option (box_trees_of trees) []) }
{
    match trees {
        TypedDeclaration::Equations(equations) => sorted.equations.push(Some(equations)),
        TypedDeclaration::Rules(rules, handlers) => {
            sorted.equations.push(None)?;
            sorted.boxes.push(BoxTrees { rules, handlers })
        }
        TypedDeclaration::NoTrees => sorted.equations.push(None),
    }
}

// What the slots of these numbers hold, in their order.
fn in_order(
    alloc: Global,
    equations: List<Option<List<TypedEquation>>>,
    order: &[u32],
) -> Result<List<List<TypedEquation>>, AllocError>
    requires { HasNoneTwice order.now }
    ensures { IfOk result (λ found. found ≡ filter_map (slot_at equations) order.now) }
{
    let mut slots = equations.into_vec();
    let mut found = List::new(alloc);
    for number in order {
        if let Some(trees) = take_at(&mut slots, *number) {
            found.push(trees)?;
        }
    }
    Ok(found)
}

// What the slot of the number holds, which is then empty.
fn take_at(slots: &mut Vec<Option<List<TypedEquation>>>, number: u32) -> Option<List<TypedEquation>>
    ensures taken { result ≡ slot_at slots.old.items number }
    ensures left { slots.new.items ≡ slice_set slots.old.items number None }
{
    let at = number as usize;
    if at >= slots.len() {
        return None;
    }
    slots[at].take()
}
