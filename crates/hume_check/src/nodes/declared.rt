//! What a function and a box declare, and their trees.
ghost use Rattle.std.specs.Prelude.{◌≡◌, slice_get};
ghost use Rattle.typed_core.specs.declared.typed_tree.TypedDeclaration.TheVariants.{Rules};
ghost use Rattle.check_typing.specs.Partial.{given};
ghost use Rattle.check_typing.specs.Declarations.{HasTrees};
ghost use Rattle.check_typing.specs.declared.signatures.Signatures.{Signatures};
ghost use Rattle.check_rules.specs.Declared.{function_of};
ghost use Rattle.hume_check.specs.inner.Trees.{HaveTrees};
ghost use Rattle.hume_check.specs.nodes.inner.Parts.{AreOfBox, HasPartsIfOne};

use hume_ast::{Decl, TyExp};
use hume_base::Text;
use typed_core::{TypedDeclaration, TypedEquation, TypedHandler, TypedRule};

/// A function: the place of its first token, and the trees of its equations.
#[derive(Clone, Copy)]
pub(crate) struct FunctionParts<'a> {
    pub(crate) place: u32,
    pub(crate) equations: &'a [TypedEquation],
}

/// A box: its name, its inputs and outputs, whether it is fair, and the trees of its rules and of its handlers.
#[derive(Clone, Copy)]
pub(crate) struct BoxParts<'a> {
    pub(crate) name: &'a Text,
    pub(crate) inputs: &'a [(Text, TyExp)],
    pub(crate) outputs: &'a [(Text, TyExp)],
    pub(crate) is_fair: bool,
    pub(crate) rules: &'a [TypedRule],
    pub(crate) handlers: &'a [TypedHandler],
}

/// The function that the declaration of a number declares.
pub(crate) fn function_declared<'a>(
    decls: &[(u32, Decl)],
    trees: &'a [TypedDeclaration],
    number: u32,
) -> Option<FunctionParts<'a>>
    ensures { (signatures : Signatures) → HaveTrees signatures decls.now trees.now
        → HasPartsIfOne signatures (given (slice_get decls.now number) function_of) result }
{
    let d = decls.get(number as usize)?;
    let trees = trees.get(number as usize)?;
    function_parts(d, trees)
}

fn function_parts<'a>(d: &(u32, Decl), trees: &'a TypedDeclaration) -> Option<FunctionParts<'a>>
    ensures { (signatures : Signatures) → HasTrees signatures d.now.1 trees.now
        → HasPartsIfOne signatures (function_of d.now) result }
{
    match trees {
        TypedDeclaration::Equations(equations) => Some(FunctionParts {
            place: d.0,
            equations: equations.as_slice(),
        }),
        TypedDeclaration::Rules(_, _) => None,
        TypedDeclaration::NoTrees => None,
    }
}

/// The trees of the rules and of the handlers of a box.
pub(crate) fn box_trees<'a>(trees: &'a TypedDeclaration) -> (&'a [TypedRule], &'a [TypedHandler])
    requires { AreOfBox trees.now }
    ensures { trees.now ≡ Rules result.0.now result.1.now }
{
    match trees {
        TypedDeclaration::Rules(rules, handlers) => (rules.as_slice(), handlers.as_slice()),
        _ => unreachable!(),
    }
}
