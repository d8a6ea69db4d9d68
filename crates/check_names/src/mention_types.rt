//! The names that types and patterns mention, and the variables that patterns bind.
ghost use Rattle.std.specs.Prelude.{◌≡◌, ◌++◌, map, OnOk};
ghost use Rattle.check_names.specs.Names.{joined};
ghost use Rattle.check_names.specs.Mentions.{type_mentions, types_mentions, variables_of, bound_by, pattern_mentions, patterns_mentions};

use crate::mention_list::{MentionList, NameKind};
use crate::name_list::NameList;
use hume_ast::{Pat, TyExp};
use std::alloc::AllocError;

#[cycle(mention_types)]
#[tactic(auto, using(crate::proofs::MentionSteps::type_steps))]
pub(crate) fn mention_type<'a>(out: &mut MentionList<'a>, ty: &'a TyExp) -> Result<(), AllocError>
    ensures { OnOk result (out.new ≡ out.old ++ type_mentions ty.now) }
{
    match ty {
        TyExp::Bool => Ok(()),
        TyExp::Char => Ok(()),
        TyExp::Int(_) => Ok(()),
        TyExp::Nat(_) => Ok(()),
        TyExp::Vector(_, item) => mention_type(out, item),
        TyExp::Named(name) => out.push(NameKind::DataType, name),
        TyExp::Tuple(parts) => mention_types(out, parts.as_slice()),
    }
}

#[cycle(mention_types)]
#[tactic(auto, using(crate::proofs::MentionSteps::type_steps))]
pub(crate) fn mention_types<'a>(
    out: &mut MentionList<'a>,
    types: &'a [TyExp],
) -> Result<(), AllocError>
    ensures { OnOk result (out.new ≡ out.old ++ types_mentions types.now) }
{
    for ty in types {
        mention_type(out, ty)?;
    }
    Ok(())
}

/// Adds the variables that a pattern binds, from left to right.
#[cycle(bind)]
#[tactic(auto, using(crate::proofs::MentionSteps::pattern_steps))]
pub(crate) fn bind<'a>(scope: &mut NameList<'a>, pattern: &'a Pat) -> Result<(), AllocError>
    ensures { OnOk result (scope.new ≡ scope.old ++ variables_of pattern.now) }
{
    match pattern {
        Pat::Name(name) => scope.push(name),
        Pat::Any => Ok(()),
        Pat::Num(_, _) => Ok(()),
        Pat::Letter(_) => Ok(()),
        Pat::Truth(_) => Ok(()),
        Pat::Con(_, parts) => bind_all(scope, parts.as_slice()),
        Pat::Paren(inner) => bind(scope, inner),
        Pat::Tuple(parts) => bind_all(scope, parts.as_slice()),
        Pat::Star => Ok(()),
        Pat::AnyStar => Ok(()),
    }
}

#[cycle(bind)]
#[tactic(auto, using(crate::proofs::MentionSteps::pattern_steps))]
pub(crate) fn bind_all<'a>(scope: &mut NameList<'a>, patterns: &'a [Pat]) -> Result<(), AllocError>
    ensures { OnOk result (scope.new ≡ scope.old ++ bound_by patterns.now) }
{
    for pattern in patterns {
        bind(scope, pattern)?;
    }
    Ok(())
}

#[cycle(mention_patterns)]
#[tactic(auto, using(crate::proofs::MentionSteps::pattern_steps))]
pub(crate) fn mention_pattern<'a>(
    out: &mut MentionList<'a>,
    pattern: &'a Pat,
) -> Result<(), AllocError>
    ensures { OnOk result (out.new ≡ out.old ++ pattern_mentions pattern.now) }
{
    match pattern {
        Pat::Name(_) => Ok(()),
        Pat::Any => Ok(()),
        Pat::Num(_, _) => Ok(()),
        Pat::Letter(_) => Ok(()),
        Pat::Truth(_) => Ok(()),
        Pat::Con(name, parts) => {
            out.push(NameKind::Constructor, name)?;
            mention_patterns(out, parts.as_slice())
        }
        Pat::Paren(inner) => mention_pattern(out, inner),
        Pat::Tuple(parts) => mention_patterns(out, parts.as_slice()),
        Pat::Star => Ok(()),
        Pat::AnyStar => Ok(()),
    }
}

#[cycle(mention_patterns)]
#[tactic(auto, using(crate::proofs::MentionSteps::pattern_steps))]
pub(crate) fn mention_patterns<'a>(
    out: &mut MentionList<'a>,
    patterns: &'a [Pat],
) -> Result<(), AllocError>
    ensures { OnOk result (out.new ≡ out.old ++ patterns_mentions patterns.now) }
{
    for pattern in patterns {
        mention_pattern(out, pattern)?;
    }
    Ok(())
}
