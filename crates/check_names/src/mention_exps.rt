//! The names that expressions mention.
ghost use Rattle.std.specs.Prelude.{◌≡◌, [], ◌∷◌, ◌++◌, map, OnOk};
ghost use Rattle.check_names.specs.Mentions.{mentions, all_in, alternatives_in, application, pattern_mentions, type_mentions, variables_of};
ghost use Rattle.check_names.specs.inner.Alternatives.{alternative_with};
ghost use Rattle.check_names.specs.declared.mention_list.NameKind.TheVariants.{Constructor, Exception};

use crate::mention_list::{MentionList, NameKind};
use crate::mention_types::{bind, mention_pattern, mention_type};
use crate::name_list::NameList;
use hume_ast::{Exp, Pat, TyExp};
use hume_base::{Box, List, Text};
use std::alloc::AllocError;

/// Adds the names that an expression mentions, where these variables are in scope.
#[cycle(mention_exps)]
#[tactic(auto, using(crate::proofs::MentionSteps::exp_steps))]
pub(crate) fn mention_exp<'a>(
    scope: &mut NameList<'a>,
    out: &mut MentionList<'a>,
    exp: &'a Exp,
) -> Result<(), AllocError>
    ensures scope { OnOk result (scope.new ≡ scope.old) }
    ensures out { OnOk result (out.new ≡ out.old ++ mentions exp.now scope.old) }
{
    match exp {
        Exp::Let(name, value, body) => mention_let(scope, out, name, value, body),
        Exp::If(test, first, second) => mention_three(scope, out, test, first, second),
        Exp::Case(subject, alternatives) => mention_case(scope, out, subject, alternatives),
        Exp::Raise(name, None) => out.push(NameKind::Exception, name),
        Exp::Raise(name, Some(value)) => mention_raise(scope, out, name, value),
        Exp::Binary(_, left, right) => mention_two(scope, out, left, right),
        Exp::Neg(part) => mention_part(scope, out, part),
        Exp::Not(part) => mention_part(scope, out, part),
        Exp::App(name, parts) => mention_application(scope, out, name, parts),
        Exp::Con(name, parts) => mention_construction(scope, out, name, parts),
        Exp::Update(vector, at, item) => mention_three(scope, out, vector, at, item),
        Exp::Num(_, _) => Ok(()),
        Exp::Letter(_) => Ok(()),
        Exp::Truth(_) => Ok(()),
        Exp::Paren(inner) => mention_part(scope, out, inner),
        Exp::Tuple(parts) => mention_exps(scope, out, parts),
        Exp::Cast(inner, ty) => mention_cast(scope, out, inner, ty),
        Exp::Vect(items) => mention_exps(scope, out, items),
        Exp::Star => Ok(()),
    }
}

// All parts come here from their boxes.
#[cycle(mention_exps)]
fn mention_part<'a>(
    scope: &mut NameList<'a>,
    out: &mut MentionList<'a>,
    part: &'a Box<Exp>,
) -> Result<(), AllocError>
    ensures scope { OnOk result (scope.new ≡ scope.old) }
    ensures out { OnOk result (out.new ≡ out.old ++ mentions part.now scope.old) }
{
    mention_exp(scope, out, part.get())
}

#[cycle(mention_exps)]
fn mention_let<'a>(
    scope: &mut NameList<'a>,
    out: &mut MentionList<'a>,
    name: &'a Text,
    value: &'a Box<Exp>,
    body: &'a Box<Exp>,
) -> Result<(), AllocError>
    ensures scope { OnOk result (scope.new ≡ scope.old) }
    ensures out { OnOk result (out.new ≡ out.old ++ (mentions value.now scope.old ++ mentions body.now (scope.old ++ name.now ∷ []))) }
{
    mention_part(scope, out, value)?;
    let count = scope.len();
    scope.push(name)?;
    mention_part(scope, out, body)?;
    scope.leave(count);
    Ok(())
}

#[cycle(mention_exps)]
fn mention_two<'a>(
    scope: &mut NameList<'a>,
    out: &mut MentionList<'a>,
    left: &'a Box<Exp>,
    right: &'a Box<Exp>,
) -> Result<(), AllocError>
    ensures scope { OnOk result (scope.new ≡ scope.old) }
    ensures out { OnOk result (out.new ≡ out.old ++ (mentions left.now scope.old ++ mentions right.now scope.old)) }
{
    mention_part(scope, out, left)?;
    mention_part(scope, out, right)
}

#[cycle(mention_exps)]
fn mention_three<'a>(
    scope: &mut NameList<'a>,
    out: &mut MentionList<'a>,
    first: &'a Box<Exp>,
    second: &'a Box<Exp>,
    third: &'a Box<Exp>,
) -> Result<(), AllocError>
    ensures scope { OnOk result (scope.new ≡ scope.old) }
    ensures out { OnOk result (out.new ≡ out.old ++ (mentions first.now scope.old ++ (mentions second.now scope.old ++ mentions third.now scope.old))) }
{
    mention_part(scope, out, first)?;
    mention_part(scope, out, second)?;
    mention_part(scope, out, third)
}

#[cycle(mention_exps)]
fn mention_raise<'a>(
    scope: &mut NameList<'a>,
    out: &mut MentionList<'a>,
    name: &'a Text,
    value: &'a Box<Exp>,
) -> Result<(), AllocError>
    ensures scope { OnOk result (scope.new ≡ scope.old) }
    ensures out { OnOk result (out.new ≡ out.old ++ (Exception, name.now) ∷ mentions value.now scope.old) }
{
    out.push(NameKind::Exception, name)?;
    mention_part(scope, out, value)
}

#[cycle(mention_exps)]
fn mention_cast<'a>(
    scope: &mut NameList<'a>,
    out: &mut MentionList<'a>,
    inner: &'a Box<Exp>,
    ty: &'a TyExp,
) -> Result<(), AllocError>
    ensures scope { OnOk result (scope.new ≡ scope.old) }
    ensures out { OnOk result (out.new ≡ out.old ++ (mentions inner.now scope.old ++ type_mentions ty.now)) }
{
    mention_part(scope, out, inner)?;
    mention_type(out, ty)
}

#[cycle(mention_exps)]
fn mention_construction<'a>(
    scope: &mut NameList<'a>,
    out: &mut MentionList<'a>,
    name: &'a Text,
    parts: &'a List<Exp>,
) -> Result<(), AllocError>
    ensures scope { OnOk result (scope.new ≡ scope.old) }
    ensures out { OnOk result (out.new ≡ out.old ++ (Constructor, name.now) ∷ all_in (map mentions parts.now) scope.old) }
{
    out.push(NameKind::Constructor, name)?;
    mention_exps(scope, out, parts)
}

#[cycle(mention_exps)]
#[tactic(auto, using(crate::proofs::MentionSteps::exp_steps))]
fn mention_application<'a>(
    scope: &mut NameList<'a>,
    out: &mut MentionList<'a>,
    name: &'a Text,
    parts: &'a List<Exp>,
) -> Result<(), AllocError>
    ensures scope { OnOk result (scope.new ≡ scope.old) }
    ensures out { OnOk result (out.new ≡ out.old ++ application name.now (map mentions parts.now) scope.old) }
{
    if parts.as_slice().is_empty() {
        return mention_variable(scope, out, name);
    }
    out.push(NameKind::Function, name)?;
    mention_exps(scope, out, parts)
}

fn mention_variable<'a>(
    scope: &NameList<'a>,
    out: &mut MentionList<'a>,
    name: &'a Text,
) -> Result<(), AllocError>
    ensures { OnOk result (out.new ≡ out.old ++ application name.now [] scope.now) }
{
    if scope.has(name.bytes()) {
        return Ok(());
    }
    out.push(NameKind::Unbound, name)
}

#[cycle(mention_exps)]
#[tactic(auto, using(crate::proofs::MentionSteps::exp_steps))]
fn mention_exps<'a>(
    scope: &mut NameList<'a>,
    out: &mut MentionList<'a>,
    exps: &'a List<Exp>,
) -> Result<(), AllocError>
    ensures scope { OnOk result (scope.new ≡ scope.old) }
    ensures out { OnOk result (out.new ≡ out.old ++ all_in (map mentions exps.now) scope.old) }
{
    for exp in exps.as_slice() {
        mention_exp(scope, out, exp)?;
    }
    Ok(())
}

#[cycle(mention_exps)]
#[tactic(auto, using(crate::proofs::MentionSteps::exp_steps))]
fn mention_case<'a>(
    scope: &mut NameList<'a>,
    out: &mut MentionList<'a>,
    subject: &'a Box<Exp>,
    alternatives: &'a List<(Pat, Exp)>,
) -> Result<(), AllocError>
    ensures scope { OnOk result (scope.new ≡ scope.old) }
    ensures out { OnOk result (out.new ≡ out.old ++ (mentions subject.now scope.old ++ alternatives_in (map alternative_with alternatives.now) scope.old)) }
{
    mention_part(scope, out, subject)?;
    mention_alternatives(scope, out, alternatives)
}

#[cycle(mention_exps)]
#[tactic(auto, using(crate::proofs::MentionSteps::exp_steps))]
fn mention_alternatives<'a>(
    scope: &mut NameList<'a>,
    out: &mut MentionList<'a>,
    alternatives: &'a List<(Pat, Exp)>,
) -> Result<(), AllocError>
    ensures scope { OnOk result (scope.new ≡ scope.old) }
    ensures out { OnOk result (out.new ≡ out.old ++ alternatives_in (map alternative_with alternatives.now) scope.old) }
{
    for alternative in alternatives.as_slice() {
        mention_alternative(scope, out, &alternative.0, &alternative.1)?;
    }
    Ok(())
}

#[cycle(mention_exps)]
fn mention_alternative<'a>(
    scope: &mut NameList<'a>,
    out: &mut MentionList<'a>,
    pattern: &'a Pat,
    exp: &'a Exp,
) -> Result<(), AllocError>
    ensures scope { OnOk result (scope.new ≡ scope.old) }
    ensures out { OnOk result (out.new ≡ out.old ++ (pattern_mentions pattern.now ++ mentions exp.now (scope.old ++ variables_of pattern.now))) }
{
    mention_pattern(out, pattern)?;
    let count = scope.len();
    bind(scope, pattern)?;
    mention_exp(scope, out, exp)?;
    scope.leave(count);
    Ok(())
}
