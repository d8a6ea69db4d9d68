//! The names that a declaration mentions.
ghost use Rattle.std.specs.Prelude.{◌≡◌, [], ◌++◌, map, IfOk, OnOk};
ghost use Rattle.check_names.specs.Names.{joined};
ghost use Rattle.check_names.specs.Mentions as mentioned;

use crate::mention_exps::mention_exp;
use crate::mention_list::{MentionList, NameKind};
use crate::mention_types::{bind, bind_all, mention_patterns, mention_type, mention_types};
use crate::name_list::NameList;
use hume_ast::{Decl, Exp, Pat, TyExp};
use hume_base::{List, Text};
use std::alloc::{AllocError, Global};

pub(crate) fn mentions_of<'a>(alloc: Global, decl: &'a Decl) -> Result<MentionList<'a>, AllocError>
    ensures { IfOk result (λ list. list ≡ mentioned.mentions_of decl.now) }
{
    let mut out = MentionList::new(alloc);
    mention_decl(alloc, &mut out, decl)?;
    Ok(out)
}

fn mention_decl<'a>(
    alloc: Global,
    out: &mut MentionList<'a>,
    decl: &'a Decl,
) -> Result<(), AllocError>
    ensures { OnOk result (out.new ≡ out.old ++ mentioned.mentions_of decl.now) }
{
    match decl {
        Decl::Sum(_, constructors) => mention_constructors(out, constructors.as_slice()),
        Decl::Exn(_, None) => Ok(()),
        Decl::Exn(_, Some(carried)) => mention_type(out, carried),
        Decl::Fun(_, types, equations) => mention_function(alloc, out, types, equations),
        Decl::BoxD(_, inputs, outputs, _, rules, handlers) => {
            mention_all_ports(out, inputs, outputs)?;
            mention_results(alloc, out, rules, handlers)
        }
        Decl::Stream(_, _, _) => Ok(()),
        Decl::Wire(_, _, _, None) => Ok(()),
        Decl::Wire(_, _, _, Some(initial)) => mention_initial(alloc, out, initial),
    }
}

fn mention_constructors<'a>(
    out: &mut MentionList<'a>,
    constructors: &'a [(Text, List<TyExp>)],
) -> Result<(), AllocError>
    ensures { OnOk result (out.new ≡ out.old ++ joined (map (λ constructor. mentioned.types_mentions constructor.1) constructors.now)) }
{
    for constructor in constructors {
        mention_types(out, constructor.1.as_slice())?;
    }
    Ok(())
}

fn mention_function<'a>(
    alloc: Global,
    out: &mut MentionList<'a>,
    types: &'a List<TyExp>,
    equations: &'a List<(Text, List<Pat>, Exp)>,
) -> Result<(), AllocError>
    ensures { OnOk result (out.new ≡ out.old ++ (mentioned.types_mentions types.now
        ++ joined (map (λ equation. mentioned.clause_mentions equation.1 equation.2) equations.now))) }
{
    mention_types(out, types.as_slice())?;
    mention_equations(alloc, out, equations.as_slice())
}

fn mention_all_ports<'a>(
    out: &mut MentionList<'a>,
    inputs: &'a List<(Text, TyExp)>,
    outputs: &'a List<(Text, TyExp)>,
) -> Result<(), AllocError>
    ensures { OnOk result (out.new ≡ out.old ++ (joined (map (λ input. mentioned.type_mentions input.1) inputs.now)
        ++ joined (map (λ output. mentioned.type_mentions output.1) outputs.now))) }
{
    mention_ports(out, inputs.as_slice())?;
    mention_ports(out, outputs.as_slice())
}

// Of its rules and its handlers.
fn mention_results<'a>(
    alloc: Global,
    out: &mut MentionList<'a>,
    rules: &'a List<(List<Pat>, Exp)>,
    handlers: &'a List<(Text, Option<Pat>, Exp)>,
) -> Result<(), AllocError>
    ensures { OnOk result (out.new ≡ out.old ++ (joined (map (λ rule. mentioned.clause_mentions rule.0 rule.1) rules.now)
        ++ joined (map mentioned.handler_mentions handlers.now))) }
{
    mention_rules(alloc, out, rules.as_slice())?;
    mention_handlers(alloc, out, handlers.as_slice())
}

fn mention_equations<'a>(
    alloc: Global,
    out: &mut MentionList<'a>,
    equations: &'a [(Text, List<Pat>, Exp)],
) -> Result<(), AllocError>
    ensures { OnOk result (out.new ≡ out.old ++ joined (map (λ equation. mentioned.clause_mentions equation.1 equation.2) equations.now)) }
{
    for equation in equations {
        mention_clause(alloc, out, equation.1.as_slice(), &equation.2)?;
    }
    Ok(())
}

fn mention_ports<'a>(
    out: &mut MentionList<'a>,
    ports: &'a [(Text, TyExp)],
) -> Result<(), AllocError>
    ensures { OnOk result (out.new ≡ out.old ++ joined (map (λ port. mentioned.type_mentions port.1) ports.now)) }
{
    for port in ports {
        mention_type(out, &port.1)?;
    }
    Ok(())
}

fn mention_rules<'a>(
    alloc: Global,
    out: &mut MentionList<'a>,
    rules: &'a [(List<Pat>, Exp)],
) -> Result<(), AllocError>
    ensures { OnOk result (out.new ≡ out.old ++ joined (map (λ rule. mentioned.clause_mentions rule.0 rule.1) rules.now)) }
{
    for rule in rules {
        mention_clause(alloc, out, rule.0.as_slice(), &rule.1)?;
    }
    Ok(())
}

// Patterns, and an expression in which their variables are in scope.
fn mention_clause<'a>(
    alloc: Global,
    out: &mut MentionList<'a>,
    patterns: &'a [Pat],
    exp: &'a Exp,
) -> Result<(), AllocError>
    ensures { OnOk result (out.new ≡ out.old ++ mentioned.clause_mentions patterns.now exp.now) }
{
    mention_patterns(out, patterns)?;
    let mut scope = NameList::new(alloc);
    bind_all(&mut scope, patterns)?;
    mention_exp(&mut scope, out, exp)
}

fn mention_handlers<'a>(
    alloc: Global,
    out: &mut MentionList<'a>,
    handlers: &'a [(Text, Option<Pat>, Exp)],
) -> Result<(), AllocError>
    ensures { OnOk result (out.new ≡ out.old ++ joined (map mentioned.handler_mentions handlers.now)) }
{
    for handler in handlers {
        out.push(NameKind::Exception, &handler.0)?;
        mention_handled(alloc, out, &handler.1, &handler.2)?;
    }
    Ok(())
}

fn mention_handled<'a>(
    alloc: Global,
    out: &mut MentionList<'a>,
    pattern: &'a Option<Pat>,
    exp: &'a Exp,
) -> Result<(), AllocError>
    ensures { OnOk result (out.new ≡ out.old ++ mentioned.mentions exp.now (mentioned.handler_variables pattern.now)) }
{
    let mut scope = NameList::new(alloc);
    if let Some(pattern) = pattern {
        bind(&mut scope, pattern)?;
    }
    mention_exp(&mut scope, out, exp)
}

fn mention_initial<'a>(
    alloc: Global,
    out: &mut MentionList<'a>,
    initial: &'a Exp,
) -> Result<(), AllocError>
    ensures { OnOk result (out.new ≡ out.old ++ mentioned.mentions initial.now []) }
{
    let mut scope = NameList::new(alloc);
    mention_exp(&mut scope, out, initial)
}
