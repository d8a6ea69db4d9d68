ghost use Rattle.std.specs.Prelude.{◌≡◌, ◌||◌, List, ℕ, Option};
ghost use Rattle.std.specs.List.{list_any};
ghost use Rattle.hume_ast.specs.declared.tree.TyExp.{TyExp as TypeTree};
ghost use Rattle.hume_ast.specs.declared.tree.Pat.{Pat as PatternTree};
ghost use Rattle.hume_ast.specs.declared.tree.Exp.{Exp as ExpressionTree};
ghost use Rattle.check_counts.specs.Stars.{has_star as star_in, has_stray_star as stray_star_in};
ghost use Rattle.check_counts.specs.CountRules.{equation_miscounts, rule_miscounts, handler_miscounts, bound_values, depth_is_outside as is_deep, initial_miscounts as initial_miscounts_in, type_if_there, some_type_miscounts as some_type_miscounts_in, places_miscount, declaration_miscounts as miscounts_in, star_if_there, declaration_has_stray_star as stray_in};

use crate::counts::{Counts, is_other, parameter_count};
use crate::expressions::miscounts;
use crate::patterns::some_pattern_miscounts;
use crate::results::result_miscounts;
use crate::stars::{has_star, has_stray_star};
use crate::types::{is_outside, some_type_miscounts, type_miscounts};
use hume_ast::{Decl, Exp, Pat, TyExp};
use hume_base::limits::MAX_WIRE_DEPTH;
use hume_base::{List, Text};

/// Whether in a declaration there are too many or too few of something.
pub(crate) fn declaration_miscounts(counts: &Counts, decl: &Decl) -> bool
    ensures { result ≡ miscounts_in counts.now decl.now }
{
    match decl {
        Decl::Sum(_, cons) => constructors_miscount(cons.as_slice()),
        Decl::Exn(_, ty) => carried_type_miscounts(ty),
        Decl::Fun(_, tys, equations) => {
            some_type_miscounts(tys.as_slice())
                || equations_miscount(
                    counts,
                    parameter_count(tys.as_slice()),
                    equations.as_slice(),
                )
        }
        Decl::BoxD(_, ins, outs, _, rules, handlers) => {
            let sides = (ins.len(), outs.len());
            let bodies = bodies_miscount(counts, sides, rules.as_slice(), handlers.as_slice());
            sides_miscount(ins.as_slice(), outs.as_slice()) || bodies
        }
        Decl::Stream(_, _, _) => false,
        Decl::Wire(_, _, depth, initial) => depth_is_outside(depth)
            || initial_miscounts(counts, initial),
    }
}

fn constructors_miscount(cons: &[(Text, List<TyExp>)]) -> bool
    ensures { result ≡ list_any (λ (con : List ℕ × List TypeTree). some_type_miscounts_in con.1) cons.now }
{
    for con in cons {
        if some_type_miscounts(con.1.as_slice()) {
            return true;
        }
    }
    false
}

fn carried_type_miscounts(ty: &Option<TyExp>) -> bool
    ensures { result ≡ type_if_there ty.now }
{
    match ty {
        None => false,
        Some(ty) => type_miscounts(ty),
    }
}

fn equations_miscount(
    counts: &Counts,
    parameters: usize,
    equations: &[(Text, List<Pat>, Exp)],
) -> bool
    ensures { result ≡ list_any (equation_miscounts counts.now parameters) equations.now }
{
    for equation in equations {
        if equation.1.len() != parameters
            || (some_pattern_miscounts(counts, equation.1.as_slice())
                || miscounts(counts, &equation.2))
        {
            return true;
        }
    }
    false
}

fn sides_miscount(ins: &[(Text, TyExp)], outs: &[(Text, TyExp)]) -> bool
    ensures { result ≡ (places_miscount ins.now || places_miscount outs.now) }
{
    types_miscount(ins) || types_miscount(outs)
}

// Of a box with so many inputs and outputs.
fn bodies_miscount(
    counts: &Counts,
    sides: (usize, usize),
    rules: &[(List<Pat>, Exp)],
    handlers: &[(Text, Option<Pat>, Exp)],
) -> bool
    ensures { result ≡ (list_any (rule_miscounts counts.now sides.0 sides.1) rules.now || list_any (handler_miscounts counts.now sides.1) handlers.now) }
{
    rules_miscount(counts, sides, rules) || handlers_miscount(counts, sides.1, handlers)
}

fn types_miscount(places: &[(Text, TyExp)]) -> bool
    ensures { result ≡ places_miscount places.now }
{
    for place in places {
        if type_miscounts(&place.1) {
            return true;
        }
    }
    false
}

fn rules_miscount(counts: &Counts, sides: (usize, usize), rules: &[(List<Pat>, Exp)]) -> bool
    ensures { result ≡ list_any (rule_miscounts counts.now sides.0 sides.1) rules.now }
{
    for rule in rules {
        if rule.0.len() != sides.0
            || (some_pattern_miscounts(counts, rule.0.as_slice())
                || result_miscounts(counts, sides.1, &rule.1))
        {
            return true;
        }
    }
    false
}

fn handlers_miscount(counts: &Counts, outputs: usize, handlers: &[(Text, Option<Pat>, Exp)]) -> bool
    ensures { result ≡ list_any (handler_miscounts counts.now outputs) handlers.now }
{
    for handler in handlers {
        if is_other(
            &counts.exceptions,
            handler.0.bytes(),
            bound_count(&handler.1),
        ) || result_miscounts(counts, outputs, &handler.2)
        {
            return true;
        }
    }
    false
}

fn bound_count(pat: &Option<Pat>) -> usize
    ensures { result ≡ bound_values pat.now }
{
    match pat {
        None => 0,
        Some(_) => 1,
    }
}

fn depth_is_outside(depth: &Option<u64>) -> bool
    ensures { result ≡ is_deep depth.now }
{
    match depth {
        None => false,
        Some(depth) => is_outside(MAX_WIRE_DEPTH as u64, *depth),
    }
}

fn initial_miscounts(counts: &Counts, initial: &Option<Exp>) -> bool
    ensures { result ≡ initial_miscounts_in counts.now initial.now }
{
    match initial {
        None => false,
        Some(initial) => miscounts(counts, initial),
    }
}

/// Whether a `*` in the declaration is no output.
pub(crate) fn declaration_has_stray_star(decl: &Decl) -> bool
    ensures { result ≡ stray_in decl.now }
{
    match decl {
        Decl::Sum(_, _) => false,
        Decl::Exn(_, _) => false,
        Decl::Fun(_, _, equations) => equations_have_star(equations.as_slice()),
        Decl::BoxD(_, _, outs, _, rules, handlers) => {
            rules_have_stray_star(outs.len(), rules.as_slice())
                || handlers_have_stray_star(outs.len(), handlers.as_slice())
        }
        Decl::Stream(_, _, _) => false,
        Decl::Wire(_, _, _, initial) => initial_has_star(initial),
    }
}

fn equations_have_star(equations: &[(Text, List<Pat>, Exp)]) -> bool
    ensures { result ≡ list_any (λ (equation : List ℕ × List PatternTree × ExpressionTree). star_in equation.2) equations.now }
{
    for equation in equations {
        if has_star(&equation.2) {
            return true;
        }
    }
    false
}

fn rules_have_stray_star(outputs: usize, rules: &[(List<Pat>, Exp)]) -> bool
    ensures { result ≡ list_any (λ (rule : List PatternTree × ExpressionTree). stray_star_in outputs rule.1) rules.now }
{
    for rule in rules {
        if has_stray_star(outputs, &rule.1) {
            return true;
        }
    }
    false
}

fn handlers_have_stray_star(outputs: usize, handlers: &[(Text, Option<Pat>, Exp)]) -> bool
    ensures { result ≡ list_any (λ (handler : List ℕ × Option PatternTree × ExpressionTree). stray_star_in outputs handler.2) handlers.now }
{
    for handler in handlers {
        if has_stray_star(outputs, &handler.2) {
            return true;
        }
    }
    false
}

fn initial_has_star(initial: &Option<Exp>) -> bool
    ensures { result ≡ star_if_there initial.now }
{
    match initial {
        None => false,
        Some(initial) => has_star(initial),
    }
}
