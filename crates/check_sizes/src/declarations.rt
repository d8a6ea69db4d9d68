//! Declarations with a type that is too large.
ghost use Rattle.std.specs.Prelude.{◌≡◌, ℕ, List, map};
ghost use Rattle.std.specs.List.{list_any, flat_map};
ghost use Rattle.hume_ast.specs.declared.tree.TyExp.{TyExp as TypeTree};
ghost use Rattle.check_typing.specs.Declarations.{WrittenEquation, WrittenRule, WrittenHandler};
ghost use Rattle.check_rules.specs.SizeRules.{carried_type, initial_types, written_in};
ghost use Rattle.check_sizes.specs.inner.Large.{is_large as is_large_type, is_large_data as is_large_data_type, has_large_type as has_large_type_in};

use crate::casts::has_large_cast;
use crate::written_words::{is_large, is_large_size, named_words};
use check_scopes::signatures::SignatureTable;
use hume_ast::{Decl, Exp, Pat, TyExp};
use hume_base::{List, Text};

/// Whether a type that the declaration writes down or declares is too large.
#[tactic(auto, using(crate::proofs::Steps::cast_steps))]
pub(crate) fn has_large_type(table: &SignatureTable, sizes: &[u32], decl: &Decl) -> bool
    ensures { result ≡ has_large_type_in table.now.types sizes.now decl.now }
{
    match decl {
        Decl::Sum(name, cons) => a_field_is_large(table, sizes, cons.as_slice())
            || is_large_data(table, sizes, name),
        Decl::Exn(_, carried) => carried_is_large(table, sizes, carried),
        Decl::Fun(_, tys, equations) => one_is_large(table, sizes, tys.as_slice())
            || an_equation_has(table, sizes, equations.as_slice()),
        Decl::BoxD(_, inputs, outputs, _, rules, handlers) => {
            a_place_is_large(table, sizes, inputs.as_slice())
                || (a_place_is_large(table, sizes, outputs.as_slice())
                    || (a_rule_has(table, sizes, rules.as_slice())
                        || a_handler_has(table, sizes, handlers.as_slice())))
        }
        Decl::Stream(_, _, _) => false,
        Decl::Wire(_, _, _, initial) => initial_has(table, sizes, initial),
    }
}

#[tactic(auto, using(crate::proofs::Steps::data_steps))]
fn is_large_data(table: &SignatureTable, sizes: &[u32], name: &Text) -> bool
    ensures { result ≡ is_large_data_type table.now.types sizes.now name.now }
{
    is_large_size(named_words(sizes, table.data_type(name.bytes())))
}

#[tactic(auto, using(crate::proofs::Steps::cast_steps))]
fn a_field_is_large(table: &SignatureTable, sizes: &[u32], cons: &[(Text, List<TyExp>)]) -> bool
    ensures { result ≡ list_any (is_large_type table.now.types sizes.now) (flat_map (λ (con : List ℕ × List TypeTree). con.1) cons.now) }
{
    for con in cons {
        if one_is_large(table, sizes, con.1.as_slice()) {
            return true;
        }
    }
    false
}

fn one_is_large(table: &SignatureTable, sizes: &[u32], tys: &[TyExp]) -> bool
    ensures { result ≡ list_any (is_large_type table.now.types sizes.now) tys.now }
{
    for ty in tys {
        if is_large(table, sizes, ty) {
            return true;
        }
    }
    false
}

fn carried_is_large(table: &SignatureTable, sizes: &[u32], carried: &Option<TyExp>) -> bool
    ensures { result ≡ list_any (is_large_type table.now.types sizes.now) (carried_type carried.now) }
{
    match carried {
        None => false,
        Some(ty) => is_large(table, sizes, ty),
    }
}

fn initial_has(table: &SignatureTable, sizes: &[u32], initial: &Option<Exp>) -> bool
    ensures { result ≡ list_any (is_large_type table.now.types sizes.now) (initial_types initial.now) }
{
    match initial {
        None => false,
        Some(e) => has_large_cast(table, sizes, e),
    }
}

fn a_place_is_large(table: &SignatureTable, sizes: &[u32], places: &[(Text, TyExp)]) -> bool
    ensures { result ≡ list_any (is_large_type table.now.types sizes.now) (map (λ (place : List ℕ × TypeTree). place.1) places.now) }
{
    for place in places {
        if is_large(table, sizes, &place.1) {
            return true;
        }
    }
    false
}

#[tactic(auto, using(crate::proofs::Steps::cast_steps))]
fn an_equation_has(
    table: &SignatureTable,
    sizes: &[u32],
    equations: &[(Text, List<Pat>, Exp)],
) -> bool
    ensures { result ≡ list_any (is_large_type table.now.types sizes.now) (flat_map (λ (equation : WrittenEquation). written_in equation.2) equations.now) }
{
    for equation in equations {
        if has_large_cast(table, sizes, &equation.2) {
            return true;
        }
    }
    false
}

#[tactic(auto, using(crate::proofs::Steps::cast_steps))]
fn a_rule_has(table: &SignatureTable, sizes: &[u32], rules: &[(List<Pat>, Exp)]) -> bool
    ensures { result ≡ list_any (is_large_type table.now.types sizes.now) (flat_map (λ (rule : WrittenRule). written_in rule.1) rules.now) }
{
    for rule in rules {
        if has_large_cast(table, sizes, &rule.1) {
            return true;
        }
    }
    false
}

#[tactic(auto, using(crate::proofs::Steps::cast_steps))]
fn a_handler_has(
    table: &SignatureTable,
    sizes: &[u32],
    handlers: &[(Text, Option<Pat>, Exp)],
) -> bool
    ensures { result ≡ list_any (is_large_type table.now.types sizes.now) (flat_map (λ (handler : WrittenHandler). written_in handler.2) handlers.now) }
{
    for handler in handlers {
        if has_large_cast(table, sizes, &handler.2) {
            return true;
        }
    }
    false
}
