ghost use Rattle.std.specs.Prelude.{◌≡◌, ◌+◌, ◌<◌, ◌^◌, nat_lt, length, option_map, IsTrue, IfOk};
ghost use Rattle.hume_base.specs.declared.limits.TheConstants.{MAX_WIRE_WORDS as MOST_WORDS};
ghost use Rattle.hume_base.specs.declared.rule.Rule.TheVariants.{C74};
ghost use Rattle.hume_base.specs.Least.{IsFirst, IsLeast, OfRule};
ghost use Rattle.check_names.specs.Names.{OfDecl};
ghost use Rattle.check_rules.specs.CoreOf.{depth_or_one as depth_or_one_of};
ghost use Rattle.check_rules.specs.SignaturesOf.{AreSignatures};
ghost use Rattle.check_rules.specs.SizeRules.{PassesWords};
ghost use Rattle.check_sizes.specs.inner.Passing.{words_at, words_between, passes};

use crate::data_sizes::data_sizes;
use crate::words::{product, words};
use check_rules::signatures_are_unique;
use check_scopes::signatures::SignatureTable;
use check_wires::types::WireTypes;
use hume_ast::Decl;
use hume_base::limits::MAX_WIRE_WORDS;
use hume_base::{Finding, Rule, Ty};
use std::alloc::{AllocError, Global};

/// The first wire with which all wires have too many words, by the signatures of the program.
pub fn first_past_words(
    alloc: Global,
    decls: &[(u32, Decl)],
    table: &SignatureTable,
) -> Result<Option<Finding>, AllocError>
    requires few { length decls.now < 2 ^ 32 }
    requires are { AreSignatures decls.now table.now }
    ensures { IfOk result (IsLeast (OfRule C74 (PassesWords decls.now))) }
{
    // by this law the rule speaks of the signatures of the table
    signatures_are_unique();
    let types = WireTypes::make(alloc, table, decls)?;
    let sizes = data_sizes(alloc, table.signatures().types.sums.as_slice())?;
    let first = first_past(decls, &types, sizes.as_slice());
    Ok(Finding::of(Rule::C74, first))
}

// The first wire with which all wires have too many words, by the types of wires and the sizes of data types.
fn first_past(decls: &[(u32, Decl)], types: &WireTypes, sizes: &[u32]) -> Option<u32>
    requires { length decls.now < 2 ^ 32 }
    ensures { IsFirst (λ i. OfDecl decls.now i (λ decl. IsTrue (passes types.now sizes.now decls.now i decl))) result }
{
    let mut total: u32 = 0;
    for (i, decl) in decls.iter().enumerate() {
        let more = wire_words(types, sizes, &decl.1);
        if goes_past(total, more) {
            return Some(i as u32);
        }
        total += more;
    }
    None
}

fn goes_past(total: u32, more: u32) -> bool
    requires { total + more < 2 ^ 32 }
    ensures { result ≡ nat_lt MOST_WORDS (total + more) }
{
    total + more > MAX_WIRE_WORDS
}

// The words of the values that a wire holds at most; what is no wire has none.
fn wire_words(types: &WireTypes, sizes: &[u32], decl: &Decl) -> u32
    ensures { result ≡ words_at types.now sizes.now decl.now }
{
    match decl {
        Decl::Wire(from, to, depth, _) => {
            words_of_values(sizes, types.between(from, to), depth_or_one(*depth))
        }
        _ => 0,
    }
}

fn words_of_values(sizes: &[u32], ty: Option<&Ty>, depth: u64) -> u32
    ensures { result ≡ words_between sizes.now (option_map (λ ty. ty.now) ty.entry) depth }
{
    match ty {
        None => 0,
        Some(ty) => product(depth, words(sizes, ty)),
    }
}

fn depth_or_one(depth: Option<u64>) -> u64
    ensures { result ≡ depth_or_one_of depth }
{
    match depth {
        None => 1,
        Some(depth) => depth,
    }
}
