ghost use Rattle.std.specs.Prelude.{◌<◌, ◌^◌, length, IsTrue, IfOk};
ghost use Rattle.hume_base.specs.declared.rule.Rule.TheVariants.{C73};
ghost use Rattle.hume_base.specs.Least.{IsFirst, IsLeast, OfRule};
ghost use Rattle.check_names.specs.Names.{OfDecl};
ghost use Rattle.check_rules.specs.SignaturesOf.{AreSignatures};
ghost use Rattle.check_rules.specs.SizeRules.{HasLargeType};
ghost use Rattle.check_sizes.specs.inner.Large.{has_large_type as has_large_type_in};

use crate::data_sizes::data_sizes;
use crate::declarations::has_large_type;
use check_rules::signatures_are_unique;
use check_scopes::signatures::SignatureTable;
use hume_ast::Decl;
use hume_base::{Finding, Rule};
use std::alloc::{AllocError, Global};

/// The first declaration that writes down or declares a type with too many words, by the signatures of the program.
pub fn first_large_type(
    alloc: Global,
    decls: &[(u32, Decl)],
    table: &SignatureTable,
) -> Result<Option<Finding>, AllocError>
    requires few { length decls.now < 2 ^ 32 }
    requires are { AreSignatures decls.now table.now }
    ensures { IfOk result (IsLeast (OfRule C73 (HasLargeType decls.now))) }
{
    // by this law the rule speaks of the signatures of the table
    signatures_are_unique();
    let sizes = data_sizes(alloc, table.signatures().types.sums.as_slice())?;
    let first = first_large(decls, table, sizes.as_slice());
    Ok(Finding::of(Rule::C73, first))
}

// The first declaration with a type that is too large, by the sizes of data types.
fn first_large(decls: &[(u32, Decl)], table: &SignatureTable, sizes: &[u32]) -> Option<u32>
    requires { length decls.now < 2 ^ 32 }
    ensures { IsFirst (λ i. OfDecl decls.now i (λ decl. IsTrue (has_large_type_in table.now.types sizes.now decl))) result }
{
    for (i, decl) in decls.iter().enumerate() {
        if has_large_type(table, sizes, &decl.1) {
            return Some(i as u32);
        }
    }
    None
}
