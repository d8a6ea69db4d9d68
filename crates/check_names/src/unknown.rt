ghost use Rattle.std.specs.Prelude.{◌≡◌, ℕ, ◌<◌, ◌^◌, [], ◌||◌, not, length, IfOk};
ghost use Rattle.std.specs.List.{list_any};
ghost use Rattle.std.specs.Str.{bytes_eq};
ghost use Rattle.hume_base.specs.Least.{IsFirst};
ghost use Rattle.check_names.specs.Mentions as mentioned;
ghost use Rattle.check_names.specs.Unknown.{HasUnknownName, known_in, mentions_unknown, names_otherwise, misses_end};
ghost use Rattle.check_names.specs.inner.KnownTables.{SameKnown, known_of};

use crate::ends::{is_source, is_target};
use crate::known::{KnownNames, add_all_known};
use crate::mention_decls::mentions_of;
use check_tables::names::NameTable;
use hume_ast::{Decl, Exp, Pat, Program};
use hume_base::{List, Text};
use std::alloc::{AllocError, Global};

/// The first declaration that has an unknown name.
pub fn first_unknown(alloc: Global, program: &Program) -> Result<Option<u32>, AllocError>
    requires { length program.now.decls < 2 ^ 32 }
    ensures { IfOk result (IsFirst (HasUnknownName program.now.decls)) }
{
    // Each way out of a function drops what it owns: so the tables are owned here, and lent to what can fail.
    let mut known = KnownNames {
        types: NameTable::new(alloc),
        constructors: NameTable::new(alloc),
        exceptions: NameTable::new(alloc),
        functions: NameTable::new(alloc),
    };
    let first = first_unknown_over(alloc, &mut known, program.decls.as_slice());
    drop(known);
    first
}

fn first_unknown_over<'a>(
    alloc: Global,
    known: &mut KnownNames<'a>,
    decls: &'a [(u32, Decl)],
) -> Result<Option<u32>, AllocError>
    requires few { length decls.now < 2 ^ 32 }
    requires types { known.old.types ≡ [] }
    requires constructors { known.old.constructors ≡ [] }
    requires exceptions { known.old.exceptions ≡ [] }
    requires functions { known.old.functions ≡ [] }
    ensures { IfOk result (IsFirst (HasUnknownName decls.now)) }
{
    add_all_known(alloc, known, decls)?;
    first_lacking(alloc, known, decls)
}

fn first_lacking(
    alloc: Global,
    known: &KnownNames,
    decls: &[(u32, Decl)],
) -> Result<Option<u32>, AllocError>
    requires few { length decls.now < 2 ^ 32 }
    requires known { SameKnown (known_of known.now) (known_in decls.now) }
    ensures { IfOk result (IsFirst (HasUnknownName decls.now)) }
{
    for (i, d) in decls.iter().enumerate() {
        if has_unknown(alloc, known, decls, &d.1)? {
            return Ok(Some(i as u32));
        }
    }
    Ok(None)
}

fn has_unknown(
    alloc: Global,
    known: &KnownNames,
    decls: &[(u32, Decl)],
    decl: &Decl,
) -> Result<bool, AllocError>
    ensures { IfOk result (λ yes. yes ≡ (mentions_unknown (known_of known.now) (mentioned.mentions_of decl.now)
        || (names_otherwise decl.now || misses_end decls.now decl.now))) }
{
    let mentions = mentions_of(alloc, decl)?;
    let lacks = known.lacks_one(&mentions);
    Ok(lacks || (is_named_otherwise(decl) || is_astray(decls, decl)))
}

// Whether an equation has another name than its signature.
fn is_named_otherwise(decl: &Decl) -> bool
    ensures { result ≡ names_otherwise decl.now }
{
    match decl {
        Decl::Fun(name, _, equations) => is_other_equation(name, equations.as_slice()),
        _ => false,
    }
}

fn is_other_equation(name: &Text, equations: &[(Text, List<Pat>, Exp)]) -> bool
    ensures { result ≡ list_any (λ equation. not (bytes_eq equation.0 name.now)) equations.now }
{
    for equation in equations {
        if equation.0.bytes() != name.bytes() {
            return true;
        }
    }
    false
}

// Whether an end of a wire is nowhere.
fn is_astray(decls: &[(u32, Decl)], decl: &Decl) -> bool
    ensures { result ≡ misses_end decls.now decl.now }
{
    match decl {
        Decl::Wire(from, to, _, _) => !is_source(decls, from) || !is_target(decls, to),
        _ => false,
    }
}
