//! Declarations by their numbers, and the numbers of the names of data types.
ghost use Rattle.std.specs.Prelude.{◌≡◌, slice_get, option_map, IfOk};
ghost use Rattle.check_typing.specs.Partial.{given};
ghost use Rattle.check_rules.specs.Declared.{data_of};
ghost use Rattle.check_signatures.specs.inner.Named.{data_type_name, numbers_in};

use check_tables::names::NameTable;
use hume_ast::Decl;
use hume_base::Text;
use std::alloc::{AllocError, Global};

/// The declaration of a number.
pub(crate) fn declaration<'a>(decls: &'a [(u32, Decl)], number: u32) -> Option<&'a (u32, Decl)>
    ensures { option_map (λ d. d.now) result ≡ slice_get decls.now number }
{
    decls.get(number as usize)
}

/// The numbers of the names of data types, which go by the order.
#[tactic(auto, using(crate::proofs::Steps::name_steps))]
pub(crate) fn data_type_numbers<'a>(
    alloc: Global,
    decls: &'a [(u32, Decl)],
    order: &[u32],
) -> Result<NameTable<'a>, AllocError>
    ensures { IfOk result (λ names. names ≡ numbers_in decls.now order.now) }
{
    let mut names = NameTable::new(alloc);
    let mut count = 0;
    for number in order {
        if let Some(name) = data_type_named(declaration(decls, *number)) {
            let _is_new = names.add(name.bytes(), count)?;
            count += 1;
        }
    }
    Ok(names)
}

fn data_type_named<'a>(d: Option<&'a (u32, Decl)>) -> Option<&'a Text>
    ensures { option_map (λ name. name.now) result ≡ option_map data_type_name (given (option_map (λ one. one.now) d.entry) data_of) }
{
    match d {
        None => None,
        Some(d) => match &d.1 {
            Decl::Sum(name, _) => Some(name),
            _ => None,
        },
    }
}
