ghost use Rattle.std.specs.Prelude.{◌≡◌, [], OnOk};
ghost use Rattle.check_names.specs.Unknown.{known_in, is_unknown, mentions_unknown};
ghost use Rattle.check_names.specs.inner.KnownTables.{SameKnown, known_of, known_with};

use crate::adding::{add_declared_names, add_given};
use crate::mention_list::{MentionList, NameKind};
use check_tables::names::NameTable;
use hume_ast::Decl;
use std::alloc::{AllocError, Global};

/// The names that are declared.
#[derive(Drop)]
pub(crate) struct KnownNames<'a> {
    pub(crate) types: NameTable<'a>,
    pub(crate) constructors: NameTable<'a>,
    pub(crate) exceptions: NameTable<'a>,
    pub(crate) functions: NameTable<'a>,
}

/// Adds the names that declarations declare, and those that are there from the start, to empty tables.
pub(crate) fn add_all_known<'a>(
    alloc: Global,
    known: &mut KnownNames<'a>,
    decls: &'a [(u32, Decl)],
) -> Result<(), AllocError>
    requires types { known.old.types ≡ [] }
    requires constructors { known.old.constructors ≡ [] }
    requires exceptions { known.old.exceptions ≡ [] }
    requires functions { known.old.functions ≡ [] }
    ensures { OnOk result (SameKnown (known_of known.new) (known_in decls.now)) }
{
    add_given(&mut known.exceptions)?;
    add_known_in(alloc, known, decls)
}

fn add_known_in<'a>(
    alloc: Global,
    known: &mut KnownNames<'a>,
    decls: &'a [(u32, Decl)],
) -> Result<(), AllocError>
    requires { SameKnown (known_of known.old) (known_in []) }
    ensures { OnOk result (SameKnown (known_of known.new) (known_in decls.now)) }
{
    for d in decls {
        add_known(alloc, known, &d.1)?;
    }
    Ok(())
}

fn add_known<'a>(
    alloc: Global,
    known: &mut KnownNames<'a>,
    decl: &'a Decl,
) -> Result<(), AllocError>
    ensures { OnOk result (SameKnown (known_of known.new) (known_with (known_of known.old) decl.now)) }
{
    add_declared_names(alloc, &mut known.types, NameKind::DataType, decl)?;
    add_declared_names(alloc, &mut known.constructors, NameKind::Constructor, decl)?;
    add_declared_names(alloc, &mut known.exceptions, NameKind::Exception, decl)?;
    add_declared_names(alloc, &mut known.functions, NameKind::Function, decl)?;
    Ok(())
}

impl<'a> KnownNames<'a> {
    fn lacks(&self, kind: NameKind, name: &[u8]) -> bool
        ensures { result ≡ is_unknown (known_of self.now) kind name.now }
    {
        match kind {
            NameKind::DataType => !self.types.has(name),
            NameKind::Constructor => !self.constructors.has(name),
            NameKind::Exception => !self.exceptions.has(name),
            NameKind::Function => !self.functions.has(name),
            NameKind::Unbound => true,
        }
    }

    /// Whether one of the mentioned names is unknown.
    pub(crate) fn lacks_one(&self, mentions: &MentionList) -> bool
        ensures { result ≡ mentions_unknown (known_of self.now) mentions.now }
    {
        for at in 0..mentions.len() {
            let (kind, name) = mentions.get(at);
            if self.lacks(kind, name) {
                return true;
            }
        }
        false
    }
}
