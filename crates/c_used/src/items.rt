//! The declarations that are used.
ghost use Rattle.std.specs.Prelude.{◌≡◌, [], reverse, IfOk};
ghost use Rattle.c_used.specs.Uses.{Name};
ghost use Rattle.c_used.specs.Kept.{have_declaration, is_among, is_kept, kept, use_it, with_kept};
ghost use Rattle.c_used.specs.inner.Kept.{has_declaration};

use crate::declarations::{add_item, is_kept_by};
use crate::names::Names;
use c_tree::CItem;
use hume_base::List;
use std::alloc::{AllocError, Global};

/// The declarations without those that aren't used, and without comments of parts in which nothing is left.
pub fn used_items(alloc: Global, items: List<CItem>) -> Result<List<CItem>, AllocError>
    ensures { IfOk result (λ used. used ≡ kept items) }
{
    let mut items = items.into_vec();
    let mut behind = Behind::new(alloc);
    while let Some(item) = items.pop() {
        behind = behind.with(item)?;
    }
    Ok(behind.into_list())
}

/// What is kept behind a place of the file.
#[derive(Drop)]
struct Behind {
    /// From the end.
    items: Vec<CItem>,
    /// What they use.
    names: Names,
    /// Whether a declaration stands before the next part.
    some: bool,
    ghost used: { (name : Name) → is_among names name ≡ use_it (reverse items.items) name },
    ghost begins: { some ≡ have_declaration (reverse items.items) },
}

impl Behind {
    fn new(alloc: Global) -> Behind
        ensures { result.items.items ≡ [] }
    {
        Behind {
            items: Vec::new(alloc),
            names: Names::new(alloc),
            some: false,
        }
    }

    fn keeps(&self, item: &CItem) -> bool
        ensures { result ≡ is_kept item.now (reverse self.now.items.items) }
    {
        is_kept_by(&self.names, self.some, item)
    }

    fn with(self, item: CItem) -> Result<Behind, AllocError>
        ensures { IfOk result (λ behind. reverse behind.items.items ≡ with_kept item (reverse self.items.items)) }
    {
        if !self.keeps(&item) {
            return Ok(self);
        }
        let Behind {
            mut items,
            mut names,
            some,
        } = self;
        let some = has_declaration(&item, some);
        add_item(&mut names, &item)?;
        items.push(item)?;
        Ok(Behind { items, names, some })
    }

    fn into_list(self) -> List<CItem>
        ensures { result ≡ reverse self.items.items }
    {
        let Behind {
            mut items,
            names: _,
            some: _,
        } = self;
        items.reverse();
        List::from_vec(items)
    }
}

/// Whether a declaration stands before the next part, from this on, by whether one stands behind this.
fn has_declaration(item: &CItem, behind: bool) -> bool
    ensures { result ≡ has_declaration item.now behind }
{
    match item {
        CItem::Part(_) => false,
        CItem::Comment(_) => behind,
        _ => true,
    }
}
