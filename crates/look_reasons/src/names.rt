//! Names that are declared twice.
ghost use Rattle.std.specs.Prelude.{◌≡◌, ◌⊎◌, ◌↔◌, IsSome, IsTrue};
ghost use Rattle.look_sources.specs.Pages.{Grows};
ghost use Rattle.look_reasons.specs.Names.{HasNamesake, IsGiven, name_of_part};

use crate::reason::Reason;
use crate::site::Site;
use look_sources::{Sort, Span};

// The space of a declared name, from 1; that of a space of one declaration is over 10.
fn space_of(sort: Sort) -> u32 {
    match sort {
        Sort::TypeName => 1,
        Sort::ConstructorName => 2,
        Sort::FunctionName => 3,
        Sort::NodeName => 4,
        Sort::Input | Sort::Output => 11,
        Sort::HandledName => 12,
        _ => 0,
    }
}

fn are_in_one_space(first: &Span, second: &Span) -> bool {
    let space = space_of(first.sort);
    space > 0
        && space == space_of(second.sort)
        && (space < 10 || first.declaration == second.declaration)
}

/// Whether the name is that of an exception of every program.
pub(crate) fn is_given(name: &[u8]) -> bool
    ensures { IsTrue result ↔ IsGiven name.now }
{
    name == b"DivZero".as_slice() || name == b"Range".as_slice() || name == b"NoCase".as_slice()
}

/// Whether the part is a name that is declared before in its space.
pub fn is_repeated(site: &Site, span: &Span) -> bool
    ensures { IsTrue result → IsGiven (name_of_part site.now span.now) ⊎ HasNamesake site.now span.now }
{
    if space_of(span.sort) == 0 {
        return false;
    }
    if span.sort == Sort::ConstructorName && is_given(site.name(span.first)) {
        return true;
    }
    earlier(site, span).is_some()
}

/// Tells the first name of the line that is declared again, and where it was declared before.
#[tactic(auto, using(look_sources::proofs::Growing::growing))]
pub fn tell_repeated(site: &Site, reason: &mut Reason)
    ensures head { reason.new.head ≡ reason.old.head }
    ensures note { Grows reason.old.note reason.new.note }
{
    for span in site.spans {
        if !site.is_here(span) || space_of(span.sort) == 0 {
            continue;
        }
        let name = site.name(span.first);
        if span.sort == Sort::ConstructorName && is_given(name) {
            reason.here = Some(site.place(span.first));
            put_given(name, reason);
            return;
        }
        if let Some(before) = earlier(site, span) {
            reason.here = Some(site.place(span.first));
            put_before(name, site.line(before.first), reason);
            return;
        }
    }
}

#[tactic(auto, using(look_sources::proofs::Growing::growing))]
fn put_given(name: &[u8], reason: &mut Reason)
    ensures head { reason.new.head ≡ reason.old.head }
    ensures note { Grows reason.old.note reason.new.note }
{
    reason.note.put(b"  `");
    reason.note.put(name);
    reason.note.put(b"` is an exception of every program\n");
}

#[tactic(auto, using(look_sources::proofs::Growing::growing))]
fn put_before(name: &[u8], line: u32, reason: &mut Reason)
    ensures head { reason.new.head ≡ reason.old.head }
    ensures note { Grows reason.old.note reason.new.note }
{
    reason.note.put(b"  `");
    reason.note.put(name);
    reason.note.put(b"` is declared before, in line ");
    reason.note.number(u64::from(line));
    reason.note.put(b"\n");
}

// The earlier name of the same space that is the same.
#[tactic(auto, using(crate::proofs::Sites::is_namesake))]
fn earlier(site: &Site, span: &Span) -> Option<Span>
    ensures { IsSome result → HasNamesake site.now span.now }
{
    let name = site.name(span.first);
    for other in site.spans {
        if other.first >= span.first {
            return None;
        }
        if are_in_one_space(other, span) && site.name(other.first) == name {
            return Some(*other);
        }
    }
    None
}
