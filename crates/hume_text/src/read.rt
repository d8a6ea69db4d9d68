//! The value whose text a line is.
ghost use Rattle.std.specs.Prelude.{◌≡◌, ◌↔◌, IsTrue, true, length};
ghost use Rattle.hume_base.specs.declared.types.Value.{Value};
ghost use Rattle.hume_base.specs.Flat.{flat};
ghost use Rattle.hume_base.specs.Sizes.{size_of, HaveTheirSizes};
ghost use Rattle.hume_base.specs.Values.{is_value};
ghost use Rattle.hume_text.specs.Bounds.{IsPrintable};
ghost use Rattle.hume_text.specs.Names.{HaveNames};
ghost use Rattle.hume_text.specs.Read.{IsReadable, IsTextOf};

use crate::tokens::skip_blanks;
use crate::walk::read_front;
use hume_base::{Ty, Types};

/// Whether a line is a text of a value of the type, whose flat words are then put. It takes no memory.
pub fn read_value(types: &Types, ty: &Ty, line: &[u8], into: &mut [u64]) -> bool
    requires sizes { HaveTheirSizes types.now }
    requires names { HaveNames types.now }
    requires printable { IsPrintable types.now ty.now }
    requires room { length into.old ≡ size_of types.now ty.now }
    ensures readable { IsTrue result ↔ IsReadable types.now ty.now line.now }
    ensures words { IsTrue result → (value : Value) → is_value types.now ty.now value ≡ true
        → IsTextOf types.now ty.now line.now value → into.new ≡ flat types.now ty.now value }
    ensures room { length into.new ≡ length into.old }
{
    match read_front(types, types.sums.len(), ty, line, into, 0) {
        None => false,
        Some((_, rest)) => skip_blanks(rest).is_empty(),
    }
}
