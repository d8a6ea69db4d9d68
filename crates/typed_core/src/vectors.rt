//! How many elements the vectors of a type have.
ghost use Rattle.std.specs.Prelude.{◌≡◌};
ghost use Rattle.typed_core.specs.Erasing.{count_of as count_told};

use hume_base::Ty;

/// How many elements a vector of the type has; none where it isn't one of vectors.
pub fn count_of(ty: &Ty) -> u32
    ensures { result ≡ count_told ty.now }
{
    match ty {
        Ty::Vector(count, _) => *count,
        _ => 0,
    }
}
