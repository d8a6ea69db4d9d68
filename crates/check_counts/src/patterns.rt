ghost use Rattle.std.specs.Prelude.{◌≡◌, map};
ghost use Rattle.std.specs.List.{list_any};
ghost use Rattle.check_names.specs.Twice.{any_true};
ghost use Rattle.check_counts.specs.Miscounts.{pattern_miscounts as miscounts_in};

use crate::counts::{Counts, is_other};
use hume_ast::Pat;
use hume_base::limits::MAX_PARTS;

/// Whether a constructor in the pattern has a wrong number of arguments, or a tuple too many parts.
#[cycle(pattern_miscounts)]
#[tactic(auto, using(crate::proofs::CountSteps::count_steps))]
pub(crate) fn pattern_miscounts(counts: &Counts, pat: &Pat) -> bool
    ensures { result ≡ miscounts_in counts.now pat.now }
{
    match pat {
        Pat::Name(_) => false,
        Pat::Any => false,
        Pat::Num(_, _) => false,
        Pat::Letter(_) => false,
        Pat::Truth(_) => false,
        Pat::Con(name, parts) => {
            is_other(&counts.constructors, name.bytes(), parts.len())
                || a_pattern_miscounts(counts, parts.as_slice())
        }
        Pat::Paren(part) => pattern_miscounts(counts, part),
        Pat::Tuple(parts) => parts.len() > MAX_PARTS
            || a_pattern_miscounts(counts, parts.as_slice()),
        Pat::Star => false,
        Pat::AnyStar => false,
    }
}

#[cycle(pattern_miscounts)]
#[tactic(auto, using(crate::proofs::CountSteps::count_steps))]
fn a_pattern_miscounts(counts: &Counts, pats: &[Pat]) -> bool
    ensures { result ≡ any_true (map (miscounts_in counts.now) pats.now) }
{
    for pat in pats {
        if pattern_miscounts(counts, pat) {
            return true;
        }
    }
    false
}

/// Whether one of the patterns miscounts.
pub(crate) fn some_pattern_miscounts(counts: &Counts, pats: &[Pat]) -> bool
    ensures { result ≡ list_any (miscounts_in counts.now) pats.now }
{
    for pat in pats {
        if pattern_miscounts(counts, pat) {
            return true;
        }
    }
    false
}
