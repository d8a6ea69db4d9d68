//! For what a program is refused.
ghost use Rattle.std.specs.Prelude.{◌≡◌, option_map};
ghost use Rattle.hume_check.specs.Refused.{refusal_of, place_of as place_in};

use hume_ast::Decl;
use hume_base::lines::LineTable;
use hume_base::{Finding, Refusal};

/// The broken rule, at the line of the declaration that breaks it.
pub fn refusal(lines: &LineTable, decls: &[(u32, Decl)], finding: Finding) -> Refusal
    ensures { result ≡ refusal_of lines.now decls.now finding }
{
    Refusal {
        rule: finding.rule,
        line: lines.line(place_of(decls.get(finding.declaration as usize))),
    }
}

fn place_of(decl: Option<&(u32, Decl)>) -> u32
    ensures { result ≡ place_in (option_map (λ d. d.now) decl.entry) }
{
    match decl {
        None => 0,
        Some(decl) => decl.0,
    }
}
