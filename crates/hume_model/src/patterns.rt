//! Which values patterns match.
ghost use Rattle.std.specs.Prelude.{◌≡◌, IfOk};
ghost use Rattle.hume_model.specs.Patterns.{matches, matches_all};

use crate::core_tree::PatC;
use hume_base::{List, Value, copy_value};
use std::alloc::{AllocError, Global};

/// The values of a pattern's variables; none where the value doesn't match.
#[cycle(matched)]
pub fn matched(
    alloc: Global,
    pattern: &PatC,
    value: &Value,
) -> Result<Option<List<Value>>, AllocError>
    ensures { IfOk result (λ found. found ≡ matches pattern.now value.now) }
{
    match pattern {
        PatC::Var => {
            let mut values = List::new(alloc);
            values.push(copy_value(alloc, value)?)?;
            Ok(Some(values))
        }
        PatC::Any => Ok(Some(List::new(alloc))),
        PatC::Word(word) => match value {
            Value::Word(other) if *other == *word => Ok(Some(List::new(alloc))),
            _ => Ok(None),
        },
        PatC::Con(place, parts) => match value {
            Value::Con(other, values) if *other == *place => {
                all_matched(alloc, parts.as_slice(), values.as_slice())
            }
            _ => Ok(None),
        },
        PatC::Tuple(parts) => match value {
            Value::Tuple(values) => all_matched(alloc, parts.as_slice(), values.as_slice()),
            _ => Ok(None),
        },
    }
}

/// The same for several patterns, each with its value.
#[cycle(matched)]
pub fn all_matched(
    alloc: Global,
    patterns: &[PatC],
    values: &[Value],
) -> Result<Option<List<Value>>, AllocError>
    ensures { IfOk result (λ found. found ≡ matches_all patterns.now values.now) }
{
    let mut bound = List::new(alloc);
    for (i, pattern) in patterns.iter().enumerate() {
        let Some(value) = values.get(i) else {
            return Ok(None);
        };
        let Some(more) = matched(alloc, pattern, value)? else {
            return Ok(None);
        };
        bound.append(more)?;
    }
    Ok(Some(bound))
}
