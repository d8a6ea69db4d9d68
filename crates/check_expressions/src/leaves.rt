//! Expressions without parts.
ghost use Rattle.std.specs.Prelude.{◌≡◌, Some, None, OnOk, IfErr};
ghost use Rattle.check_scopes.specs.types.Contexts.{top};
ghost use Rattle.check_typing.specs.inner.Walk.{literal_walk, letter_walk, truth_walk};
ghost use Rattle.check_tasks.specs.States.{scope_in, types_in};
ghost use Rattle.check_tasks.specs.Tasks.{own_of, against_of};
ghost use Rattle.check_expressions.specs.declared.stop.Stop.TheVariants.{NoType, NoMemory};

use crate::elaboration::Elaboration;
use crate::literals::{is_no_char, literal_of, truth_word};
use crate::stop::Stop;
use check_scopes::types::Node;

/// A number against the last type.
#[tactic(auto, using(crate::proofs::Steps::shape_steps))]
pub(crate) fn number_against(at: &mut Elaboration, negative: bool, amount: u64) -> Result<(), Stop>
    ensures ok { OnOk result (against_of ((literal_walk negative amount).against (scope_in at.old) (top (types_in at.old))) at.old ≡ Some at.new) }
    ensures none { IfErr result (λ stop. stop ≡ NoType → (literal_walk negative amount).against (scope_in at.old) (top (types_in at.old)) ≡ None) }
{
    let shape = at.environment.shape()?;
    match literal_of(shape, negative, amount) {
        None => Err(Stop::NoType),
        Some((word, too_wide)) => {
            at.builder.word(word, too_wide)?;
            Ok(())
        }
    }
}

/// A number by itself.
#[tactic(auto, using(crate::proofs::Steps::shape_steps))]
pub(crate) fn number_own(at: &mut Elaboration, negative: bool, amount: u64) -> Result<(), Stop>
    ensures ok { OnOk result (own_of ((literal_walk negative amount).own (scope_in at.old)) at.old ≡ Some at.new) }
    ensures none { IfErr result (λ stop. stop ≡ NoType → (literal_walk negative amount).own (scope_in at.old) ≡ None) }
{
    at.environment.push(Node::Int(32))?;
    number_against(at, negative, amount)
}

/// A letter by itself.
#[tactic(auto, using(crate::proofs::Steps::type_steps))]
pub(crate) fn letter_own(at: &mut Elaboration, byte: u8) -> Result<(), Stop>
    ensures ok { OnOk result (own_of ((letter_walk byte).own (scope_in at.old)) at.old ≡ Some at.new) }
    ensures none { IfErr result (λ stop. stop ≡ NoMemory) }
{
    at.environment.push(Node::Char)?;
    at.builder.word(u64::from(byte), is_no_char(byte))?;
    Ok(())
}

/// `true` or `false` by itself.
#[tactic(auto, using(crate::proofs::Steps::type_steps))]
pub(crate) fn truth_own(at: &mut Elaboration, truth: bool) -> Result<(), Stop>
    ensures ok { OnOk result (own_of ((truth_walk truth).own (scope_in at.old)) at.old ≡ Some at.new) }
    ensures none { IfErr result (λ stop. stop ≡ NoMemory) }
{
    at.environment.push(Node::Bool)?;
    at.builder.word(truth_word(truth), false)?;
    Ok(())
}
