//! Calls of the same words over the same texts.
ghost use Rattle.std.specs.Prelude.{ℕ, List};
ghost use Rattle.hume_ports.specs.Port.{PortView};
ghost use Rattle.hume_calls.specs.declared.status.Status.{Status};
ghost use Rattle.hume_calls.specs.Calls.{HaveSameTexts};
ghost use Rattle.call_laws.specs.EqualCalls.{IsAnswered, IsCall, WriteAlike};

use log_rounds::each_log_has_one_outcome;
use run_rounds::inputs_are_unique;

/// Two calls of the same words, over ports of the same names that tell the same text to read, of which none ends with Fault or NoMemory:
/// they give the same answer, and write the same bytes to each port, whatever it had been given before and however their reads cut
/// the texts.
pub fn equal_calls_write_the_same_bytes()
    ensures { (words : List (List ℕ)) (old new others later : List PortView) (first second : Status) → HaveSameTexts old others
        → IsCall words old new first → IsCall words others later second → IsAnswered first → IsAnswered second
        → WriteAlike old new others later first second }
{
    inputs_are_unique();
    each_log_has_one_outcome();
}
