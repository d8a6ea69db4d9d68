// What is refused before a run of what a script makes.
ghost use Rattle.std.specs.Prelude.{◌≡◌, ℕ, List, map, IfOk, IfErr, OnOk, None};
ghost use Rattle.hume_base.specs.Least.{IsLeast};
ghost use Rattle.hume_model.specs.WellFormed.{HasSoundFrame};
ghost use Rattle.box_costs.specs.CostRules.{BreaksCosts};
ghost use Rattle.space_costs.specs.NodeCosts.{AreCosts, IsCostError};
ghost use Rattle.hume_front.specs.Accepted.{IsUnsound};
ghost use Rattle.hume_ports.specs.Ports.{names};
ghost use Rattle.port_acts.specs.Places.{IsPlaceOf};
ghost use Rattle.run_rounds.specs.Streams.{std_out};
ghost use Rattle.hume_calls.specs.Calc.{rule_of_cause, script_refusal};
ghost use Rattle.hume_calls.specs.Owed.{owed_refused};
ghost use Rattle.hume_calls.specs.Ended.{EndsOwed, RunsOut};
ghost use Rattle.hume_run.specs.inner.ScriptEnds.{EndsUnsound};

use box_calculus::ScriptError;
use calculus_laws::CalcError;
use hume_base::{Refusal, Rule};
use hume_calls::{Status, refuse};
use hume_exceptions::raises;
use hume_front::FrontError;
use hume_model::Core;
use hume_ports::Port;
use space_costs::{CostError, Costs, costs};
use std::alloc::Global;

/// Ends a call of a source that isn't sound: a rule that it breaks is told, unless memory ran out.
pub fn end_unsound(
    alloc: Global,
    ports: &mut [Box<dyn Port>],
    out: usize,
    error: FrontError,
) -> Status
    requires { IsPlaceOf std_out (names (map view ports.old)) out }
    ensures { (text : List ℕ) → IsUnsound text error → EndsUnsound text (map view ports.old) (map view ports.new) result }
{
    match error {
        FrontError::Refused(refusal) => refuse(alloc, ports, out, refusal),
        FrontError::NoMemory => Status::NoMemory,
    }
}

/// Ends a call whose script makes no core: the rule that its line breaks is told, unless memory ran out.
pub fn end_script(
    alloc: Global,
    ports: &mut [Box<dyn Port>],
    out: usize,
    error: ScriptError,
) -> Status
    requires { IsPlaceOf std_out (names (map view ports.old)) out }
    ensures told { EndsOwed (owed_refused (script_refusal error)) (map view ports.old) (map view ports.new) result }
    ensures memory { error ≡ ScriptError.NoMemory → RunsOut (map view ports.old) (map view ports.new) result }
{
    match error {
        ScriptError::Bad { line } => {
            refuse(
                alloc,
                ports,
                out,
                Refusal {
                    rule: Rule::C90,
                    line,
                },
            )
        }
        ScriptError::Refused { cause, line } => {
            refuse(
                alloc,
                ports,
                out,
                Refusal {
                    rule: rule_of(cause),
                    line,
                },
            )
        }
        ScriptError::NoMemory => Status::NoMemory,
    }
}

fn rule_of(cause: CalcError) -> Rule
    ensures { result ≡ rule_of_cause cause }
{
    match cause {
        CalcError::CannotUnfold => Rule::C91,
        CalcError::CannotName => Rule::C92,
        CalcError::CannotSwap => Rule::C93,
        CalcError::NotApart => Rule::C94,
        CalcError::NoMemory => Rule::C90,
    }
}

/// The bounds of a core, if they keep the limits.
pub fn new_costs(alloc: Global, core: &Core) -> Result<Costs, CostError>
    requires { HasSoundFrame core.now }
    ensures costs { IfOk result (AreCosts core.now) }
    ensures fine { OnOk result (IsLeast (BreaksCosts core.now) None) }
    ensures refused { IfErr result (IsCostError core.now) }
{
    let raised = raises(alloc, core)?;
    costs(alloc, core, &raised)
}
