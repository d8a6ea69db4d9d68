//! What claims of a node and of its wire to itself answer, at times at which they are at home and at others.
ghost use Rattle.std.specs.Prelude.{◌≡◌, [], ◌∷◌, IfOk, IfSome};
ghost use Rattle.turn_locker.specs.Seats.{IsSeatOf, view_of};
ghost use Rattle.turn_locker.specs.Views.{HoldsNothing};
ghost use Rattle.trials.specs.inner.OneNode.{one_node, AreClaimed};

use crate::error::TrialError;
use hume_base::List;
use hume_net::Plan;
use std::alloc::{AllocError, Global};
use turn_locker::{Locker, Seat, Timed};

// A value that tells its item and its time.
#[derive(Drop)]
struct Token {
    number: u32,
    time: u64,
}

impl Timed for Token {
    ghost use Rattle.std.specs.Prelude.{⊤};

    ghost number_of = { λ token. token.number };

    ghost time_of = { λ token. token.time };

    ghost right = { λ _. ⊤ };

    fn number(&self) -> u32 {
        self.number
    }

    fn time(&self) -> u64 {
        self.time
    }
}

// One node, with a wire from it to itself.
fn one_node(alloc: Global) -> Result<Plan, AllocError>
    ensures { IfOk result (λ plan. plan ≡ one_node) }
{
    Ok(Plan {
        nodes: 1,
        producer: List::of_one(alloc, 0)?,
        consumer: List::of_one(alloc, 0)?,
    })
}

// The node and its wire, both at home at time 0.
fn placed(alloc: Global) -> Result<(Locker<Token>, Seat<Token>), AllocError>
    ensures plan { IfOk result (λ made. made.0.plan ≡ one_node) }
    ensures seat { IfOk result (λ made. IsSeatOf made.0 made.1) }
    ensures view { IfOk result (λ made. HoldsNothing (view_of made.1)) }
{
    let (locker, mut seat) = Locker::vacant(alloc, one_node(alloc)?)?;
    locker.place(&mut seat, 0, Token { number: 0, time: 0 });
    locker.place(&mut seat, 1, Token { number: 1, time: 0 });
    Ok((locker, seat))
}

// Claims the node and then its wire at time 0. Between, a claim of the node finds it held, and one of the wire finds another time.
fn claim_both(locker: &Locker<Token>, seat: &mut Seat<Token>) -> Option<(Token, Token)>
    requires plan { locker.now.plan ≡ one_node }
    requires own { IsSeatOf locker.now seat.old }
    requires view { HoldsNothing (view_of seat.old) }
    ensures own { IsSeatOf locker.now seat.new }
    ensures view { IfSome result (λ _. AreClaimed (view_of seat.new)) }
    ensures node { IfSome result (λ claimed. (claimed.0.number ≡ 0) × (claimed.0.time ≡ 0)) }
    ensures wire { IfSome result (λ claimed. (claimed.1.number ≡ 1) × (claimed.1.time ≡ 0)) }
{
    let node = locker.try_claim(seat, 0, 0)?;
    let None = locker.try_claim(seat, 0, 0) else {
        return None;
    };
    let None = locker.try_claim(seat, 1, 1) else {
        return None;
    };
    let wire = locker.try_claim(seat, 1, 0)?;
    Some((node, wire))
}

// Passes the wire and then its node, which go home at time 1.
fn pass_both(locker: &Locker<Token>, seat: &mut Seat<Token>, node: Token, wire: Token)
    requires plan { locker.now.plan ≡ one_node }
    requires own { IsSeatOf locker.now seat.old }
    requires view { AreClaimed (view_of seat.old) }
    requires node { (node.number ≡ 0) × (node.time ≡ 0) }
    requires wire { (wire.number ≡ 1) × (wire.time ≡ 0) }
    ensures own { IsSeatOf locker.now seat.new }
    ensures view { HoldsNothing (view_of seat.new) }
{
    locker.pass(seat, 1, later(wire));
    locker.pass(seat, 0, later(node));
}

// The token one half step later.
fn later(token: Token) -> Token
    requires { token.time ≡ 0 }
    ensures number { result.number ≡ token.number }
    ensures time { result.time ≡ 1 }
{
    Token {
        number: token.number,
        time: token.time + 1,
    }
}

/// Makes claims of one node and of its wire to itself, and tells how they end.
pub(crate) fn tell_claims(rt: &HostRuntime, alloc: Global) -> Result<(), TrialError> {
    let (locker, mut seat) = placed(alloc)?;
    let Some((node, wire)) = claim_both(&locker, &mut seat) else {
        println!(rt; "a claim was answered otherwise")?;
        return Ok(());
    };
    pass_both(&locker, &mut seat, node, wire);
    println!(rt; "node at time {}", locker.time_of(&mut seat, 0))?;
    println!(rt;
        "claimed at time 0: {}",
        locker.try_claim(&mut seat, 0, 0).is_some()
    )?;
    println!(rt;
        "claimed at time 1: {}",
        locker.try_claim(&mut seat, 0, 1).is_some()
    )?;
    Ok(())
}
