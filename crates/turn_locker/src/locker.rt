//! The items of a plan, and the calls by which they are claimed in turn.
ghost use Rattle.std.specs.Prelude.{◌≡◌, ◌≢◌, ℕ, ◌-◌, ◌/◌, ◌^◌, ◌<◌, ◌≤◌, [], ◌∷◌, IfSome, IfNone, IfOk, Some};
ghost use mathlib.Core.Option.{some};
ghost use Rattle.turn_locker.specs.Asking.{MayPass, MayPutBack};
ghost use Rattle.turn_locker.specs.Closing.{AreHome};
ghost use Rattle.turn_locker.specs.Held.{held_at, items_of};
ghost use Rattle.turn_locker.specs.Rule.{home_word, held_word};
ghost use Rattle.turn_locker.specs.Seats.{IsSeatOf, view_of};
ghost use Rattle.turn_locker.specs.Views.{HoldsNothing, both_shares, claims, kept_share, looks, new_share, newcomer, passes, puts_back, whole_share};
ghost use Rattle.turn_locker.specs.Plays.{with_slot};
ghost use Rattle.hume_net.specs.Plan.{IsPlan};

use crate::closing::take_all;
use crate::plays::{Claim, Grasp, Look, Pass, Release, Shares};
use crate::rule::InTurn;
use crate::timed::Timed;
use crate::view::View;
use atomic_table::Table;
use hume_net::Plan;
use std::alloc::{AllocError, Global};
use std::marker::Model;

/// What a thread needs to claim items: one value, moved from call to call. It has no bytes.
pub type Seat<T> = atomic_table::Seat<Option<T>, View>;

/// The items of a plan: its nodes by their numbers, and then its wires. Each is at home or held by one seat.
#[derive(Drop)]
pub struct Locker<T: Timed> {
    table: Table<Option<T>, View, Plan, InTurn, Global>,
    plan: Plan,
    items: u32,
    // room for all values, which `close` fills
    room: Vec<T>,
}

impl<T: Timed> Model for Locker<T> {
    ghost use Rattle.std.specs.Prelude.{◌≡◌, ◌<◌, ◌≤◌, [], vec_capacity};
    ghost use Rattle.turn_locker.specs.Held.{items_of};
    ghost use Rattle.turn_locker.specs.Seats.{LockerView};

    ghost Value = { LockerView };

    ghost view = { λ l. record { plan = l.plan; table = l.table.shared.table_id } };

    ghost invariant = { λ l. (l.table.shared.key ≡ l.plan) × (l.table.shared.table_id.words ≡ l.items) × (l.table.shared.table_id.slots ≡ l.items)
        × (l.items ≡ items_of l.plan) × (0 < l.items) × (l.room.items ≡ []) × (l.items ≤ vec_capacity l.room) };
}

impl<T: Timed> Locker<T> {
    /// A locker in which no item has a value yet. Its seat has the whole share and holds all items, at time 0. It takes all memory
    /// that `close` needs.
    pub fn vacant(alloc: Global, plan: Plan) -> Result<(Locker<T>, Seat<T>), AllocError>
        requires plan { IsPlan plan × (0 < plan.nodes) × (items_of plan < 2 ^ 32) }
        ensures plan { IfOk result (λ made. made.0.plan ≡ plan) }
        ensures seat { IfOk result (λ made. IsSeatOf made.0 made.1) }
        ensures view { IfOk result (λ made. view_of made.1 ≡ newcomer plan) }
    {
        let items = plan.nodes + plan.producer.len() as u32;
        let words = Vec::from_elem(alloc, 1u64, items as usize)?;
        let room = Vec::with_capacity(alloc, items as usize)?;
        let (table, seat) = Table::vacant(alloc, words.as_slice(), items as usize, &plan)?;
        let locker = Locker {
            table,
            plan,
            items,
            room,
        };
        Ok((locker, seat))
    }

    /// Puts the first value of an item home, at time 0.
    pub fn place(&self, seat: &mut Seat<T>, item: u32, value: T)
        requires own { IsSeatOf self.now seat.old }
        requires item { item < items_of self.now.plan }
        requires value { (T.number_of value ≡ item) × (T.time_of value ≡ 0) × T.right value }
        requires vacant { (held_at item (view_of seat.old).held ≡ some 0) × ((view_of seat.old).passed ≡ []) }
        ensures own { IsSeatOf self.now seat.new }
        ensures view { view_of seat.new ≡ puts_back item (view_of seat.old) }
    {
        self.put_back(seat, item, value);
    }

    /// The time of an item, at the one step of this call.
    pub fn time_of(&self, seat: &mut Seat<T>, item: u32) -> u64
        requires own { IsSeatOf self.now seat.old }
        requires item { item < items_of self.now.plan }
        ensures own { IsSeatOf self.now seat.new }
        ensures time { (word : ℕ) × (view_of seat.new ≡ looks item word (view_of seat.old)) × (result ≡ word / 2) }
    {
        self.look(seat, item) / 2
    }

    /// Moves the value of an item out, if it is at home and of this time. It makes one load and at most one compare-exchange.
    pub fn try_claim(&self, seat: &mut Seat<T>, item: u32, time: u64) -> Option<T>
        requires own { IsSeatOf self.now seat.old }
        requires item { item < items_of self.now.plan }
        ensures own { IsSeatOf self.now seat.new }
        ensures some { IfSome result (λ value. (T.number_of value ≡ item) × (T.time_of value ≡ time) × T.right value) }
        ensures claimed { IfSome result (λ _. view_of seat.new ≡ claims item time (view_of seat.old)) }
        ensures none { IfNone result ((word : ℕ) × (view_of seat.new ≡ looks item word (view_of seat.old)) × (word ≢ home_word time)) }
    {
        let word = self.look(seat, item);
        if word % 2 == 1 || word / 2 != time {
            return None;
        }
        let table = &self.table.shared;
        if table.compare_exchange::<Claim>(seat, item as usize, word, word + 1) != word {
            return None;
        }
        table.exchange(seat, item as usize, None)
    }

    /// The value goes home at the time at which the item is held.
    pub fn put_back(&self, seat: &mut Seat<T>, item: u32, value: T)
        requires own { IsSeatOf self.now seat.old }
        requires item { item < items_of self.now.plan }
        requires value { (T.number_of value ≡ item) × T.right value }
        requires may { MayPutBack self.now.plan item (T.time_of value) (view_of seat.old) }
        ensures own { IsSeatOf self.now seat.new }
        ensures view { view_of seat.new ≡ puts_back item (view_of seat.old) }
    {
        let word = self.fill(seat, item, value);
        self.table
            .shared
            .store::<Release>(seat, item as usize, word - 1);
    }

    /// The value goes home one half step later: a wire before its node.
    pub fn pass(&self, seat: &mut Seat<T>, item: u32, value: T)
        requires own { IsSeatOf self.now seat.old }
        requires item { item < items_of self.now.plan }
        requires value { (T.number_of value ≡ item) × T.right value }
        requires time { (0 < T.time_of value) × (T.time_of value ≤ 2 ^ 40) }
        requires may { MayPass self.now.plan item (T.time_of value - 1) (view_of seat.old) }
        ensures own { IsSeatOf self.now seat.new }
        ensures view { view_of seat.new ≡ passes self.now.plan item (T.time_of value - 1) (view_of seat.old) }
    {
        let word = self.fill(seat, item, value);
        self.table
            .shared
            .store::<Pass>(seat, item as usize, word + 1);
    }

    /// The seat with its share but for one, and a new seat with a share of one.
    pub fn split(&self, mut seat: Seat<T>) -> (Seat<T>, Seat<T>)
        requires own { IsSeatOf self.now seat }
        requires share { 2 ≤ (view_of seat).share }
        requires free { HoldsNothing (view_of seat) }
        ensures kept { IsSeatOf self.now result.0 × (view_of result.0 ≡ kept_share (view_of seat)) }
        ensures new { IsSeatOf self.now result.1 × (view_of result.1 ≡ new_share (view_of seat)) }
    {
        let other = self.table.shared.split_seat::<Shares>(&mut seat);
        (seat, other)
    }

    /// One seat for two, with the shares of both.
    pub fn join(&self, mut seat: Seat<T>, other: Seat<T>) -> Seat<T>
        requires own { IsSeatOf self.now seat × IsSeatOf self.now other }
        requires free { HoldsNothing (view_of seat) × HoldsNothing (view_of other) }
        ensures own { IsSeatOf self.now result }
        ensures view { view_of result ≡ both_shares (view_of seat) (view_of other) }
    {
        self.table.shared.join_seat::<Shares>(&mut seat, other);
        seat
    }

    /// All values in the order of items, once every other seat was joined.
    pub fn close(self, seat: Seat<T>) -> Vec<T>
        requires own { IsSeatOf self seat }
        requires whole { (view_of seat).share ≡ whole_share }
        requires free { HoldsNothing (view_of seat) }
        ensures { AreHome T.number_of T.time_of T.right self.plan result.items }
    {
        let Locker {
            table,
            plan: _plan,
            items,
            room,
        } = self;
        take_all(table.close_with(seat), room, items as usize)
    }

    // The word of an item, by one load. The slot that was out is at home again.
    fn look(&self, seat: &mut Seat<T>, item: u32) -> u64
        requires own { IsSeatOf self.now seat.old }
        requires item { item < items_of self.now.plan }
        ensures own { IsSeatOf self.now seat.new }
        ensures view { seat.new.me ≡ (looks item result (view_of seat.old), []) }
    {
        self.table.shared.load::<Look>(seat, item as usize)
    }

    // Puts a value into the slot of an item that the seat holds, and gives the item's word. The slot is out then.
    fn fill(&self, seat: &mut Seat<T>, item: u32, value: T) -> u64
        requires own { IsSeatOf self.now seat.old }
        requires item { item < items_of self.now.plan }
        requires held { (time : ℕ) × (held_at item (view_of seat.old).held ≡ some time) }
        ensures table { seat.new.table_id ≡ self.now.table }
        ensures out { seat.new.me ≡ (with_slot item (view_of seat.old), (item, Some value) ∷ []) }
        ensures word { (time : ℕ) → held_at item (view_of seat.old).held ≡ some time → result ≡ held_word time }
    {
        self.look(seat, item);
        let table = &self.table.shared;
        let word = table.load::<Grasp>(seat, item as usize);
        match table.exchange(seat, item as usize, Some(value)) {
            None => {}
            Some(_) => unreachable!(),
        }
        word
    }
}
