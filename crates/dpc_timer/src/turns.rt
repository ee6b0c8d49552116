//! Turns in rising order.

ghost use Rattle.std.specs.Prelude.{◌≡◌, ◌≢◌, ◌≤◌, ◌<◌, ℕ, true, false, not, ◌&&◌, ◌||◌, ◌⊎◌, IfSome, IfNone};
ghost use Rattle.std.specs.List.Sorted.{IsPartitionPoint};
ghost use Rattle.std.specs.VecDeque.{deque_len, deque_capacity};
ghost use Rattle.dpc_timer.specs.Turns.{is_before, AreInOrder, is_turn, has_turn};

use crate::timer::Turn;
use std::collections::VecDeque;

/// Whether a turn comes before another: by its moment, and of equal moments by its address.
fn is_before(turn: Turn, other: Turn) -> bool
    ensures { result ≡ is_before turn other }
{
    turn.moment < other.moment || (turn.moment == other.moment && turn.address < other.address)
}

/// Where the first turn stands that does not come before this one.
fn place_of(turns: &VecDeque<Turn>, turn: Turn) -> usize
    requires { AreInOrder turns.now.items }
    ensures bound { result ≤ deque_len turns.now }
    ensures place { IsPartitionPoint (λ other. is_before other turn ≡ true) (λ other. is_before other turn ≡ false) turns.now.items result }
{
    turns.partition_point(|other| is_before(*other, turn))
}

/// Puts a new turn at its place, where there is room for it.
pub fn put_turn(turns: &mut VecDeque<Turn>, turn: Turn)
    requires order { AreInOrder turns.old.items }
    requires absent { has_turn turns.old.items turn.moment turn.address ≡ false }
    requires room { deque_len turns.old < deque_capacity turns.old }
    ensures order { AreInOrder turns.new.items }
    ensures has { (moment address : ℕ) → has_turn turns.new.items moment address ≡ (is_turn moment address turn || has_turn turns.old.items moment address) }
{
    let place = place_of(turns, turn);
    match turns.insert(place, turn) {
        Ok(()) => {}
        Err(_) => unreachable!(),
    }
}

/// Takes a turn away.
pub fn take_turn(turns: &mut VecDeque<Turn>, turn: Turn)
    requires order { AreInOrder turns.old.items }
    requires there { has_turn turns.old.items turn.moment turn.address ≡ true }
    ensures order { AreInOrder turns.new.items }
    ensures has { (moment address : ℕ) → has_turn turns.new.items moment address ≡ (not (is_turn moment address turn) && has_turn turns.old.items moment address) }
    ensures room { deque_len turns.new < deque_capacity turns.new }
{
    let place = place_of(turns, turn);
    let _ = turns.remove(place);
}

/// The first moment that is above this one.
pub fn first_above(turns: &VecDeque<Turn>, now: u64) -> Option<u64>
    requires { AreInOrder turns.now.items }
    ensures found { IfSome result (λ moment. (now < moment) × (address : ℕ) × (has_turn turns.now.items moment address ≡ true)) }
    ensures least { IfSome result (λ moment. (later address : ℕ) → has_turn turns.now.items later address ≡ true → now < later → moment ≤ later) }
    ensures none { IfNone result ((moment address : ℕ) → has_turn turns.now.items moment address ≡ true → moment ≤ now) }
{
    let place = turns.partition_point(|turn| turn.moment <= now);
    match turns.get(place) {
        Some(turn) => Some(turn.moment),
        None => None,
    }
}

/// The first turn.
pub fn first_turn(turns: &VecDeque<Turn>) -> Option<Turn>
    requires { AreInOrder turns.now.items }
    ensures found { IfSome result (λ turn. has_turn turns.now.items turn.moment turn.address ≡ true) }
    ensures least { IfSome result (λ turn. (moment address : ℕ) → has_turn turns.now.items moment address ≡ true → (turn.moment < moment) ⊎ ((turn.moment ≡ moment) × (turn.address ≤ address))) }
    ensures none { IfNone result ((moment address : ℕ) → has_turn turns.now.items moment address ≡ false) }
{
    match turns.front() {
        Some(turn) => Some(*turn),
        None => None,
    }
}
