// A route stored in a ledger, and Drop: what changes which routes it holds.
#![tactic(auto)]

ghost use Rattle.std.specs.Prelude.{◌≡◌, true, ◌≤◌, length};
ghost use Rattle.types.specs.Numbers.{role_number};
ghost use Rattle.types.specs.Rows.{effect};
ghost use Rattle.ledger.specs.Routes.{ledger_words, routes_of, position_of, ledger_ok};
ghost use Rattle.ledger.specs.Calls.{holds_route, route_for, store_effect, drop_effect};
ghost use Rattle.ledger.specs.Helpers.{most_steps};

use halves::{Key, Range};
use types::{Neighbour, Refusal, RouteNumber, Verdict};

const NO_TAIL: [u32; ledger::TAIL] = [0u32; ledger::TAIL];

// The position of a route, by halves: at most ten routes are looked at. No role is below 0, so the number alone decides.
fn search(led: &[u32], number: RouteNumber) -> Range
    requires { ledger_ok led.now ≡ true }
    ensures { (result.low ≡ position_of number.0 (routes_of led.now)) × (result.steps ≤ most_steps) }
{
    let key = Key {
        first: number.0,
        second: 0,
    };
    halves::search(led, ledger::WIDTH, 0, key)
}

// Where a route stands, or would stand: how many routes come before it.
fn find(led: &[u32], number: RouteNumber) -> usize
    requires { ledger_ok led.now ≡ true }
    ensures { (result ≡ position_of number.0 (routes_of led.now)) × (result ≤ length (routes_of led.now)) }
{
    search(led, number).low
}

// Whether the route at a position that `find` answered is the one looked for. Its number decides, where `finding::is_at` compares a pair.
fn is_at(led: &[u32], position: usize, number: RouteNumber) -> bool
    requires { (ledger_ok led.now ≡ true) × (position ≡ position_of number.0 (routes_of led.now)) }
    ensures { result ≡ holds_route number.0 (routes_of led.now) }
{
    position < table::word(led, 0) && led[table::COUNTERS + position * ledger::WIDTH] == number.0
}

// A new route goes in at its position, if its number is free and there is room for it. Rows 18, 20.
pub fn store(
    led: &mut [u32],
    number: RouteNumber,
    neighbour: Neighbour,
    verdict: Verdict,
    path: &[u32],
) -> Result<(), Refusal>
    requires { (length led.old ≡ ledger_words) × (ledger_ok led.old ≡ true) }
    ensures { effect result led.new
        ≡ store_effect led.old (route_for number.0 (role_number neighbour.role) neighbour.number.0 verdict path.now) }
{
    let position = find(led, number);
    if is_at(led, position, number) {
        return Err(Refusal::RouteTaken);
    }
    if ledger::MOST_ROUTES <= table::word(led, 0) {
        return Err(Refusal::RoutesFull);
    }
    if ledger::MOST_PATH_WORDS - table::word(led, 1) < path.len() {
        return Err(Refusal::RoutesFull);
    }
    let head = [
        number.0,
        u32::from(neighbour.role),
        neighbour.number.0,
        verdict.ground(),
        verdict.number(),
        verdict.place_a(),
        verdict.place_b(),
    ];
    table::insert(led, ledger::LAYOUT, position, &head, path, &NO_TAIL);
    Ok(())
}

// Drop: the route under a number goes out; no other changes. Rows 1, 3, 19.
pub fn drop(led: &mut [u32], number: RouteNumber) -> Result<(), Refusal>
    ensures { effect result led.new ≡ drop_effect led.old number.0 }
{
    if led.len() != ledger::WORDS {
        return Err(Refusal::TableLength);
    }
    if !routes::is_ledger(led) {
        return Err(Refusal::RoutesMalformed);
    }
    let position = find(led, number);
    if !is_at(led, position, number) {
        return Err(Refusal::NoRoute);
    }
    table::remove(led, ledger::LAYOUT, position);
    Ok(())
}
