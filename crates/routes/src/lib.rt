// The check of a ledger, and one route in it read and stamped.
#![tactic(auto)]

ghost use Rattle.std.specs.Prelude.{◌≡◌, true, ◌&&◌, ◌≤◌, ◌<◌, eqb, ltb, length};
ghost use Rattle.table.specs.Table.{well_formed, Sound};
ghost use Rattle.keyed.specs.Keyed.{ascends, every};
ghost use Rattle.types.specs.Numbers.{role_number};
ghost use Rattle.types.specs.Rows.{effect};
ghost use Rattle.ledger.specs.Routes.{most_routes, route_head, route_tail, routes_of, route_at, key_of, path_words};
ghost use Rattle.ledger.specs.Routes.{no_zero, no_runs, path_ok, route_ok, is_behind, ledger_ok};
ghost use Rattle.ledger.specs.Calls.{stamped, change_effect};
ghost use Rattle.ledger.specs.Helpers.{RouteIn};
ghost use Rattle.routes.specs.Slots.{SlotIn, slot_words};

use types::{AsNumber, Role, Verdict};

// The words of a slot, counted from its first.
const NUMBER: usize = 0;

const ROLE: usize = 1;

const NEIGHBOUR: usize = 2;

const GROUND: usize = 3;

const VERDICT: usize = 4;

const PLACE_A: usize = 5;

const PLACE_B: usize = 6;

const START: usize = ledger::HEAD;

const COUNT: usize = ledger::HEAD + 1;

// The greatest place in a path.
const MOST_PLACE: u32 = as_path::MOST_NUMBERS as u32;

// ---- the check

// No number is 0. The loop has no early exit, so that the compiler takes several words at a time.
fn has_no_zero(path: &[u32]) -> bool
    ensures { result ≡ no_zero path.now }
{
    let mut none = true;
    for x in path {
        none &= *x != 0;
    }
    none
}

// No two neighbours are equal. No early exit, as above.
fn has_no_runs(path: &[u32]) -> bool
    ensures { result ≡ no_runs path.now }
{
    let mut none = true;
    for i in 1..path.len() {
        none &= path[i] != path[i - 1];
    }
    none
}

// A path of a route without a ground.
#[tactic(auto, unfolding(ledger::specs::Routes::path_ok))]
fn is_path(role: u32, neighbour: AsNumber, path: &[u32]) -> bool
    ensures { result ≡ path_ok role neighbour.0 path.now }
{
    !path.is_empty()
        && path.len() <= as_path::MOST_NUMBERS
        && has_no_zero(path)
        && has_no_runs(path)
        && (role == u32::from(Role::RouteServer) || path[0] == neighbour.0)
}

// The words of route i's slot.
fn slot(led: &[u32], i: usize) -> &[u32]
    requires { SlotIn led.now i }
    ensures { result.now ≡ slot_words (routes_of led.now) i }
{
    let from = table::COUNTERS + i * ledger::WIDTH;
    &led[from..from + ledger::WIDTH]
}

// How many numbers the path of route i has.
fn path_length(led: &[u32], i: usize) -> usize
    requires { SlotIn led.now i }
    ensures { result ≡ length (route_at (routes_of led.now) i).path }
{
    table::word(slot(led, i), COUNT)
}

// Route i keeps the rules.
#[tactic(auto, unfolding(ledger::specs::Routes::route_ok, ledger::specs::Routes::ground_ok))]
fn is_route(led: &[u32], i: usize, path: &[u32]) -> bool
    requires slot { SlotIn led.now i }
    requires its_path { path.now ≡ (route_at (routes_of led.now) i).path }
    ensures { result ≡ route_ok (route_at (routes_of led.now) i) }
{
    let slot = slot(led, i);
    let role = slot[ROLE];
    let neighbour = slot[NEIGHBOUR];
    let ground = slot[GROUND];
    let verdict = slot[VERDICT];
    let a = slot[PLACE_A];
    let b = slot[PLACE_B];
    let fits = Role::LEAST <= role
        && role <= Role::GREATEST
        && 1 <= neighbour
        && ground <= 3
        && verdict <= 2
        && a <= MOST_PLACE
        && b <= MOST_PLACE;
    if !fits {
        return false;
    }
    if ground == 0 {
        return is_path(role, AsNumber(neighbour), path);
    }
    let by_server = ground == 2 && role == u32::from(Role::RouteServer);
    path.is_empty() && verdict == 1 && a == 0 && b == 0 && !by_server
}

// Route i stands behind the one before it.
#[tactic(auto, unfolding(ledger::specs::Routes::is_behind))]
fn is_behind(led: &[u32], i: usize) -> bool
    requires { SlotIn led.now i }
    ensures { result ≡ is_behind (routes_of led.now) i }
{
    i == 0 || slot(led, i - 1)[NUMBER] < slot(led, i)[NUMBER]
}

// Each route's own rules, and their order.
fn are_routes(led: &[u32]) -> bool
    requires { well_formed route_head route_tail led.now ≡ true }
    ensures { result ≡ (every route_ok (routes_of led.now) && ascends key_of eqb ltb (routes_of led.now)) }
{
    let n = table::word(led, 0);
    let mut from = table::COUNTERS + n * ledger::WIDTH;
    for i in 0..n {
        let to = from + path_length(led, i);
        if !is_behind(led, i) || !is_route(led, i, &led[from..to]) {
            return false;
        }
        from = to;
    }
    true
}

// The words are a well-formed ledger, whatever they are.
#[tactic(auto, using(crate::proofs::Checking::not_formed, crate::proofs::Checking::formed_long, crate::proofs::Checking::limits))]
pub fn is_ledger(led: &[u32]) -> bool
    ensures { result ≡ ledger_ok led.now }
{
    table::well_formed(led, ledger::LAYOUT)
        && table::word(led, 0) <= ledger::MOST_ROUTES
        && table::word(led, 1) <= ledger::MOST_PATH_WORDS
        && are_routes(led)
}

// ---- one route

// How many routes there are.
pub fn count(led: &[u32]) -> usize
    requires { ledger_ok led.now ≡ true }
    ensures { (result ≡ length (routes_of led.now)) × (result ≤ most_routes) }
{
    table::word(led, 0)
}

// How many numbers their paths hold together.
pub fn path_words(led: &[u32]) -> usize
    requires { ledger_ok led.now ≡ true }
    ensures { result ≡ path_words (routes_of led.now) }
{
    table::word(led, 1)
}

// The ground of route i as its number, 0 where it has none: the promise names the word.
pub fn ground(led: &[u32], i: usize) -> u32
    requires { RouteIn led.now i }
    ensures { result ≡ (route_at (routes_of led.now) i).ground_code }
{
    slot(led, i)[GROUND]
}

// The role of route i. Its word is a role's number.
pub fn role(led: &[u32], i: usize) -> Role
    requires { RouteIn led.now i }
    ensures { role_number result ≡ (route_at (routes_of led.now) i).role }
{
    Role::try_from(slot(led, i)[ROLE]).unwrap()
}

// The path of route i, where it stands.
pub fn path(led: &[u32], i: usize) -> &[u32]
    requires { RouteIn led.now i }
    ensures { result.now ≡ (route_at (routes_of led.now) i).path }
{
    let start = table::word(slot(led, i), START);
    let from = table::COUNTERS + table::word(led, 0) * ledger::WIDTH + start;
    &led[from..from + path_length(led, i)]
}

// Route i gets a verdict's word and places; answers whether one of them changed.
#[tactic(auto, using(crate::proofs::Stamping::slot_in))]
pub fn stamp(led: &mut [u32], i: usize, v: Verdict) -> bool
    requires { RouteIn led.old i }
    ensures { effect result led.new ≡ change_effect led.old i (stamped v) }
{
    let word = v.number();
    let a = v.place_a();
    let b = v.place_b();
    let old = slot(led, i);
    let same = old[VERDICT] == word && old[PLACE_A] == a && old[PLACE_B] == b;
    let slot = table::COUNTERS + i * ledger::WIDTH;
    led[slot + VERDICT] = word;
    led[slot + PLACE_A] = a;
    led[slot + PLACE_B] = b;
    !same
}
