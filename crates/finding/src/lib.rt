// The check of a register, and a record found in it.
#![tactic(auto)]

ghost use Rattle.std.specs.Prelude.{◌≡◌, true, false, ◌&&◌, ◌≤◌, ◌<◌, ◌↔◌, length, get_or, IsTrue, MatchResult};
ghost use Rattle.table.specs.Table.{Sound};
ghost use Rattle.keyed.specs.Keyed.{same_pair, before_pair, ascends, every};
ghost use Rattle.register.specs.Register.{record_head, record_tail, most_listed, records_of, record_at, key_of, record_ok};
ghost use Rattle.register.specs.Register.{register_ok, position_of};
ghost use Rattle.register.specs.Helpers.{most_steps};
ghost use Rattle.register.specs.Calls.{holds_record};

use halves::{Key, Range};
use register::Register;
use types::{AsNumber, Refusal};

// ---- the check

// Each record's own rules, and their order. The lists are read in one go: each of them ascends if no two numbers descend but where
// one list ends and the next begins. If one does not, it does not matter what `providers::holds_at` said of it.
#[tactic(auto, using(crate::proofs::Checking::bounds))]
fn are_records(reg: &[u32]) -> bool
    requires { Sound record_head record_tail reg.now × (get_or reg.now 1 0 ≤ most_listed) }
    ensures { result ≡ (every record_ok (records_of reg.now) && ascends key_of same_pair before_pair (records_of reg.now)) }
{
    let n = table::word(reg, 0);
    let bodies = table::COUNTERS + n * register::WIDTH;
    let mut last = Key {
        first: 0,
        second: 0,
    };
    let mut between: u32 = 0;
    let mut from = bodies;
    for i in 0..n {
        let at = table::COUNTERS + i * register::WIDTH;
        let customer = reg[at];
        let source = reg[at + register::SOURCE];
        let count = table::word(reg, at + register::COUNT);
        if (customer == 0)
            | ((register::LAST_SOURCE < source)
                | ((count < 1) | (providers::MOST_PROVIDERS < count)))
        {
            return false;
        }
        let here = Key {
            first: customer,
            second: source,
        };
        if !halves::is_before(last, here) {
            return false;
        }
        if providers::holds_at(reg, from, count, AsNumber(customer)) {
            return false;
        }
        if bodies < from && reg[from] <= reg[from - 1] {
            between += 1;
        }
        last = here;
        from += count;
    }
    providers::descents(&reg[bodies..from]) == between
}

// The words are a well-formed register, whatever they are.
pub fn is_register(reg: &[u32]) -> bool
    ensures { result ≡ register_ok reg.now }
{
    if !table::well_formed(reg, register::LAYOUT) {
        return false;
    }
    if register::MOST_RECORDS < table::word(reg, 0) {
        return false;
    }
    if register::MOST_LISTED < table::word(reg, 1) {
        return false;
    }
    are_records(reg)
}

// Row 2 of a register of the right length.
pub fn check(words: &[u32]) -> Result<Register<'_>, Refusal>
    ensures { MatchResult result (λ r. (r.words.now ≡ words.now) × (register_ok words.now ≡ true))
        (λ e. (e ≡ Refusal.RegisterMalformed) × (register_ok words.now ≡ false)) }
{
    if !is_register(words) {
        return Err(Refusal::RegisterMalformed);
    }
    Ok(Register { words })
}

// ---- look-up

// Record i stands before the pair of a customer and a source.
pub fn stands_before(register: Register<'_>, i: usize, customer: AsNumber, source: u32) -> bool
    requires { i < length (records_of register.words.now) }
    ensures before { result ≡ before_pair (key_of (record_at (records_of register.entry.words.now) i)) (customer.0, source) }
    ensures within { IsTrue result ↔ (i < position_of customer.0 source (records_of register.entry.words.now)) }
{
    let here = Key {
        first: register.customer_at(i).0,
        second: register.source_at(i),
    };
    let key = Key {
        first: customer.0,
        second: source,
    };
    halves::is_before(here, key)
}

// The position of a pair, from one on that is not behind it, by halves: at most eleven records are looked at.
pub fn search(register: Register<'_>, from: usize, customer: AsNumber, source: u32) -> Range
    requires { from ≤ position_of customer.0 source (records_of register.words.now) }
    ensures { (result.low ≡ position_of customer.0 source (records_of register.entry.words.now)) × (result.steps ≤ most_steps) }
{
    let key = Key {
        first: customer.0,
        second: source,
    };
    halves::search(register.words, register::WIDTH, from, key)
}

// Where the record of a customer and a source stands, or would stand: how many records come before it.
#[tactic(auto, using(register::proofs::Looking::position_within))]
pub fn find(register: Register<'_>, customer: AsNumber, source: u32) -> usize
    ensures { (result ≡ position_of customer.0 source (records_of register.entry.words.now))
        × (result ≤ length (records_of register.entry.words.now)) }
{
    search(register, 0, customer, source).low
}

// ---- the record at a position

// Whether the record at a position that `find` answered is the one looked for.
#[tactic(auto, using(register::proofs::Looking::past, register::proofs::Looking::there, register::proofs::Looking::other))]
pub fn is_at(register: Register<'_>, position: usize, customer: AsNumber, source: u32) -> bool
    requires { position ≡ position_of customer.0 source (records_of register.words.now) }
    ensures { result ≡ holds_record customer.0 source (records_of register.entry.words.now) }
{
    if position < register.count() && register.customer_at(position).0 == customer.0 {
        return register.source_at(position) == source;
    }
    false
}
