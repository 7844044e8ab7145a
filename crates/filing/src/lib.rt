// File, Withdraw and Clear, the calls that change a register.
#![tactic(auto)]

ghost use Rattle.std.specs.Prelude.{◌≡◌, true, false, Some, None, MatchResult};
ghost use Rattle.types.specs.Rows.{first_given, effect};
ghost use Rattle.register.specs.Register.{records_of};
ghost use Rattle.register.specs.Helpers.{Passed};
ghost use Rattle.register.specs.Calls.{holds_record, clear_rows, file_effect, withdraw_effect, clear_effect};

use register::Register;
use types::{AsNumber, Filed, Refusal};

// The tail of a slot.
const NO_TAIL: [u32; register::TAIL] = [0u32; register::TAIL];

// A new record goes in at its position, if there is room for it.
fn add(
    reg: &mut [u32],
    position: usize,
    source: u32,
    customer: AsNumber,
    list: &[u32],
) -> Result<Filed, Refusal>
    requires { Passed reg.old position source customer.0 list.now × (holds_record customer.0 source (records_of reg.old) ≡ false) }
    ensures { effect result reg.new ≡ file_effect reg.old source customer.0 list.now }
{
    if register::MOST_RECORDS <= table::word(reg, 0) {
        return Err(Refusal::RegisterFull);
    }
    if register::MOST_LISTED - table::word(reg, 1) < list.len() {
        return Err(Refusal::RegisterFull);
    }
    let head = [customer.0, source];
    table::insert(reg, register::LAYOUT, position, &head, list, &NO_TAIL);
    Ok(Filed::New)
}

// A list takes the place of the one that stands under its pair, if there is room for it.
fn replace(
    reg: &mut [u32],
    position: usize,
    source: u32,
    customer: AsNumber,
    list: &[u32],
) -> Result<Filed, Refusal>
    requires { Passed reg.old position source customer.0 list.now × (holds_record customer.0 source (records_of reg.old) ≡ true) }
    ensures { effect result reg.new ≡ file_effect reg.old source customer.0 list.now }
{
    let others = table::word(reg, 1)
        - table::word(
            reg,
            table::COUNTERS + position * register::WIDTH + register::COUNT,
        );
    if register::MOST_LISTED - others < list.len() {
        return Err(Refusal::RegisterFull);
    }
    let head = [customer.0, source];
    table::remove(reg, register::LAYOUT, position);
    table::insert(reg, register::LAYOUT, position, &head, list, &NO_TAIL);
    Ok(Filed::Replaced)
}

// Rows 1, 2 and 4, which every call here tests first.
fn check(reg: &[u32], source: u32) -> Result<Register<'_>, Refusal>
    ensures { MatchResult result
        (λ register. (register.words.now ≡ reg.now) × (first_given (clear_rows reg.now source) ≡ None))
        (λ refusal. first_given (clear_rows reg.now source) ≡ Some refusal) }
{
    if reg.len() != register::WORDS {
        return Err(Refusal::TableLength);
    }
    let register = finding::check(reg)?;
    if register::LAST_SOURCE < source {
        return Err(Refusal::SourceNumber);
    }
    Ok(register)
}

// File: a list goes in under the pair of its source and customer, in the place of the one that is there; no other list changes.
// Answers whether it is new or replaced another. Rows 1, 2, 4, 5, 6, 8.
pub fn file(
    reg: &mut [u32],
    source: u32,
    customer: AsNumber,
    list: &[u32],
) -> Result<Filed, Refusal>
    ensures { effect result reg.new ≡ file_effect reg.old source customer.0 list.now }
{
    let register = check(reg, source)?;
    if customer.0 == 0 {
        return Err(Refusal::CustomerZero);
    }
    if !providers::is_list(customer, list) {
        return Err(Refusal::ProviderList);
    }
    let position = finding::find(register, customer, source);
    if finding::is_at(register, position, customer, source) {
        return replace(reg, position, source, customer, list);
    }
    add(reg, position, source, customer, list)
}

// Withdraw: the list of one source and customer goes out; no other changes. Rows 1, 2, 4, 5, 7.
pub fn withdraw(reg: &mut [u32], source: u32, customer: AsNumber) -> Result<(), Refusal>
    ensures { effect result reg.new ≡ withdraw_effect reg.old source customer.0 }
{
    let register = check(reg, source)?;
    if customer.0 == 0 {
        return Err(Refusal::CustomerZero);
    }
    let position = finding::find(register, customer, source);
    if !finding::is_at(register, position, customer, source) {
        return Err(Refusal::NoRecord);
    }
    table::remove(reg, register::LAYOUT, position);
    Ok(())
}

// Clear: every list of one source goes out; no other changes. Answers how many records went, zero included. Rows 1, 2, 4.
pub fn clear(reg: &mut [u32], source: u32) -> Result<u32, Refusal>
    ensures { effect result reg.new ≡ clear_effect reg.old source }
{
    check(reg, source)?;
    let gone = table::clear(reg, register::LAYOUT, register::SOURCE, source);
    Ok(gone as u32)
}
