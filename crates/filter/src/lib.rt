// The calls of the filter. Each takes any tables and any arguments, and tests its rows in their order. The tables are lent one by one, as the C
// interface has them.
#![tactic(auto)]

ghost use Rattle.std.specs.Prelude.{◌≡◌, true, length, Some, None, MatchResult};
ghost use Rattle.types.specs.Numbers.{role_number, verdict_of};
ghost use Rattle.types.specs.Rows.{first_given, effect};
ghost use Rattle.as_path.specs.Reading.{content_of};
ghost use Rattle.rules.specs.Judging.{answer_to};
ghost use Rattle.register.specs.Calls.{file_effect, withdraw_effect, clear_effect};
ghost use Rattle.ledger.specs.Routes.{ledger_words, ledger_ok};
ghost use Rattle.ledger.specs.Calls.{route_for, drop_effect};
ghost use Rattle.registers.specs.Registers.{lent, hop_in};
ghost use Rattle.registers.specs.Words.{words_of};
ghost use Rattle.effects.specs.Calls.{judge_answer, keeping, keep_effect, rejudge_effect, hop_answer, look_rows, lookup_part, lookup_list};
ghost use Rattle.effects.specs.Helpers.{stored_effect, Ready};
ghost use Rattle.filter.specs.Helpers.{known_from};

use as_path::Reading;
use registers::{Part, Registers};
use types::{
    Answer, AsNumber, Cause, Filed, Hop, Neighbour, Origin, Refusal, Role, RouteNumber, Verdict,
};

// The most bytes of an attribute.
pub const MOST_BYTES: usize = 4096;

// Rows 9, 10 and 11, and the neighbour that they let through.
fn know(role: u32, number: AsNumber, attribute: &[u8]) -> Result<Neighbour, Refusal>
    ensures { result ≡ known_from role number.0 attribute.now }
{
    let role = Role::try_from(role)?;
    if number.0 == 0 {
        return Err(Refusal::NeighbourZero);
    }
    if MOST_BYTES < attribute.len() {
        return Err(Refusal::AttributeLength);
    }
    Ok(Neighbour { role, number })
}

// The attribute read, and its ground or its path judged: rows 12 to 17.
fn judge_known(
    registers: Registers<'_>,
    neighbour: Neighbour,
    attribute: &[u8],
) -> Result<Answer, Refusal>
    ensures { result ≡ answer_to (hop_in (words_of registers.entry)) (role_number neighbour.role)
        (content_of (role_number neighbour.role) neighbour.number.0 attribute.now) }
{
    let mut path = [0u32; as_path::MOST_NUMBERS];
    match reading::read(neighbour, attribute, &mut path)? {
        Reading::OnGround(ground) => Ok(Answer::Plain(Verdict::Invalid(Cause::ByGround(ground)))),
        Reading::Path(n) => Ok(verdict::judge(registers, neighbour.role, &path[..n])),
    }
}

// The verdict of a route over both registers, which are only read.
// Rows 1, 2, 9, 10, 11, 12 to 16, 17; row 1 is tested for both registers before row 2.
pub fn judge<'a>(
    public: &'a [u32],
    overrides: &'a [u32],
    role: u32,
    neighbour: AsNumber,
    attribute: &[u8],
) -> Result<Answer, Refusal>
    ensures { result ≡ judge_answer (lent public.now overrides.now) role neighbour.0 attribute.now }
{
    registers::check_lengths(public, overrides)?;
    let registers = registers::check(public, overrides)?;
    let neighbour = know(role, neighbour, attribute)?;
    judge_known(registers, neighbour, attribute)
}

// An answer whose route is stored, if its number is free and there is room: rows 18 and 20.
fn keep_answer(
    led: &mut [u32],
    number: RouteNumber,
    neighbour: Neighbour,
    answer: Answer,
    path: &[u32],
) -> Result<Answer, Refusal>
    requires { (length led.old ≡ ledger_words) × (ledger_ok led.old ≡ true) }
    ensures { effect result led.new ≡ stored_effect led.old
        (route_for number.0 (role_number neighbour.role) neighbour.number.0 (verdict_of answer) path.now) answer }
{
    storing::store(led, number, neighbour, answer.verdict(), path)?;
    Ok(answer)
}

// The attribute read, judged, and its route stored: rows 12 to 17, 18 and 20.
fn keep_known(
    registers: Registers<'_>,
    led: &mut [u32],
    number: RouteNumber,
    neighbour: Neighbour,
    attribute: &[u8],
) -> Result<Answer, Refusal>
    requires { Ready (words_of registers) led.old (role_number neighbour.role) neighbour.number.0 attribute.now }
    ensures { effect result led.new ≡ keep_effect (words_of registers.entry) led.old
        (keeping number.0 (role_number neighbour.role) neighbour.number.0 attribute.now) }
{
    let mut path = [0u32; as_path::MOST_NUMBERS];
    match reading::read(neighbour, attribute, &mut path)? {
        Reading::OnGround(ground) => {
            let answer = Answer::Plain(Verdict::Invalid(Cause::ByGround(ground)));
            keep_answer(led, number, neighbour, answer, &path[..0])
        }
        Reading::Path(n) => {
            let answer = verdict::judge(registers, neighbour.role, &path[..n]);
            keep_answer(led, number, neighbour, answer, &path[..n])
        }
    }
}

// Answers what `judge` answers, and stores the route with that answer's ground, verdict and places.
// Rows 1, 2, 3, 9, 10, 11, 12 to 16, 17, 18, 20; row 1 is tested for all three tables before row 2.
pub fn keep<'a>(
    public: &'a [u32],
    overrides: &'a [u32],
    led: &mut [u32],
    number: RouteNumber,
    role: u32,
    neighbour: AsNumber,
    attribute: &[u8],
) -> Result<Answer, Refusal>
    ensures { effect result led.new ≡ keep_effect (lent public.now overrides.now) led.old
        (keeping number.0 role neighbour.0 attribute.now) }
{
    registers::check_lengths(public, overrides)?;
    if led.len() != ledger::WORDS {
        return Err(Refusal::TableLength);
    }
    let registers = registers::check(public, overrides)?;
    if !routes::is_ledger(led) {
        return Err(Refusal::RoutesMalformed);
    }
    let neighbour = know(role, neighbour, attribute)?;
    keep_known(registers, led, number, neighbour, attribute)
}

// Takes one route out of the ledger.
// Rows 1, 3, 19.
pub fn drop(led: &mut [u32], number: RouteNumber) -> Result<(), Refusal>
    ensures { effect result led.new ≡ drop_effect led.old number.0 }
{
    storing::drop(led, number)
}

// Writes the verdict and places of every route without a ground anew, and answers how many routes changed.
// Rows 1, 2, 3; row 1 is tested for all three tables before row 2.
pub fn rejudge<'a>(public: &'a [u32], overrides: &'a [u32], led: &mut [u32]) -> Result<u32, Refusal>
    ensures { effect result led.new ≡ rejudge_effect (lent public.now overrides.now) led.old }
{
    registers::check_lengths(public, overrides)?;
    if led.len() != ledger::WORDS {
        return Err(Refusal::TableLength);
    }
    let registers = registers::check(public, overrides)?;
    if !routes::is_ledger(led) {
        return Err(Refusal::RoutesMalformed);
    }
    let changed = rejudge::rejudge_all(registers, led);
    Ok(changed as u32)
}

// What the register that counts for x says of y.
// Rows 1, 2; row 1 is tested for both registers before row 2.
pub fn hop<'a>(
    public: &'a [u32],
    overrides: &'a [u32],
    x: AsNumber,
    y: AsNumber,
) -> Result<Hop, Refusal>
    ensures { result ≡ hop_answer (lent public.now overrides.now) x.0 y.0 }
{
    registers::check_lengths(public, overrides)?;
    let registers = registers::check(public, overrides)?;
    Ok(registers.hop_between(x, y))
}

// The registers of a look-up that passes rows 1, 2, 4, 5.
fn looked_up<'a>(
    public: &'a [u32],
    overrides: &'a [u32],
    source: u32,
    customer: AsNumber,
) -> Result<Registers<'a>, Refusal>
    ensures { MatchResult result
        (λ registers. (words_of registers ≡ lent public.now overrides.now)
        × (first_given (look_rows (lent public.now overrides.now) source customer.0) ≡ None))
        (λ refusal. first_given (look_rows (lent public.now overrides.now) source customer.0) ≡ Some refusal) }
{
    registers::check_lengths(public, overrides)?;
    let registers = registers::check(public, overrides)?;
    if register::LAST_SOURCE < source {
        return Err(Refusal::SourceNumber);
    }
    if customer.0 == 0 {
        return Err(Refusal::CustomerZero);
    }
    Ok(registers)
}

// Where the list of a source for a customer stands, in the register that counts for the customer. The part is empty where there is no such list, or
// where row 1, 2, 4 or 5 is given.
pub fn find_list<'a>(
    public: &'a [u32],
    overrides: &'a [u32],
    source: u32,
    customer: AsNumber,
) -> Part
    ensures { result ≡ lookup_part (lent public.now overrides.now) source customer.0 }
{
    match looked_up(public, overrides, source, customer) {
        Ok(registers) => registers.find_list(source, customer),
        Err(_) => Part {
            origin: Origin::Public,
            from: 0,
            to: 0,
        },
    }
}

// The list of a source for a customer itself: a part of the register that counts for the customer, and empty as above.
pub fn lookup<'a>(
    public: &'a [u32],
    overrides: &'a [u32],
    source: u32,
    customer: AsNumber,
) -> &'a [u32]
    ensures { result.now ≡ lookup_list (lent public.now overrides.now) source customer.0 }
{
    let part = find_list(public, overrides, source, customer);
    let register = registers::choose(public, overrides, part.origin);
    &register[part.from..part.to]
}

// Makes the list that of its pair of source and customer, in place of the pair's list if it has one.
// Rows 1, 2, 4, 5, 6, 8.
pub fn file(
    reg: &mut [u32],
    source: u32,
    customer: AsNumber,
    providers: &[u32],
) -> Result<Filed, Refusal>
    ensures { effect result reg.new ≡ file_effect reg.old source customer.0 providers.now }
{
    filing::file(reg, source, customer, providers)
}

// Takes the list of one pair of source and customer out of the register.
// Rows 1, 2, 4, 5, 7.
pub fn withdraw(reg: &mut [u32], source: u32, customer: AsNumber) -> Result<(), Refusal>
    ensures { effect result reg.new ≡ withdraw_effect reg.old source customer.0 }
{
    filing::withdraw(reg, source, customer)
}

// Takes all lists of a source out of the register, and answers how many went.
// Rows 1, 2, 4.
pub fn clear(reg: &mut [u32], source: u32) -> Result<u32, Refusal>
    ensures { effect result reg.new ≡ clear_effect reg.old source }
{
    filing::clear(reg, source)
}
