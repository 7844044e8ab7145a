// The public register and the overrides together: which of them counts for a number, the hops by it, and the list of one source.
#![tactic(auto)]

ghost use Rattle.std.specs.Prelude.{◌≡◌, true, false, MatchOption, MatchResult};
ghost use Rattle.rules.specs.Records.{attested, origin_for};
ghost use Rattle.register.specs.Register.{records_of, position_of, register_ok};
ghost use Rattle.registers.specs.Registers.{lent, hop_in, both_long, both_ok, chosen, found_in, part_in};
ghost use Rattle.registers.specs.Words.{words_of};

use hints::Hinted;
use hops::Hops;
use register::Register;
use types::{AsNumber, Hop, Origin, Refusal};

// ---- rows 1 and 2

// Row 1 for both.
#[tactic(auto, unfolding(crate::specs::Registers::both_long))]
pub fn are_long(public: &[u32], overrides: &[u32]) -> bool
    ensures { result ≡ both_long (lent public.now overrides.now) }
{
    public.len() == register::WORDS && overrides.len() == register::WORDS
}

// Row 2 for both.
#[tactic(auto, unfolding(crate::specs::Registers::both_ok))]
pub fn are_registers(public: &[u32], overrides: &[u32]) -> bool
    ensures { result ≡ both_ok (lent public.now overrides.now) }
{
    finding::is_register(public) && finding::is_register(overrides)
}

// Row 1 for both.
pub fn check_lengths(public: &[u32], overrides: &[u32]) -> Result<(), Refusal>
    ensures { MatchResult result (λ _. both_long (lent public.now overrides.now) ≡ true)
        (λ e. (e ≡ Refusal.TableLength) × (both_long (lent public.now overrides.now) ≡ false)) }
{
    if are_long(public, overrides) {
        Ok(())
    } else {
        Err(Refusal::TableLength)
    }
}

// Row 2 for both, which are then looked up without hints.
pub fn check<'a>(public: &'a [u32], overrides: &'a [u32]) -> Result<Registers<'a>, Refusal>
    ensures { MatchResult result
        (λ r. (words_of r ≡ lent public.now overrides.now) × (both_ok (lent public.now overrides.now) ≡ true))
        (λ e. (e ≡ Refusal.RegisterMalformed) × (both_ok (lent public.now overrides.now) ≡ false)) }
{
    if !are_registers(public, overrides) {
        return Err(Refusal::RegisterMalformed);
    }
    Ok(Registers {
        public: Hinted::plain(Register { words: public }),
        overrides: Hinted::plain(Register { words: overrides }),
    })
}

// ---- look-up

// Which register counts for a number, and where the number's records begin there.
#[derive(Clone, Copy)]
pub struct Found {
    pub origin: Origin,
    pub position: usize,
}

// Which register a list stands in, and from where to where. They are numbers and no slice, since the C interface tells them.
#[derive(Clone, Copy)]
pub struct Part {
    pub origin: Origin,
    pub from: usize,
    pub to: usize,
}

// The two registers that a call is lent, both well formed.
#[derive(Clone, Copy)]
pub struct Registers<'a> {
    pub public: Hinted<'a>,
    pub overrides: Hinted<'a>,
}

impl<'a> Registers<'a> {
    // Where the number's records begin in the overrides, if these have any. LLVM leaves it a call of its own by itself, and then a path takes a
    // tenth longer over both registers.
    #[inline(always)]
    fn overriding(self, x: AsNumber) -> Option<usize>
        ensures { MatchOption result
            (attested (records_of self.entry.overrides.register.words.now) x.0 ≡ false)
            (λ position. (attested (records_of self.entry.overrides.register.words.now) x.0 ≡ true)
            × (position ≡ position_of x.0 0 (records_of self.entry.overrides.register.words.now))) }
    {
        let position = self.overrides.find(x);
        hops::attests(self.overrides.register, position, x).then_some(position)
    }

    // One look-up in each register, and in the public one only where the overrides have no record of the number.
    fn locate(self, x: AsNumber) -> Found
        ensures { result ≡ found_in (words_of self.entry) x.0 }
    {
        match self.overriding(x) {
            Some(position) => Found {
                origin: Origin::Overrides,
                position,
            },
            None => Found {
                origin: Origin::Public,
                position: self.public.find(x),
            },
        }
    }

    // The register that counts for a number: the overrides, if they have any record of it.
    pub fn origin_for(self, x: AsNumber) -> Origin
        ensures { result ≡ origin_for (records_of self.entry.overrides.register.words.now) x.0 }
    {
        match self.overriding(x) {
            Some(_) => Origin::Overrides,
            None => Origin::Public,
        }
    }

    // The register of an origin.
    pub fn choose(self, origin: Origin) -> Register<'a>
        ensures { result.words.now ≡ chosen origin (words_of self.entry) }
    {
        match origin {
            Origin::Public => self.public.register,
            Origin::Overrides => self.overrides.register,
        }
    }

    // The hops from x to y and to z, with one look-up of x.
    pub fn hops_between(self, x: AsNumber, y: AsNumber, z: AsNumber) -> Hops
        ensures { (result.y ≡ hop_in (words_of self.entry) x.0 y.0)
            × (result.z ≡ hop_in (words_of self.entry) x.0 z.0) }
    {
        let found = self.locate(x);
        let register = self.choose(found.origin);
        hops::hops_from(register, found.origin, found.position, x, y, z)
    }

    // The hop from x to y alone.
    pub fn hop_between(self, x: AsNumber, y: AsNumber) -> Hop
        ensures { result ≡ hop_in (words_of self.entry) x.0 y.0 }
    {
        let found = self.locate(x);
        let register = self.choose(found.origin);
        hops::hop_from(register, found.origin, found.position, x, y)
    }

    // Where the list of a source for a customer stands, in the register that counts for the customer.
    pub fn find_list(self, source: u32, customer: AsNumber) -> Part
        ensures { result ≡ part_in (words_of self.entry) source customer.0 }
    {
        let origin = self.origin_for(customer);
        let register = self.choose(origin);
        let span = hops::list_span(register, source, customer);
        Part {
            origin,
            from: span.from,
            to: span.to,
        }
    }
}

// ---- of words that no `Registers` holds

// The register that counts for a number, by the overrides alone.
pub fn origin_for(overrides: &[u32], x: AsNumber) -> Origin
    requires { register_ok overrides.now ≡ true }
    ensures { result ≡ origin_for (records_of overrides.now) x.0 }
{
    let register = Register { words: overrides };
    let position = finding::find(register, x, 0);
    if hops::attests(register, position, x) {
        Origin::Overrides
    } else {
        Origin::Public
    }
}

// The register of an origin, well formed or not.
pub fn choose<'a>(public: &'a [u32], overrides: &'a [u32], origin: Origin) -> &'a [u32]
    ensures { result.now ≡ chosen origin (lent public.now overrides.now) }
{
    match origin {
        Origin::Public => public,
        Origin::Overrides => overrides,
    }
}
