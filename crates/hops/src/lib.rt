// What one register's records say: the hops from a number to others, and the list of one source for a customer.
#![tactic(auto)]

ghost use Rattle.std.specs.Prelude.{◌≡◌, cond, MatchOption};
ghost use Rattle.types.specs.declared.Hop.TheVariants.{NoAttestation, ProviderPlus, NotProviderPlus};
ghost use Rattle.rules.specs.Records.{attested, hop_of};
ghost use Rattle.register.specs.Register.{records_of, position_of};
ghost use Rattle.hops.specs.Spans.{span_of};

use register::Register;
use types::{AsNumber, Hop, Origin};

// The list of a source for a customer, as a part of the words: where it begins, and where it ends. Both are 0 where there is none.
// They are numbers and no slice, since the C interface tells them.
#[derive(Clone, Copy)]
pub struct Span {
    pub from: usize,
    pub to: usize,
}

#[tactic(auto, using(crate::proofs::Listing::no_span, crate::proofs::Listing::pair_within, crate::proofs::Listing::span_read))]
pub fn list_span(register: Register<'_>, source: u32, customer: AsNumber) -> Span
    ensures { result ≡ span_of (records_of register.entry.words.now) source customer.0 }
{
    let position = finding::find(register, customer, source);
    if !finding::is_at(register, position, customer, source) {
        return Span { from: 0, to: 0 };
    }
    let from = register.start_at(position);
    Span {
        from,
        to: from + register.list_at(position).len(),
    }
}

// ---- hops

// Whether there is any record of x, whose records begin at a position that `find` answered.
#[tactic(auto, using(crate::proofs::Hopping::attests_none, crate::proofs::Hopping::attests_by, register::proofs::Holding::ordered))]
pub fn attests(register: Register<'_>, position: usize, x: AsNumber) -> bool
    requires { position ≡ position_of x.0 0 (records_of register.words.now) }
    ensures { result ≡ attested (records_of register.entry.words.now) x.0 }
{
    position < register.count() && register.customer_at(position).0 == x.0
}

// The hops from one number to two others.
#[derive(Clone, Copy)]
pub struct Hops {
    pub y: Hop,
    pub z: Hop,
}

// What a hop by a register is, by whether there is a record, and the source of the first that lists the other number.
fn hop_by(origin: Origin, attested: bool, first: Option<u32>) -> Hop
    ensures { MatchOption first (result ≡ cond attested (NotProviderPlus origin) NoAttestation)
        (λ source. result ≡ ProviderPlus origin source) }
{
    match first {
        Some(source) => Hop::ProviderPlus(origin, source),
        None if attested => Hop::NotProviderPlus(origin),
        None => Hop::NoAttestation,
    }
}

// The hops from x to y and to z by the register of an origin, where x's records begin at a position that `find` answered. Each list is read once
// for both. Sources ascend, so the first that lists a number is the lowest.
pub fn hops_from(
    register: Register<'_>,
    origin: Origin,
    position: usize,
    x: AsNumber,
    y: AsNumber,
    z: AsNumber,
) -> Hops
    requires { position ≡ position_of x.0 0 (records_of register.words.now) }
    ensures { (result.y ≡ hop_of origin (records_of register.entry.words.now) x.0 y.0)
        × (result.z ≡ hop_of origin (records_of register.entry.words.now) x.0 z.0) }
{
    let mut attested = false;
    let mut first_y: Option<u32> = None;
    let mut first_z: Option<u32> = None;
    for i in position..register.count() {
        if register.customer_at(i).0 != x.0 {
            break;
        }
        let source = register.source_at(i);
        let listed = providers::scan(register.list_at(i), y, z);
        attested = true;
        first_y = first_y.or(listed.y.then_some(source));
        first_z = first_z.or(listed.z.then_some(source));
    }
    Hops {
        y: hop_by(origin, attested, first_y),
        z: hop_by(origin, attested, first_z),
    }
}

// The hop from x to y alone.
pub fn hop_from(
    register: Register<'_>,
    origin: Origin,
    position: usize,
    x: AsNumber,
    y: AsNumber,
) -> Hop
    requires { position ≡ position_of x.0 0 (records_of register.words.now) }
    ensures { result ≡ hop_of origin (records_of register.entry.words.now) x.0 y.0 }
{
    hops_from(register, origin, position, x, y, y).y
}
