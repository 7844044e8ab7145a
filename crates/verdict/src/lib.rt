// The verdict of a path over the records of two registers.
#![tactic(auto)]

ghost use Rattle.std.specs.Prelude.{◌≡◌, ◌+◌, ◌-◌, ◌≤◌, length};
ghost use Rattle.types.specs.declared.Answer.TheVariants.{WithGap};
ghost use Rattle.types.specs.Numbers.{role_number};
ghost use Rattle.rules.specs.Hops.{as_at};
ghost use Rattle.rules.specs.Verdicts.{judged, gap_of};
ghost use Rattle.rules.specs.Verdicts as verdicts;
ghost use Rattle.registers.specs.Registers.{hop_in};
ghost use Rattle.registers.specs.Words.{words_of};
ghost use Rattle.verdict.specs.Helpers.{longest_path, Judgeable, Refused, refused_origins};
ghost use Rattle.verdict.specs.Ramps.{Ramped, after_up, after_down};

use lookups::Lookup;
use registers::Registers;
use types::{Answer, AsNumber, Cause, Hop, Origins, Role, Verdict};

mod lookups;

// AS(i). Where the path ends before it, 0, and no Option: a look-up wants a second number, and the hop to this one is not looked at.
fn number_or_zero(path: &[u32], i: usize) -> AsNumber
    requires { (1 ≤ i) × (i ≤ longest_path + 1) }
    ensures { i ≤ length path.now → result.0 ≡ as_at path.now i }
{
    let n = path.len();
    AsNumber(if i <= n { path[n - i] } else { 0 })
}

// ---- upstream

// One look-up for each number but the last.
fn upstream<L: Lookup>(lookup: L, path: &[u32]) -> Verdict
    requires { Judgeable path.now }
    ensures { result ≡ verdicts.upstream (L.hop lookup) path.now }
{
    let n = path.len();
    let mut unattested = None;
    for i in 1..n {
        let u = i + 1;
        let hop = lookup.hop(AsNumber(path[n - i]), AsNumber(path[n - u]));
        match hop {
            Hop::ProviderPlus(_, _) => {}
            Hop::NotProviderPlus(_) => {
                let origins = Origins::One(rules::origin(hop));
                return Verdict::Invalid(Cause::ByHops(u as u32, 0, origins));
            }
            Hop::NoAttestation => unattested = unattested.or(Some(u)),
        }
    }
    match unattested {
        Some(u) => Verdict::Unknown(u as u32, 0),
        None => Verdict::Valid,
    }
}

// ---- downstream

// u, v, K and L of a path. Without a hop that is Not Provider+ the rules have N + 1 for u and 0 for v, so that u at most v is one test.
#[derive(Clone, Copy)]
struct Ramps {
    u: usize,
    v: usize,
    k: usize,
    l: usize,
}

// Tests of the hop, and no match on it: a match branches at every hop, and a path took up to 5 in 100 longer.
impl Ramps {
    // The indices after the hop from AS(i) to AS(i + 1) on a path of n numbers.
    fn after_up(self, n: usize, i: usize, hop: Hop) -> Ramps
        requires { i ≤ longest_path }
        ensures { result ≡ after_up self n i hop }
    {
        let first = rules::is_not_plus(hop) & (n < self.u);
        let climbs = rules::is_plus(hop) & (self.k == i);
        Ramps {
            u: if first { i + 1 } else { self.u },
            k: if climbs { i + 1 } else { self.k },
            ..self
        }
    }

    // The indices after the hop from AS(i + 1) to AS(i).
    fn after_down(self, i: usize, hop: Hop) -> Ramps
        requires { i ≤ longest_path }
        ensures { result ≡ after_down self i hop }
    {
        Ramps {
            v: if rules::is_not_plus(hop) { i } else { self.v },
            l: if rules::is_plus(hop) { self.l } else { i + 1 },
            ..self
        }
    }
}

// All four indices in one pass, with one look-up for each number on the path and one reading of its lists.
fn find_ramps<L: Lookup>(lookup: L, path: &[u32]) -> Ramps
    requires { Judgeable path.now }
    ensures { Ramped (L.hop lookup) path.now result }
{
    let n = path.len();
    let mut ramps = Ramps {
        u: n + 1,
        v: 0,
        k: 1,
        l: 1,
    };
    let mut up = lookup.hop(AsNumber(path[n - 1]), number_or_zero(path, 2));
    for i in 1..n {
        let x = AsNumber(path[n - i]);
        let y = AsNumber(path[n - (i + 1)]);
        let hops = lookup.hops(y, x, number_or_zero(path, i + 2));
        let down = hops.y;
        ramps = ramps.after_up(n, i, up);
        ramps = ramps.after_down(i, down);
        up = hops.z;
    }
    ramps
}

// The registers of the hops to AS(u) and AS(v), both Not Provider+, where u is at most v: those that count for AS(u - 1) and AS(v + 1).
fn origins<L: Lookup>(lookup: L, path: &[u32], u: usize, v: usize) -> Origins
    requires short { Judgeable path.now }
    requires refused { Refused (L.hop lookup) path.now u v }
    ensures { result ≡ refused_origins (L.hop lookup) path.now u v }
{
    let n = path.len();
    let x = path[n - (u - 1)];
    let y = path[n - (v + 1)];
    Origins::Two(lookup.origin(AsNumber(x)), lookup.origin(AsNumber(y)))
}

fn downstream<L: Lookup>(lookup: L, path: &[u32]) -> Answer
    requires { Judgeable path.now }
    ensures { result ≡ WithGap (verdicts.downstream (L.hop lookup) path.now) (gap_of (L.hop lookup) path.now) }
{
    let Ramps { u, v, k, l } = find_ramps(lookup, path);
    let gap = rules::gap(l as u32, k as u32);
    if u <= v {
        let origins = origins(lookup, path, u, v);
        let cause = Cause::ByHops(u as u32, v as u32, origins);
        Answer::WithGap(Verdict::Invalid(cause), gap)
    } else if l <= k + 1 {
        Answer::WithGap(Verdict::Valid, gap)
    } else {
        Answer::WithGap(Verdict::Unknown(k as u32, l as u32), gap)
    }
}

// ---- the answer

#[tactic(auto, unfolding(rules::specs::Verdicts::judged))]
fn judge_by<L: Lookup>(lookup: L, role: Role, path: &[u32]) -> Answer
    requires { Judgeable path.now }
    ensures { result ≡ judged (L.hop lookup) path.now (role_number role) }
{
    if role.is_upstream() {
        Answer::Plain(upstream(lookup, path))
    } else {
        downstream(lookup, path)
    }
}

// The answer for a path of 1 number or more. Most operators override nothing, and then a number is looked up in one register only.
pub fn judge(registers: Registers<'_>, role: Role, path: &[u32]) -> Answer
    requires { Judgeable path.now }
    ensures { result ≡ judged (hop_in (words_of registers.entry)) path.now (role_number role) }
{
    if registers.overrides.register.count() == 0 {
        judge_by(registers.public, role, path)
    } else {
        judge_by(registers, role, path)
    }
}
