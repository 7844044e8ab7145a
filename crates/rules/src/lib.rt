// The rules of a verdict: specs/ has the definitions and proofs/ their laws. The functions here are the gap's subtraction and what is read off a hop.
#![tactic(auto)]

ghost use Rattle.std.specs.Prelude.{◌≡◌, ◌<◌, ◌^◌, pos, ◌-ℤ◌};
ghost use Rattle.rules.specs.Hops.{is_plus, is_not_plus, is_unattested, origin_of};

use types::{Hop, Origin};

// The gap between the ramps, L - K, below zero too where they overlap.
pub fn gap(l: u32, k: u32) -> i32
    requires { (l < 2 ^ 31) × (k < 2 ^ 31) }
    ensures { result ≡ pos l -ℤ pos k }
{
    (l as i32) - (k as i32)
}

// The register that a hop is by; of no meaning where it is No Attestation.
pub fn origin(hop: Hop) -> Origin
    ensures { result ≡ origin_of hop }
{
    match hop {
        Hop::NoAttestation => Origin::Public,
        Hop::ProviderPlus(origin, _) | Hop::NotProviderPlus(origin) => origin,
    }
}

// The three tests of a hop.
pub fn is_plus(hop: Hop) -> bool
    ensures { result ≡ is_plus hop }
{
    matches!(hop, Hop::ProviderPlus(_, _))
}

pub fn is_not_plus(hop: Hop) -> bool
    ensures { result ≡ is_not_plus hop }
{
    matches!(hop, Hop::NotProviderPlus(_))
}

pub fn is_unattested(hop: Hop) -> bool
    ensures { result ≡ is_unattested hop }
{
    matches!(hop, Hop::NoAttestation)
}
