// Where the hops of a path are looked up.
ghost use Rattle.std.specs.Prelude.{◌≡◌, ℕ, true};
ghost use Rattle.types.specs.declared.Origin.TheVariants.{Public};
ghost use Rattle.rules.specs.Hops.{HopFunction, is_not_plus, origin_of};
ghost use Rattle.rules.specs.Records.{hop_of};
ghost use Rattle.register.specs.Register.{records_of};
ghost use Rattle.registers.specs.Registers.{hop_in};
ghost use Rattle.registers.specs.Words.{words_of};

use hints::Hinted;
use hops::Hops;
use registers::Registers;
use types::{AsNumber, Hop, Origin};

// Records by which hops are told.
pub trait Lookup: Copy {
    ghost hop: { Self → HopFunction };

    // The hop from x to y.
    fn hop(self, x: AsNumber, y: AsNumber) -> Hop
        ensures { result ≡ hop self x.0 y.0 };

    // The hops from x to y and to z, with one look-up of x.
    fn hops(self, x: AsNumber, y: AsNumber, z: AsNumber) -> Hops
        ensures y { result.y ≡ hop self x.0 y.0 }
        ensures z { result.z ≡ hop self x.0 z.0 };

    // The register that a hop from x is by, where it is Not Provider+.
    fn origin(self, x: AsNumber) -> Origin
        ensures { (y : ℕ) → is_not_plus (hop self x.0 y) ≡ true → result ≡ origin_of (hop self x.0 y) };
}

// The public register alone.
impl<'a> Lookup for Hinted<'a> {
    ghost hop = { λ it. hop_of Public (records_of it.register.words.now) };

    // The loops of a verdict call it in two places, and LLVM inlines it in neither by itself.
    #[inline(always)]
    fn hop(self, x: AsNumber, y: AsNumber) -> Hop {
        hops::hop_from(self.register, Origin::Public, self.find(x), x, y)
    }

    fn hops(self, x: AsNumber, y: AsNumber, z: AsNumber) -> Hops {
        hops::hops_from(self.register, Origin::Public, self.find(x), x, y, z)
    }

    fn origin(self, _x: AsNumber) -> Origin {
        Origin::Public
    }
}

// The public register and the overrides.
impl<'a> Lookup for Registers<'a> {
    ghost hop = { λ it. hop_in (words_of it) };

    fn hop(self, x: AsNumber, y: AsNumber) -> Hop {
        self.hop_between(x, y)
    }

    fn hops(self, x: AsNumber, y: AsNumber, z: AsNumber) -> Hops {
        self.hops_between(x, y, z)
    }

    fn origin(self, x: AsNumber) -> Origin {
        self.origin_for(x)
    }
}
