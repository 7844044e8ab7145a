// Every kept route without a ground judged anew, in place. The ledger stands under a clause and in no type of its own: it is read and stamped in
// turn, so a type over its words would be made anew at each step.
#![tactic(auto)]

ghost use Rattle.std.specs.Prelude.{◌≡◌, true, length};
ghost use Rattle.types.specs.Rows.{effect};
ghost use Rattle.registers.specs.Registers.{hop_in};
ghost use Rattle.registers.specs.Words.{words_of};
ghost use Rattle.ledger.specs.Routes.{ledger_words, ledger_ok};
ghost use Rattle.ledger.specs.Helpers.{RouteIn};
ghost use Rattle.ledger.specs.Calls.{change_effect};
ghost use Rattle.rejudge.specs.Rejudging.{rejudged_route, rejudged_effect};

use hints::Hinted;
use registers::Registers;

// Route i judged anew; answers whether its verdict or a place changed.
fn rejudge_route(registers: Registers<'_>, led: &mut [u32], i: usize) -> bool
    requires { RouteIn led.old i }
    ensures { effect result led.new ≡ change_effect led.old i (rejudged_route (hop_in (words_of registers.entry))) }
{
    if routes::ground(led, i) != 0 {
        return false;
    }
    let answer = verdict::judge(registers, routes::role(led, i), routes::path(led, i));
    routes::stamp(led, i, answer.verdict())
}

// Every route judged anew; answers how many changed.
fn rejudge_routes(registers: Registers<'_>, led: &mut [u32]) -> usize
    requires { (length led.old ≡ ledger_words) × (ledger_ok led.old ≡ true) }
    ensures { effect result led.new ≡ rejudged_effect (hop_in (words_of registers.entry)) led.old }
{
    let n = routes::count(led);
    let mut changed = 0;
    for i in 0..n {
        if rejudge_route(registers, led, i) {
            changed += 1;
        }
    }
    changed
}

// Answers how many routes changed. Hints are worth their filling when there are more numbers to look up than records.
pub fn rejudge_all(registers: Registers<'_>, led: &mut [u32]) -> usize
    requires { (length led.old ≡ ledger_words) × (ledger_ok led.old ≡ true) }
    ensures { effect result led.new ≡ rejudged_effect (hop_in (words_of registers.entry)) led.old }
{
    if routes::path_words(led) <= registers.public.register.count() {
        return rejudge_routes(registers, led);
    }
    let mut public_hints = [0u32; hints::WORDS];
    let mut own_hints = [0u32; hints::WORDS];
    let hinted = Registers {
        public: Hinted::filled(registers.public.register, &mut public_hints),
        overrides: Hinted::filled(registers.overrides.register, &mut own_hints),
    };
    rejudge_routes(hinted, led)
}
