// The static library for C: exports crate `c_api`, call by call, each with the same promise.
#![tactic(auto)]

ghost use Rattle.std.specs.Prelude.{◌≡◌};
ghost use Rattle.types.specs.Rows.{effect};
ghost use Rattle.register.specs.Calls.{file_effect, withdraw_effect, clear_effect};
ghost use Rattle.ledger.specs.Calls.{drop_effect};
ghost use Rattle.registers.specs.Registers.{lent};
ghost use Rattle.effects.specs.Calls.{judge_answer, keeping, keep_effect, rejudge_effect, hop_answer, lookup_part};
ghost use Rattle.snapshot.specs.Calls.{write_effect, read_effect};
ghost use Rattle.told.specs.Answers.{told, told_route, told_tables, telling};
ghost use Rattle.told.specs.Answers.{filed_told, done_told, counted_told, judged_told, written_told, reading_told};
ghost use Rattle.told.specs.Answers.{hopped_told, part_told};

use told::{ANSWER_WORDS, HOP_WORDS, PART_WORDS};

// File: out[0] is 0 for new, 1 for replaced, NOT_FILED on a refusal. Rows 1, 2, 4, 5, 6, 8.
#[unsafe(no_mangle)]
pub extern "C" fn aspa_file(
    register: &mut [u32],
    source: u32,
    customer: u32,
    providers: &[u32],
    out: &mut [u32; 1],
) -> u32
    ensures { effect (told result out.new) register.new
        ≡ telling filed_told (file_effect register.old source customer providers.now) }
{
    c_api::aspa_file(register, source, customer, providers, out)
}

// Withdraw. Rows 1, 2, 4, 5, 7.
#[unsafe(no_mangle)]
pub extern "C" fn aspa_withdraw(register: &mut [u32], source: u32, customer: u32) -> u32
    ensures { effect result register.new ≡ telling done_told (withdraw_effect register.old source customer) }
{
    c_api::aspa_withdraw(register, source, customer)
}

// Clear: out[0] is how many records went, NO_COUNT on a refusal. Rows 1, 2, 4.
#[unsafe(no_mangle)]
pub extern "C" fn aspa_clear(register: &mut [u32], source: u32, out: &mut [u32; 1]) -> u32
    ensures { effect (told result out.new) register.new
        ≡ telling counted_told (clear_effect register.old source) }
{
    c_api::aspa_clear(register, source, out)
}

// Judge: the answer's words in out, the gap beside them; NO_VERDICT and the place on a refusal. Rows 1, 2, 9, 10, 11, 12 to 16, 17.
#[unsafe(no_mangle)]
pub extern "C" fn aspa_judge<'a>(
    public: &'a [u32],
    overrides: &'a [u32],
    role: u32,
    neighbour: u32,
    attribute: &[u8],
    out: &mut [u32; ANSWER_WORDS],
    gap: &mut i32,
) -> u32
    ensures { told_route result out.new gap.new
        ≡ judged_told (judge_answer (lent public.now overrides.now) role neighbour attribute.now) }
{
    c_api::aspa_judge(public, overrides, role, neighbour, attribute, out, gap)
}

// Keep: answers as Judge, and stores the route. Rows 1, 2, 3, 9, 10, 11, 12 to 16, 17, 18, 20.
#[unsafe(no_mangle)]
pub extern "C" fn aspa_keep<'a>(
    public: &'a [u32],
    overrides: &'a [u32],
    ledger: &mut [u32],
    number: u32,
    role: u32,
    neighbour: u32,
    attribute: &[u8],
    out: &mut [u32; ANSWER_WORDS],
    gap: &mut i32,
) -> u32
    ensures { effect (told_route result out.new gap.new) ledger.new
        ≡ telling judged_told (keep_effect (lent public.now overrides.now) ledger.old
        (keeping number role neighbour attribute.now)) }
{
    c_api::aspa_keep(
        public, overrides, ledger, number, role, neighbour, attribute, out, gap,
    )
}

// Drop. Rows 1, 3, 19.
#[unsafe(no_mangle)]
pub extern "C" fn aspa_drop(ledger: &mut [u32], number: u32) -> u32
    ensures { effect result ledger.new ≡ telling done_told (drop_effect ledger.old number) }
{
    c_api::aspa_drop(ledger, number)
}

// Re-judge: out[0] is how many routes changed, NO_COUNT on a refusal. Rows 1, 2, 3.
#[unsafe(no_mangle)]
pub extern "C" fn aspa_rejudge<'a>(
    public: &'a [u32],
    overrides: &'a [u32],
    ledger: &mut [u32],
    out: &mut [u32; 1],
) -> u32
    ensures { effect (told result out.new) ledger.new
        ≡ telling counted_told (rejudge_effect (lent public.now overrides.now) ledger.old) }
{
    c_api::aspa_rejudge(public, overrides, ledger, out)
}

// Hop: out is the hop, the number of its register and its source; NO_HOP on a refusal. Rows 1, 2.
#[unsafe(no_mangle)]
pub extern "C" fn aspa_hop<'a>(
    public: &'a [u32],
    overrides: &'a [u32],
    x: u32,
    y: u32,
    out: &mut [u32; HOP_WORDS],
) -> u32
    ensures { told result out.new ≡ hopped_told (hop_answer (lent public.now overrides.now) x y) }
{
    c_api::aspa_hop(public, overrides, x, y, out)
}

// Look-up: out is the number of the register that the source's list for the customer stands in, where it starts there and how many numbers it has;
// all 0 where there is none, or where row 1, 2, 4 or 5 is given.
#[unsafe(no_mangle)]
pub extern "C" fn aspa_lookup<'a>(
    public: &'a [u32],
    overrides: &'a [u32],
    source: u32,
    customer: u32,
    out: &mut [u32; PART_WORDS],
)
    ensures { out.new ≡ part_told (lookup_part (lent public.now overrides.now) source customer) }
{
    c_api::aspa_lookup(public, overrides, source, customer, out);
}

// Write: the file of the register and the ledger goes to the start of the output. out[0] is its length in bytes, NO_BYTES on a refusal. Rows 1, 2, 3, 21.
#[unsafe(no_mangle)]
pub extern "C" fn aspa_write(
    register: &[u32],
    ledger: &[u32],
    output: &mut [u8],
    out: &mut [u32; 1],
) -> u32
    ensures { effect (told result out.new) output.new
        ≡ telling written_told (write_effect register.now ledger.now output.old) }
{
    c_api::aspa_write(register, ledger, output, out)
}

// Read: both tables get the words of the file. Rows 1, 24 of a file under 20 bytes, 22, 23, 24, 2, 3.
#[unsafe(no_mangle)]
pub extern "C" fn aspa_read(file: &[u8], register: &mut [u32], ledger: &mut [u32]) -> u32
    ensures { told_tables result register.new ledger.new
        ≡ reading_told (read_effect file.now register.old ledger.old) }
{
    c_api::aspa_read(file, register, ledger)
}
