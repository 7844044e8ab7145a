// A reply as text, with the tables as its command leaves them.
#![tactic(auto, using(text::proofs::Wrote::writing))]

ghost use Rattle.std.specs.Prelude.{◌≡◌, ◌+◌, ◌*◌, ◌≤◌, ◌<◌, ◌^◌, length, replicate};
ghost use Rattle.text.specs.Wrote.{Room, Wrote};
ghost use Rattle.registers.specs.Registers.{lent};
ghost use Rattle.calls.specs.Performing.{tables_of};
ghost use Rattle.calls.specs.Commands.{most_lent, most_output};
ghost use Rattle.answers.specs.Texts.{spaced_text};
ghost use Rattle.replies.specs.Texts.{table_named, slot_width, used_words, without_zeros, sized_text, snapshot_text, lookup_text, reply_text};
ghost use Rattle.replies.specs.Texts.{Small, most_reply};

use answers::Put;
use calls::{Named, Reply};
use text::Text;
use types::AsNumber;

// The room that a reply takes at most: a snapshot's length, and two digits for each of its bytes. The words of a table, of eleven bytes each at
// most, take less.
pub const MOST_REPLY: usize = 128 + 2 * calls::MOST_OUTPUT;

fn named<'a>(register: &'a [u32], overrides: &'a [u32], ledger: &'a [u32], name: Named) -> &'a [u32]
    requires { Small (tables_of register.now overrides.now ledger.now) }
    ensures same { result.now ≡ table_named (tables_of register.now overrides.now ledger.now) name }
    ensures small { length result.now ≤ most_lent }
{
    match name {
        Named::Register => register,
        Named::Overrides => overrides,
        Named::Ledger => ledger,
    }
}

// The words of a slot of the table of a name.
fn width(name: Named) -> usize
    ensures same { result ≡ slot_width name }
    ensures small { result < 2 ^ 16 }
{
    match name {
        Named::Register | Named::Overrides => register::WIDTH,
        Named::Ledger => ledger::WIDTH,
    }
}

// The words up to the last of the bodies, where a slot has so many words. In a malformed table the counts may lead past the end: then all.
fn used(table: &[u32], width: usize) -> &[u32]
    requires { width < 2 ^ 16 }
    ensures { result.now ≡ used_words width table.now }
{
    match table {
        [slots, bodies, ..] => {
            let end = table::COUNTERS + width * *slots as usize + *bodies as usize;
            &table[..end.min(table.len())]
        }
        _ => table,
    }
}

// The words up to the last that is not zero.
#[tactic(auto, using(crate::proofs::Trimming::trimming))]
fn without_zeros(table: &[u32]) -> &[u32]
    ensures same { result.now ≡ without_zeros table.now }
    ensures short { length result.now ≤ length table.now }
{
    let mut rest = table;
    while let [before @ .., last] = rest {
        if *last != 0 {
            return rest;
        }
        rest = before;
    }
    rest
}

// Words separated by spaces.
#[tactic(auto, using(crate::proofs::Spacing::spacing))]
fn put_spaced(text: &mut Text, words: &[u32])
    requires few { length words.now ≤ most_lent }
    requires room { Room text.old most_reply }
    ensures wrote { Wrote text.old text.new (spaced_text words.now) }
    ensures within { text.new.end ≤ text.old.end + most_reply }
{
    if let [first, others @ ..] = words {
        text.put_decimal(u64::from(*first));
        answers::put_each(text, others);
    }
}

// A table's length, then its words up to the last that is not zero.
fn put_sized(text: &mut Text, table: &[u32])
    requires few { length table.now ≤ most_lent }
    requires room { Room text.old most_reply }
    ensures wrote { Wrote text.old text.new (sized_text table.now) }
    ensures within { text.new.end ≤ text.old.end + most_reply }
{
    text.put_decimal(table.len() as u64);
    answers::put_each(text, without_zeros(table));
}

// The array is made in a function of its own, so that no proof has to look at its elements.
fn no_output() -> [u8; calls::MOST_OUTPUT]
    ensures { result ≡ replicate most_output 0 }
{
    [0; calls::MOST_OUTPUT]
}

// A snapshot of the public register and the ledger, written to an output of so many bytes and put as text.
fn put_snapshot(text: &mut Text, capacity: usize, register: &[u32], ledger: &[u32])
    requires { Room text.old most_reply }
    ensures wrote { Wrote text.old text.new (snapshot_text register.now ledger.now capacity) }
    ensures within { text.new.end ≤ text.old.end + most_reply }
{
    let mut output = no_output();
    let lent = &mut output[..capacity.min(calls::MOST_OUTPUT)];
    let written = snapshot::write(register, ledger, lent);
    answers::put_written(text, written, lent);
}

// The part of a register that is looked up goes into the text as it stands there.
#[tactic(auto, using(crate::proofs::Lookups::list_short))]
fn put_lookup(text: &mut Text, source: u32, customer: AsNumber, register: &[u32], overrides: &[u32])
    requires { Room text.old most_reply }
    ensures wrote { Wrote text.old text.new (lookup_text (lent register.now overrides.now) source customer.0) }
    ensures within { text.new.end ≤ text.old.end + most_reply }
{
    let providers = filter::lookup(register, overrides, source, customer);
    answers::put_list(text, providers);
}

// The tables are lent one by one and shared, since no reply changes any: those of `Tables` are lent exclusively.
pub fn put(text: &mut Text, reply: Reply, register: &[u32], overrides: &[u32], ledger: &[u32])
    requires small { Small (tables_of register.now overrides.now ledger.now) }
    requires room { Room text.old most_reply }
    ensures wrote { Wrote text.old text.new (reply_text (tables_of register.now overrides.now ledger.now) reply) }
    ensures within { text.new.end ≤ text.old.end + most_reply }
{
    match reply {
        Reply::Done => text.put(b"done"),
        Reply::Error => text.put(b"error"),
        Reply::Filed(filed) => filed.put(text),
        Reply::Removed(done) => done.put(text),
        Reply::Cleared(count) => answers::put_count(text, b"cleared ", count),
        Reply::Judged(answer) => answer.put(text),
        Reply::Hopped(hop) => hop.put(text),
        Reply::Rejudged(count) => answers::put_count(text, b"changed ", count),
        Reply::Restored(done) => done.put(text),
        Reply::Written(capacity) => put_snapshot(text, capacity, register, ledger),
        Reply::Listed(source, customer) => {
            put_lookup(text, source, AsNumber(customer), register, overrides);
        }
        Reply::Shown(name) => {
            let table = named(register, overrides, ledger, name);
            put_spaced(text, used(table, width(name)));
        }
        Reply::Sized(name) => put_sized(text, named(register, overrides, ledger, name)),
    }
}
