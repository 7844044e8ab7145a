// A snapshot read into a register and a ledger.
#![tactic(auto)]

ghost use Rattle.std.specs.Prelude.{◌≡◌, ◌*◌, ◌≤◌, ◌<◌, ◌^◌, eqb, length, None};
ghost use Rattle.table.specs.Table.{pad};
ghost use Rattle.types.specs.Rows.{first_given};
ghost use Rattle.snapshot.specs.Snapshot.{word_bytes, words_in, contents_bytes, used_count, used_bytes, field as field_of};
ghost use Rattle.snapshot.specs.Snapshot.{length_ok, contents_ok};
ghost use Rattle.snapshot.specs.Calls.{contents_rows, reading, read_effect};
ghost use Rattle.snapshot.specs.Helpers.{answer_by, Loadable};

use snapshot::{CONTENTS, EDITION, WORD};
use types::Refusal;

// The bytes of a table's two counts, the least that it has.
const COUNTS: usize = WORD * table::COUNTERS;

// Word k of the contents.
fn field(file: &[u8], k: usize) -> usize
    requires { (contents_bytes ≤ length file.now) × (k < 5) }
    ensures { (result ≡ field_of file.now k) × (result < 2 ^ 32) }
{
    let (words, _) = file[..CONTENTS].as_chunks::<WORD>();
    u32::from_be_bytes(words[k]) as usize
}

// A length in bytes of a table of at most so many words.
#[tactic(auto, unfolding(snapshot::specs::Snapshot::length_ok))]
fn is_length(bytes: usize, most: usize) -> bool
    requires { most < 2 ^ 16 }
    ensures { result ≡ length_ok bytes most }
{
    COUNTS <= bytes && bytes % WORD == 0 && bytes <= WORD * most
}

// Row 23 is not given. The contents are judged by themselves, so that a file in pieces can be judged by its first 20 bytes.
#[tactic(auto, unfolding(snapshot::specs::Snapshot::contents_ok))]
fn are_contents(file: &[u8]) -> bool
    requires { contents_bytes ≤ length file.now }
    ensures { result ≡ contents_ok file.now }
{
    let r = field(file, 2);
    field(file, 1) == CONTENTS
        && is_length(r, register::WORDS)
        && field(file, 3) == CONTENTS + r
        && is_length(field(file, 4), ledger::WORDS)
}

// Rows 24, 22, 23 and 24: the contents, and the file's length.
#[tactic(auto, unfolding(types::specs::Rows::first_given))]
fn check(file: &[u8]) -> Result<(), Refusal>
    ensures { result ≡ answer_by (first_given (contents_rows file.now)) }
{
    if file.len() < CONTENTS {
        return Err(Refusal::SnapshotLength);
    }
    if field(file, 0) != EDITION as usize {
        return Err(Refusal::Edition);
    }
    if !are_contents(file) {
        return Err(Refusal::Contents);
    }
    if file.len() != CONTENTS + field(file, 2) + field(file, 4) {
        return Err(Refusal::SnapshotLength);
    }
    Ok(())
}

// The table that the words of bytes make, with zeros behind them.
fn unpack<const N: usize>(bytes: &[u8]) -> [u32; N]
    requires { length bytes.now ≤ word_bytes * N }
    ensures { result ≡ pad N (words_in bytes.now) }
{
    let mut table = [0; N];
    let (words, _) = bytes.as_chunks::<WORD>();
    for (i, word) in words.iter().enumerate() {
        table[i] = u32::from_be_bytes(*word);
    }
    table
}

// A table's own two counts make it as many bytes.
fn fills(table: &[u32], width: usize, bytes: usize) -> bool
    requires { used_count width table.now ≤ length table.now }
    ensures { result ≡ eqb (used_bytes width table.now) bytes }
{
    WORD * snapshot::used(table, width) == bytes
}

// Rows 2 and 3. The file's words are checked in tables of our own before a lent word changes.
#[tactic(auto, using(snapshot::proofs::Padding::register_within, snapshot::proofs::Padding::ledger_within))]
fn load(file: &[u8], reg: &mut [u32], led: &mut [u32]) -> Result<(), Refusal>
    requires { Loadable file.now reg.old led.old }
    ensures { reading result reg.new led.new ≡ read_effect file.now reg.old led.old }
{
    let r = field(file, 2);
    let start = CONTENTS + r;
    let own_register: [u32; register::WORDS] = unpack(&file[CONTENTS..start]);
    if !finding::is_register(&own_register) || !fills(&own_register, register::WIDTH, r) {
        return Err(Refusal::RegisterMalformed);
    }
    let own_ledger: [u32; ledger::WORDS] = unpack(&file[start..]);
    if !routes::is_ledger(&own_ledger) || !fills(&own_ledger, ledger::WIDTH, field(file, 4)) {
        return Err(Refusal::RoutesMalformed);
    }
    reg.copy_from_slice(&own_register);
    led.copy_from_slice(&own_ledger);
    Ok(())
}

// Reads the file into both tables, whose earlier words are not looked at.
// Rows 1, 24 of a file under 20 bytes, 22, 23, 24, 2, 3; row 1 is tested for both tables.
#[tactic(auto, using(snapshot::proofs::Reading::contents_refused), unfolding(types::specs::Rows::first_given, snapshot::specs::Calls::read_effect))]
pub fn read(file: &[u8], reg: &mut [u32], led: &mut [u32]) -> Result<(), Refusal>
    ensures { reading result reg.new led.new ≡ read_effect file.now reg.old led.old }
{
    if reg.len() != register::WORDS || led.len() != ledger::WORDS {
        return Err(Refusal::TableLength);
    }
    check(file)?;
    load(file, reg, led)
}
