// One file that holds a register and a ledger: its contents, five words, then the used words of both. A word is four bytes, high byte first. Here it
// is written; crate `restoring` reads it.
#![tactic(auto)]

ghost use Rattle.std.specs.Prelude.{◌≡◌, ◌+◌, ◌*◌, ◌^◌, ◌≤◌, ◌<◌, length};
ghost use Rattle.types.specs.Rows.{effect};
ghost use Rattle.snapshot.specs.Snapshot.{word_bytes, contents_bytes, bytes_of, used_count};
ghost use Rattle.snapshot.specs.Calls.{over, write_effect};
ghost use Rattle.snapshot.specs.Helpers.{file_of};

use types::Refusal;

pub const EDITION: u32 = 1;

// The bytes of a word.
pub const WORD: usize = 4;

// The bytes of the contents.
pub const CONTENTS: usize = 20;

// The bytes of words fill a buffer.
fn pack(words: &[u32], into: &mut [u8])
    requires { length into.old ≡ word_bytes * length words.now }
    ensures { into.new ≡ bytes_of words.now }
{
    for (i, word) in words.iter().enumerate() {
        let at = WORD * i;
        into[at..at + WORD].copy_from_slice(&word.to_be_bytes());
    }
}

// How many words of a table are used, where a slot has so many words. In a well-formed table they do not lead past its end.
pub fn used(table: &[u32], slot: usize) -> usize
    requires { used_count slot table.now ≤ length table.now }
    ensures { result ≡ used_count slot table.now }
{
    table::COUNTERS + table::word(table, 0) * slot + table::word(table, 1)
}

// ---- writing

// The file of a register's and a ledger's used words goes to the start of the output.
fn emit(reg: &[u32], led: &[u32], out: &mut [u8])
    requires few { length reg.now + length led.now < 2 ^ 24 }
    requires room { contents_bytes + word_bytes * length reg.now + word_bytes * length led.now ≤ length out.old }
    ensures { out.new ≡ over (file_of reg.now led.now) out.old }
{
    let r = WORD * reg.len();
    let l = WORD * led.len();
    let contents = [
        EDITION,
        CONTENTS as u32,
        r as u32,
        (CONTENTS + r) as u32,
        l as u32,
    ];
    let (head, rest) = out.split_at_mut(CONTENTS);
    let (first, second) = rest.split_at_mut(r);
    pack(&contents, head);
    pack(reg, first);
    pack(led, &mut second[..l]);
}

// Writes the file of both tables to the start of the output, and answers its length in bytes. The output's other bytes stay.
// Rows 1, 2, 3, 21; row 1 is tested for both tables before row 2.
#[tactic(auto, using(crate::proofs::Padding::cuts), unfolding(types::specs::Rows::first_given, crate::specs::Calls::write_effect))]
pub fn write(reg: &[u32], led: &[u32], out: &mut [u8]) -> Result<usize, Refusal>
    ensures { effect result out.new ≡ write_effect reg.now led.now out.old }
{
    if reg.len() != register::WORDS || led.len() != ledger::WORDS {
        return Err(Refusal::TableLength);
    }
    finding::check(reg)?;
    if !routes::is_ledger(led) {
        return Err(Refusal::RoutesMalformed);
    }
    let r = used(reg, register::WIDTH);
    let l = used(led, ledger::WIDTH);
    let bytes = CONTENTS + WORD * (r + l);
    if out.len() < bytes {
        return Err(Refusal::OutputLength);
    }
    emit(&reg[..r], &led[..l], out);
    Ok(bytes)
}
