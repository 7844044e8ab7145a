// The command of a line, found by its first word, on the tables as they are lent.
ghost use Rattle.std.specs.Prelude.{◌≡◌, ◌≤◌, length, set};
ghost use Rattle.lines.specs.Words.{words_of, word_at};
ghost use Rattle.calls.specs.Commands.{most_line, named_by, show_command, poke_command, words_command};
ghost use Rattle.calls.specs.Performing.{poke_reply};
ghost use Rattle.calls.specs.Lent.{or_error, Performs, Replies};
ghost use Rattle.commands.specs.Commands.{lent_command};

use calls::{Named, Reply, Tables};
use lines::Line;
use types::Origin;

// The table that word k names. (Not by a `match` on byte strings, here and below: of an arm a proof knows the length alone.)
#[tactic(auto, unfolding(calls::specs::Commands::named_by))]
pub fn named(line: Line<'_>, k: usize) -> Option<Named>
    ensures { result ≡ named_by (word_at line.entry.bytes.now k) }
{
    if line.is_word(k, b"register") {
        Some(Named::Register)
    } else if line.is_word(k, b"drawer") {
        Some(Named::Overrides)
    } else if line.is_word(k, b"ledger") {
        Some(Named::Ledger)
    } else {
        None
    }
}

// A word of a table set. (Not by `get_mut`: of what is written through it a proof knows the length alone.)
fn set(table: &mut [u32], index: usize, value: u32) -> Option<Reply>
    ensures reply { or_error result ≡ poke_reply table.old index }
    ensures table { table.new ≡ set table.old index value }
{
    if index < table.len() {
        table[index] = value;
        Some(Reply::Done)
    } else {
        None
    }
}

fn poke(line: Line<'_>, tables: &mut Tables<'_>) -> Option<Reply>
    ensures { Performs tables.old tables.new (or_error result)
        (poke_command (words_of line.entry.bytes.now)) }
{
    if line.count != 4 {
        return None;
    }
    let named = named(line, 1)?;
    let index = line.number(2)? as usize;
    let value = line.number(3)?;
    match named {
        Named::Register => set(tables.register, index, value),
        Named::Overrides => set(tables.overrides, index, value),
        Named::Ledger => set(tables.ledger, index, value),
    }
}

fn words(line: Line<'_>) -> Option<Reply>
    ensures { Replies (or_error result)
        (words_command (words_of line.entry.bytes.now)) }
{
    if line.count != 2 {
        return None;
    }
    Some(Reply::Sized(named(line, 1)?))
}

fn show(line: Line<'_>) -> Option<Reply>
    ensures { Replies (or_error result)
        (show_command (words_of line.entry.bytes.now)) }
{
    if line.count != 1 {
        return None;
    }
    Some(Reply::Shown(named(line, 0)?))
}

// The reply to every command that leaves the lengths as they are.
#[tactic(auto, unfolding(crate::specs::Commands::lent_command))]
fn perform(line: Line<'_>, tables: &mut Tables<'_>) -> Option<Reply>
    requires { length line.bytes.now ≤ most_line }
    ensures { Performs tables.old tables.new (or_error result)
        (lent_command (words_of line.entry.bytes.now)) }
{
    if line.is_word(0, b"file") {
        calls::file(line, Origin::Public, tables)
    } else if line.is_word(0, b"withdraw") {
        calls::withdraw(line, Origin::Public, tables)
    } else if line.is_word(0, b"clear") {
        calls::clear(line, Origin::Public, tables)
    } else if line.is_word(0, b"judge") {
        calls::judge(line, tables)
    } else if line.is_word(0, b"keep") {
        calls::keep(line, tables)
    } else if line.is_word(0, b"drop") {
        calls::drop(line, tables)
    } else if line.is_word(0, b"rejudge") {
        calls::rejudge(line, tables)
    } else if line.is_word(0, b"read") {
        calls::read(line, tables)
    } else if line.is_word(0, b"write") {
        calls::write(line)
    } else if line.is_word(0, b"dfile") {
        calls::file(line, Origin::Overrides, tables)
    } else if line.is_word(0, b"dwithdraw") {
        calls::withdraw(line, Origin::Overrides, tables)
    } else if line.is_word(0, b"dclear") {
        calls::clear(line, Origin::Overrides, tables)
    } else if line.is_word(0, b"hop") {
        calls::hop(line, tables)
    } else if line.is_word(0, b"lookup") {
        calls::lookup(line)
    } else if line.is_word(0, b"poke") {
        poke(line, tables)
    } else if line.is_word(0, b"words") {
        words(line)
    } else {
        show(line)
    }
}

// Every command that leaves the lengths as they are.
pub fn run(line: Line<'_>, tables: &mut Tables<'_>) -> Reply
    requires { length line.bytes.now ≤ most_line }
    ensures { Performs tables.old tables.new result (lent_command (words_of line.entry.bytes.now)) }
{
    perform(line, tables).unwrap_or(Reply::Error)
}
