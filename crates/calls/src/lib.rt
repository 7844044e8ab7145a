// The calls of the filter and of the snapshot as the console's commands, each with its arguments read from a line, and what a command replies. A line
// that has no reply is no command, and changes nothing.
#![tactic(auto)]

ghost use Rattle.std.specs.Prelude.{◌≡◌, ◌*◌, ◌≤◌, length};
ghost use Rattle.std.specs.Fn.{FnOnceReturnsAtMut};
ghost use Rattle.lines.specs.Words.{words_of};
ghost use Rattle.registers.specs.Registers.{chosen};
ghost use Rattle.calls.specs.Commands.{most_line, most_parts, file_command, withdraw_command, clear_command, judge_command, keep_command, drop_command};
ghost use Rattle.calls.specs.Commands.{rejudge_command, read_command, write_command, hop_command, lookup_command};
ghost use Rattle.calls.specs.Lent.{or_error, Performs, Replies, registers_in, Changes};

use lines::Line;
use types::{Answer, AsNumber, Filed, Hop, Origin, Refusal, RouteNumber};

// The most bytes of a line.
pub const MOST_LINE: usize = 262144;

// The most words that a table is lent with.
pub const MOST_LENT: usize = 16384;

// The most bytes of an output that a snapshot is written to.
pub const MOST_OUTPUT: usize = 131072;

// The table that a word names.
#[derive(Clone, Copy)]
pub enum Named {
    Register,
    Overrides,
    Ledger,
}

// Shown and Sized look at a table when they are put as text, Written at the public register and the ledger, and Listed at both registers. Written has
// the bytes of the output that a snapshot is written to, and Listed the source and the customer whose list is looked up.
#[derive(Clone, Copy)]
pub enum Reply {
    Done,
    Error,
    Filed(Result<Filed, Refusal>),
    Removed(Result<(), Refusal>),
    Cleared(Result<u32, Refusal>),
    Judged(Result<Answer, Refusal>),
    Hopped(Result<Hop, Refusal>),
    Rejudged(Result<u32, Refusal>),
    Restored(Result<(), Refusal>),
    Written(usize),
    Listed(u32, u32),
    Shown(Named),
    Sized(Named),
}

// The most numbers, or bytes in hex, of a line: each takes two of its bytes.
const MOST_PARTS: usize = MOST_LINE / 2;

// The parts of a line of at most this length have a small buffer, because clearing the large one would take longer than the call: a File, a Judge or
// a Keep that no limit refuses fits in such a line.
const SHORT_LINE: usize = 4096;

const SHORT_PARTS: usize = SHORT_LINE / 2;

// The tables that the commands work on, as they are lent.
#[derive(Drop)]
pub struct Tables<'a> {
    pub register: &'a mut [u32],
    pub overrides: &'a mut [u32],
    pub ledger: &'a mut [u32],
}

impl Tables<'_> {
    // File, Withdraw and Clear work on the register of an origin, and are lent no other table.
    fn change<R, F: FnOnce(&mut [u32]) -> R>(&mut self, origin: Origin, call: F) -> R
        requires { F.IsAlwaysCallable call }
        ensures called { FnOnceReturnsAtMut F.FnOnce call (chosen origin (registers_in self.old)) result
            (chosen origin (registers_in self.new)) }
        ensures others { Changes origin self.old self.new }
    {
        match origin {
            Origin::Public => call(self.register),
            Origin::Overrides => call(self.overrides),
        }
    }
}

// A File whose providers have room for N numbers.
#[tactic(auto, using(lines::proofs::Readings::read_list, lines::proofs::Readings::read_all))]
fn file_with<const N: usize>(
    line: Line<'_>,
    origin: Origin,
    tables: &mut Tables<'_>,
) -> Option<Reply>
    requires room { length line.bytes.now ≤ 2 * N }
    requires small { N ≤ most_parts }
    ensures { Performs tables.old tables.new (or_error result)
        (file_command origin (words_of line.entry.bytes.now)) }
{
    if line.count < 3 {
        return None;
    }
    let source = line.number(1)?;
    let customer = line.number(2)?;
    let mut buffer = [0; N];
    let n = line.numbers(3, &mut buffer)?;
    let providers = &buffer[..n];
    let filed = tables.change(origin, |register| {
        filter::file(register, source, AsNumber(customer), providers)
    });
    Some(Reply::Filed(filed))
}

pub fn file(line: Line<'_>, origin: Origin, tables: &mut Tables<'_>) -> Option<Reply>
    requires { length line.bytes.now ≤ most_line }
    ensures { Performs tables.old tables.new (or_error result)
        (file_command origin (words_of line.entry.bytes.now)) }
{
    if line.bytes.len() <= SHORT_LINE {
        file_with::<SHORT_PARTS>(line, origin, tables)
    } else {
        file_with::<MOST_PARTS>(line, origin, tables)
    }
}

pub fn withdraw(line: Line<'_>, origin: Origin, tables: &mut Tables<'_>) -> Option<Reply>
    ensures { Performs tables.old tables.new (or_error result)
        (withdraw_command origin (words_of line.entry.bytes.now)) }
{
    if line.count != 3 {
        return None;
    }
    let source = line.number(1)?;
    let customer = line.number(2)?;
    let removed = tables.change(origin, |register| {
        filter::withdraw(register, source, AsNumber(customer))
    });
    Some(Reply::Removed(removed))
}

pub fn clear(line: Line<'_>, origin: Origin, tables: &mut Tables<'_>) -> Option<Reply>
    ensures { Performs tables.old tables.new (or_error result)
        (clear_command origin (words_of line.entry.bytes.now)) }
{
    if line.count != 2 {
        return None;
    }
    let source = line.number(1)?;
    let cleared = tables.change(origin, |register| filter::clear(register, source));
    Some(Reply::Cleared(cleared))
}

// A Judge whose attribute has room for N bytes.
#[tactic(auto, using(lines::proofs::Readings::read_bytes_in))]
fn judge_with<const N: usize>(line: Line<'_>, tables: &Tables<'_>) -> Option<Reply>
    requires room { length line.bytes.now ≤ 2 * N }
    requires small { N ≤ most_parts }
    ensures { Performs tables.now tables.now (or_error result)
        (judge_command (words_of line.entry.bytes.now)) }
{
    if line.count != 4 {
        return None;
    }
    let role = line.number(1)?;
    let neighbour = line.number(2)?;
    let mut attribute = [0; N];
    let n = line.bytes_at(3, &mut attribute)?;
    let judged = filter::judge(
        tables.register,
        tables.overrides,
        role,
        AsNumber(neighbour),
        &attribute[..n],
    );
    Some(Reply::Judged(judged))
}

pub fn judge(line: Line<'_>, tables: &Tables<'_>) -> Option<Reply>
    requires { length line.bytes.now ≤ most_line }
    ensures { Performs tables.now tables.now (or_error result)
        (judge_command (words_of line.entry.bytes.now)) }
{
    if line.bytes.len() <= SHORT_LINE {
        judge_with::<SHORT_PARTS>(line, tables)
    } else {
        judge_with::<MOST_PARTS>(line, tables)
    }
}

// A Keep whose attribute has room for N bytes.
#[tactic(auto, using(lines::proofs::Readings::read_bytes_in))]
fn keep_with<const N: usize>(line: Line<'_>, tables: &mut Tables<'_>) -> Option<Reply>
    requires room { length line.bytes.now ≤ 2 * N }
    requires small { N ≤ most_parts }
    ensures { Performs tables.old tables.new (or_error result)
        (keep_command (words_of line.entry.bytes.now)) }
{
    if line.count != 5 {
        return None;
    }
    let number = line.number(1)?;
    let role = line.number(2)?;
    let neighbour = line.number(3)?;
    let mut attribute = [0; N];
    let n = line.bytes_at(4, &mut attribute)?;
    // (Borrowed first: a call that reads two fields and writes a third behind one reference is not covered by the check.)
    let register = &mut *tables.register;
    let overrides = &mut *tables.overrides;
    let judged = filter::keep(
        register,
        overrides,
        tables.ledger,
        RouteNumber(number),
        role,
        AsNumber(neighbour),
        &attribute[..n],
    );
    Some(Reply::Judged(judged))
}

pub fn keep(line: Line<'_>, tables: &mut Tables<'_>) -> Option<Reply>
    requires { length line.bytes.now ≤ most_line }
    ensures { Performs tables.old tables.new (or_error result)
        (keep_command (words_of line.entry.bytes.now)) }
{
    if line.bytes.len() <= SHORT_LINE {
        keep_with::<SHORT_PARTS>(line, tables)
    } else {
        keep_with::<MOST_PARTS>(line, tables)
    }
}

pub fn drop(line: Line<'_>, tables: &mut Tables<'_>) -> Option<Reply>
    ensures { Performs tables.old tables.new (or_error result)
        (drop_command (words_of line.entry.bytes.now)) }
{
    if line.count != 2 {
        return None;
    }
    let number = line.number(1)?;
    let removed = filter::drop(tables.ledger, RouteNumber(number));
    Some(Reply::Removed(removed))
}

pub fn rejudge(line: Line<'_>, tables: &mut Tables<'_>) -> Option<Reply>
    ensures { Performs tables.old tables.new (or_error result)
        (rejudge_command (words_of line.entry.bytes.now)) }
{
    if line.count != 1 {
        return None;
    }
    let register = &mut *tables.register;
    let overrides = &mut *tables.overrides;
    let rejudged = filter::rejudge(register, overrides, tables.ledger);
    Some(Reply::Rejudged(rejudged))
}

// A Read whose file has room for N bytes. It goes into the public register and the ledger.
#[tactic(auto, using(lines::proofs::Readings::read_bytes_in))]
fn read_with<const N: usize>(line: Line<'_>, tables: &mut Tables<'_>) -> Option<Reply>
    requires room { length line.bytes.now ≤ 2 * N }
    requires small { N ≤ most_parts }
    ensures { Performs tables.old tables.new (or_error result)
        (read_command (words_of line.entry.bytes.now)) }
{
    if line.count != 2 {
        return None;
    }
    let mut file = [0; N];
    let n = line.bytes_at(1, &mut file)?;
    let restored = restoring::read(&file[..n], tables.register, tables.ledger);
    Some(Reply::Restored(restored))
}

pub fn read(line: Line<'_>, tables: &mut Tables<'_>) -> Option<Reply>
    requires { length line.bytes.now ≤ most_line }
    ensures { Performs tables.old tables.new (or_error result)
        (read_command (words_of line.entry.bytes.now)) }
{
    if line.bytes.len() <= SHORT_LINE {
        read_with::<SHORT_PARTS>(line, tables)
    } else {
        read_with::<MOST_PARTS>(line, tables)
    }
}

// The snapshot is written when the reply is put as text: it changes no table.
pub fn write(line: Line<'_>) -> Option<Reply>
    ensures { Replies (or_error result)
        (write_command (words_of line.entry.bytes.now)) }
{
    if line.count != 2 {
        return None;
    }
    let capacity = line.number(1)? as usize;
    if MOST_OUTPUT < capacity {
        return None;
    }
    Some(Reply::Written(capacity))
}

pub fn hop(line: Line<'_>, tables: &Tables<'_>) -> Option<Reply>
    ensures { Performs tables.now tables.now (or_error result)
        (hop_command (words_of line.entry.bytes.now)) }
{
    if line.count != 3 {
        return None;
    }
    let x = line.number(1)?;
    let y = line.number(2)?;
    if x == 0 || y == 0 {
        return None;
    }
    let hopped = filter::hop(tables.register, tables.overrides, AsNumber(x), AsNumber(y));
    Some(Reply::Hopped(hopped))
}

// The list is looked up when the reply is put as text: that changes no table.
pub fn lookup(line: Line<'_>) -> Option<Reply>
    ensures { Replies (or_error result)
        (lookup_command (words_of line.entry.bytes.now)) }
{
    if line.count != 3 {
        return None;
    }
    let customer = line.number(1)?;
    let source = line.number(2)?;
    Some(Reply::Listed(source, customer))
}
