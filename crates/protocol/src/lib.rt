// The console's protocol: a line in, a line out, over tables and buffers that the caller lends.
#![tactic(auto)]

ghost use Rattle.std.specs.Prelude.{◌≡◌, ◌+◌, ◌≤◌, length, take};
ghost use Rattle.table.specs.Table.{pad};
ghost use Rattle.text.specs.Wrote.{Room, Wrote};
ghost use Rattle.lines.specs.Words.{words_of};
ghost use Rattle.calls.specs.Commands.{most_line, most_lent, resize, resize_command, empty_command};
ghost use Rattle.calls.specs.Lent.{or_error};
ghost use Rattle.calls.specs.Performing.{tables_of, result_of, performed};
ghost use Rattle.commands.specs.Commands.{lent_command, command_of};
ghost use Rattle.replies.specs.Texts.{reply_text, most_reply};
ghost use Rattle.protocol.specs.Feeding.{command_in, line_in, lent_in, most_text, HeldIn, Carries, Answers, Joins, Ready, EndsLine, Feeds, Closes, Finishes};

use calls::{Named, Reply, Tables};
use lines::Line;
use text::Text;

// How many words each table is lent with.
#[derive(Clone, Copy)]
pub struct Lent {
    pub register: usize,
    pub overrides: usize,
    pub ledger: usize,
}

// The words of empty tables.
pub const EMPTY: Lent = Lent {
    register: register::WORDS,
    overrides: register::WORDS,
    ledger: ledger::WORDS,
};

// The tables, all their words, and how many of them each is lent with.
#[derive(Drop)]
pub struct Lending<'a> {
    pub tables: Tables<'a>,
    pub lent: Lent,
}

// A session: what stands in its line ends one byte past the buffer where the line is too long.
#[derive(Drop)]
pub struct Console<'a> {
    pub lending: Lending<'a>,
    pub line: Text<'a>,
    pub out: Text<'a>,
}

// The room that an answer takes at most, with its newline.
pub const MOST_TEXT: usize = replies::MOST_REPLY + 1;

// The first words stay, and zeros stand behind them.
fn cut(table: &mut [u32], to: usize)
    requires { to ≤ length table.old }
    ensures { table.new ≡ pad (length table.old) (take to table.old) }
{
    table[to..].fill(0);
}

// Every command that leaves the lengths as they are. (Tables of whole slices: of a part of a slice that a struct holds a proof would not know the end.)
fn run(line: Line<'_>, register: &mut [u32], overrides: &mut [u32], ledger: &mut [u32]) -> Reply
    requires { length line.bytes.now ≤ most_line }
    ensures { result_of result register.new overrides.new ledger.new
        ≡ performed (tables_of register.old overrides.old ledger.old) (lent_command (words_of line.entry.bytes.now)) }
{
    let mut tables = Tables {
        register,
        overrides,
        ledger,
    };
    commands::choice::run(line, &mut tables)
}

impl Lending<'_> {
    fn resize_named(&mut self, named: Named, to: usize) -> Reply
        requires { (to ≤ most_lent) × (HeldIn self.old) }
        ensures { Carries self.old self.new result (resize named to) }
    {
        match named {
            Named::Register => {
                cut(self.tables.register, to);
                self.lent.register = to;
                Reply::Done
            }
            Named::Overrides => {
                cut(self.tables.overrides, to);
                self.lent.overrides = to;
                Reply::Done
            }
            Named::Ledger => {
                cut(self.tables.ledger, to);
                self.lent.ledger = to;
                Reply::Done
            }
        }
    }

    fn resize(&mut self, line: Line<'_>) -> Option<Reply>
        requires { HeldIn self.old }
        ensures { Carries self.old self.new (or_error result) (resize_command (words_of line.entry.bytes.now)) }
    {
        if line.count != 3 {
            return None;
        }
        let named = commands::choice::named(line, 1)?;
        let to = line.number(2)? as usize;
        if calls::MOST_LENT < to {
            return None;
        }
        Some(self.resize_named(named, to))
    }

    fn empty(&mut self, line: Line<'_>) -> Option<Reply>
        requires { HeldIn self.old }
        ensures { Carries self.old self.new (or_error result) (empty_command (words_of line.entry.bytes.now)) }
    {
        if line.count != 1 {
            return None;
        }
        cut(self.tables.register, 0);
        cut(self.tables.overrides, 0);
        cut(self.tables.ledger, 0);
        self.lent = EMPTY;
        Some(Reply::Done)
    }

    // The command of a line.
    fn perform(&mut self, line: Line<'_>) -> Reply
        requires { (length line.bytes.now ≤ most_line) × (HeldIn self.old) }
        ensures { Carries self.old self.new result (command_of (words_of line.entry.bytes.now)) }
    {
        if line.is_word(0, b"resize") {
            self.resize(line).unwrap_or(Reply::Error)
        } else if line.is_word(0, b"empty") {
            self.empty(line).unwrap_or(Reply::Error)
        } else {
            let lent = self.lent;
            let tables = &mut self.tables;
            let register = &mut *tables.register;
            let overrides = &mut *tables.overrides;
            let ledger = &mut *tables.ledger;
            run(
                line,
                &mut register[..lent.register],
                &mut overrides[..lent.overrides],
                &mut ledger[..lent.ledger],
            )
        }
    }

    // The same of the line up to end, which may be too long.
    fn perform_line(&mut self, line: &[u8], end: usize) -> Reply
        requires { (length line.now ≡ most_line) × (HeldIn self.old) }
        ensures { Carries self.old self.new result (command_in (line_in end line.now)) }
    {
        if line.len() < end {
            Reply::Error
        } else {
            self.perform(Line::new(&line[..end]))
        }
    }

    // A reply's text. (Each table is borrowed whole first: a part of a slice behind two references is not covered by the check.)
    fn put(&self, reply: Reply, out: &mut Text<'_>)
        requires { (HeldIn self.now) × (Room out.old most_reply) }
        ensures wrote { Wrote out.old out.new (reply_text (lent_in self.now) reply) }
        ensures within { out.new.end ≤ out.old.end + most_reply }
    {
        let lent = self.lent;
        let register = &*self.tables.register;
        let overrides = &*self.tables.overrides;
        let ledger = &*self.tables.ledger;
        replies::put(
            out,
            reply,
            &register[..lent.register],
            &overrides[..lent.overrides],
            &ledger[..lent.ledger],
        );
    }

    // The command of the line up to end, and its answer.
    fn answer_to(&mut self, line: &[u8], end: usize, out: &mut Text<'_>)
        requires { (length line.now ≡ most_line) × (HeldIn self.old) × (Room out.old most_reply) }
        ensures { Answers self.old self.new out.old out.new (command_in (line_in end line.now)) }
    {
        let reply = self.perform_line(line, end);
        self.put(reply, out);
    }

    // The same of a line in its buffer. (In `Console` the line's bytes alone cannot be lent beside the tables and the output: that is not covered either.)
    fn answer(&mut self, line: &Text<'_>, out: &mut Text<'_>)
        requires { (length line.now.buffer.now ≡ most_line) × (HeldIn self.old) × (Room out.old most_reply) }
        ensures { Answers self.old self.new out.old out.new (command_in (line_in line.now.end line.now.buffer.now)) }
    {
        let end = line.end;
        self.answer_to(line.buffer, end, out);
    }

    // The end of the input where the line is lent shared: what stands in it up to end is answered, and then no line stands.
    pub fn finish(&mut self, line: &[u8], end: usize, out: &mut Text<'_>)
        requires { (length line.now ≡ most_line) × (HeldIn self.old) × (Room out.old most_text) }
        ensures { Closes end line.now self.old self.new out.old out.new }
    {
        if end != 0 {
            self.answer_to(line, end, out);
            out.put(b"\n");
        }
    }
}

// The bytes of part go behind a line, if they have room there.
fn join(line: &mut Text<'_>, part: &[u8])
    requires { length line.old.buffer.now ≡ most_line }
    ensures { Joins line.old line.new part.now }
{
    let most = line.buffer.len();
    if line.end <= most {
        if most - line.end < part.len() {
            line.end = most + 1;
        } else {
            line.put(part);
        }
    }
}

impl Console<'_> {
    // The line is answered, and the next begins.
    fn end_line(&mut self)
        requires { Ready self.old }
        ensures { EndsLine self.old self.new }
    {
        self.lending.answer(&self.line, &mut self.out);
        self.out.put(b"\n");
        self.line.end = 0;
    }

    // The bytes of a piece up to its first newline: they end the line, which is answered. Where there is none, the line goes on. How many bytes were used.
    pub fn feed(&mut self, piece: &[u8]) -> usize
        requires { Ready self.old }
        ensures { Feeds piece.now self.old self.new result }
    {
        let to = lines::find(piece, 0, b'\n');
        join(&mut self.line, &piece[..to]);
        if to < piece.len() {
            self.end_line();
            return to + 1;
        }
        to
    }

    // The end of the input: what stands in the line is answered.
    pub fn finish(&mut self)
        requires { Ready self.old }
        ensures { Finishes self.old self.new }
    {
        if self.line.end != 0 {
            self.end_line();
        }
    }
}
