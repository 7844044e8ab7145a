// Provider records in a table: limits, layout, and words that were checked. Crate `finding` has the code.
#![tactic(auto)]

ghost use Rattle.std.specs.Prelude.{◌≡◌, true, ◌+◌, ◌*◌, ◌<◌, ◌≤◌, length, take};
ghost use Rattle.table.specs.Table.{counters};
ghost use Rattle.register.specs.Register.{record_width, most_records, records_of, record_at, listed, register_ok};

use types::AsNumber;

// ---- limits

pub const MOST_RECORDS: usize = 1024;

// The numbers in all lists together.
pub const MOST_LISTED: usize = 8192;

pub const LAST_SOURCE: u32 = 7;

// ---- layout

// A record's slot: customer, source, where its list starts among the bodies, and how many numbers it has. The first two are its head.
pub const HEAD: usize = 2;

pub const TAIL: usize = 0;

// The head and tail words, as crate `table` takes them.
pub const LAYOUT: table::Layout = table::Layout {
    head: HEAD,
    tail: TAIL,
};

pub const WIDTH: usize = HEAD + table::SPAN + TAIL;

pub const SOURCE: usize = 1;

pub const START: usize = HEAD;

pub const COUNT: usize = HEAD + 1;

// The words of a register: two counts, and room for as many records and numbers as there may be.
pub const WORDS: usize = table::COUNTERS + MOST_RECORDS * WIDTH + MOST_LISTED;

// ---- a register

// A well-formed register: words that were checked.
#[derive(Clone, Copy)]
pub struct Register<'a> {
    pub words: &'a [u32],
    pub ghost well_formed: { register_ok words.now ≡ true },
}

#[tactic(auto, using(crate::proofs::Looking::words))]
impl<'a> Register<'a> {
    // How many records there are.
    pub fn count(self) -> usize
        ensures exact { result ≡ length (records_of self.entry.words.now) }
        ensures few { result ≤ most_records }
    {
        table::word(self.words, 0)
    }

    // Where the slot of record i begins.
    fn slot(self, i: usize) -> usize
        requires { i < length (records_of self.words.now) }
        ensures at { result ≡ counters + i * record_width }
        ensures within { result + record_width ≤ length self.entry.words.now }
    {
        table::COUNTERS + i * WIDTH
    }

    // The customer of record i.
    pub fn customer_at(self, i: usize) -> AsNumber
        requires { i < length (records_of self.words.now) }
        ensures { result.0 ≡ (record_at (records_of self.entry.words.now) i).customer }
    {
        AsNumber(self.words[self.slot(i)])
    }

    // The source of record i.
    pub fn source_at(self, i: usize) -> u32
        requires { i < length (records_of self.words.now) }
        ensures { result ≡ (record_at (records_of self.entry.words.now) i).source }
    {
        self.words[self.slot(i) + SOURCE]
    }

    // Where the list of record i begins: the lists stand in the records' order behind the slots.
    pub fn start_at(self, i: usize) -> usize
        requires { i < length (records_of self.words.now) }
        ensures at { result ≡ counters + length (records_of self.entry.words.now) * record_width
            + listed (take i (records_of self.entry.words.now)) }
        ensures within { result + length (record_at (records_of self.entry.words.now) i).providers ≤ length self.entry.words.now }
    {
        table::COUNTERS + self.count() * WIDTH + table::word(self.words, self.slot(i) + START)
    }

    // The list of record i.
    pub fn list_at(self, i: usize) -> &'a [u32]
        requires { i < length (records_of self.words.now) }
        ensures { result.now ≡ (record_at (records_of self.entry.words.now) i).providers }
    {
        let from = self.start_at(i);
        let count = table::word(self.words, self.slot(i) + COUNT);
        &self.words[from..from + count]
    }
}
