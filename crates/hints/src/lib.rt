// Look-up by hints, for whoever looks many customers up in one register.
//
// A hint is a guess at the position where a customer's records begin. The caller lends words for hints and has them filled once. Most
// customers are then found by three reads of the register: the records around the position that was guessed show that it is the one, or
// that the next is. Where they do not, the records from there on are searched by halves. So a wrong hint costs time and no answer, and
// nothing is promised of hints.
//
// Customers are dealt into cells in their order, and a cell's hint is how many records have a lower cell. Cells are as wide as suits
// the customers that there are: these are cut in two parts at their widest gap, since public and private AS numbers lie far apart,
// and each part has its own width of a cell, a power of two.
//
// Word 0 is the first customer of the upper part. Then come for each part, the lower first: its first customer, its width's exponent,
// its first cell and the one behind its last, as indices of words. The hints follow.
#![tactic(auto)]

ghost use Rattle.std.specs.Prelude.{◌≡◌, ◌^◌, ◌<◌, ◌≤◌, true, length};
ghost use Rattle.register.specs.Register.{records_of, position_of};
ghost use Rattle.hints.specs.Helpers.{upper_part, first_cell, hint_words};

use register::Register;
use types::AsNumber;

// Cells to a record of a full register.
const CELLS_EACH: usize = 4;

const CELLS: usize = CELLS_EACH * register::MOST_RECORDS;

// The words of a part: its first customer, its width's exponent, its first cell and the one behind its last.
const EXPONENT: usize = 1;

const FIRST: usize = 2;

const END: usize = 3;

const PART: usize = 4;

// Where the words of the lower part begin, those of the upper part, and the hints.
const LOWER: usize = 1;

const UPPER: usize = LOWER + PART;

const FIRST_CELL: usize = UPPER + PART;

// The words that hold all hints; the last is behind the last cell.
pub const WORDS: usize = FIRST_CELL + CELLS + 1;

// ---- cells

// The words of the part that a customer is in.
fn part_of(customer: AsNumber, upper: AsNumber) -> usize
    ensures { result ≤ upper_part }
{
    if customer.0 < upper.0 { LOWER } else { UPPER }
}

// How far one customer lies above another.
fn distance(low: AsNumber, high: AsNumber) -> u32 {
    high.0.wrapping_sub(low.0)
}

// How many cells of a width lie below a distance.
fn cells_to(distance: u32, exponent: u32) -> usize
    ensures { result < 2 ^ 32 }
{
    (distance >> (exponent % 32)) as usize
}

// A customer's cell, as an index of words.
fn cell(hints: &[u32], customer: AsNumber) -> usize
    requires { first_cell ≤ length hints.now }
    ensures { result < 2 ^ 32 }
{
    let part = part_of(customer, AsNumber(hints[0]));
    let base = hints[part];
    let first = table::word(hints, part + FIRST);
    let end = table::word(hints, part + END);
    if customer.0 < base {
        return first;
    }
    let at = first + cells_to(customer.0 - base, hints[part + EXPONENT]);
    at.min(end)
}

// The exponent of the least width at which so many cells hold a range.
fn exponent(range: u32, cells: usize) -> u32 {
    for e in 0..31 {
        if cells_to(range, e) < cells {
            return e;
        }
    }
    31
}

// ---- filling

// Where the upper part of the customers begins: behind their widest gap.
fn cut(register: Register<'_>) -> usize
    requires { 0 < length (records_of register.words.now) }
    ensures { result < length (records_of register.entry.words.now) }
{
    let mut position: usize = 0;
    let mut widest: u32 = 0;
    for i in 1..register.count() {
        let gap = distance(register.customer_at(i - 1), register.customer_at(i));
        if widest < gap {
            widest = gap;
            position = i;
        }
    }
    position
}

// The words of a part, from its first customer, its last, its first cell and the one behind its last.
fn set_part(
    hints: &mut [u32],
    part: usize,
    base: AsNumber,
    last: AsNumber,
    first: usize,
    end: usize,
)
    requires { (part ≤ upper_part) × (first_cell ≤ length hints.old) × (first ≤ end) × (end ≤ hint_words) }
{
    hints[part] = base.0;
    hints[part + EXPONENT] = exponent(distance(base, last), end - first);
    hints[part + FIRST] = first as u32;
    hints[part + END] = end as u32;
}

// Behind each record's cell: how many records there are up to this one.
fn mark(register: Register<'_>, hints: &mut [u32])
    requires { first_cell ≤ length hints.old }
{
    for i in 0..register.count() {
        let at = cell(hints, register.customer_at(i)) + 1;
        if at < hints.len() {
            hints[at] = (i + 1) as u32;
        }
    }
}

// A cell that is not behind a record's takes the hint of the one before it.
fn spread(hints: &mut [u32]) {
    let mut last: u32 = 0;
    for hint in hints.iter_mut() {
        last = last.max(*hint);
        *hint = last;
    }
}

// Fills words that are all 0 with hints for a register.
fn fill(register: Register<'_>, hints: &mut [u32])
    requires { first_cell ≤ length hints.old }
{
    let n = register.count();
    if n == 0 {
        return;
    }
    let m = cut(register);
    let middle = register.customer_at(m);
    let end = FIRST_CELL + m * CELLS_EACH;
    set_part(
        hints,
        LOWER,
        register.customer_at(0),
        register.customer_at(m.saturating_sub(1)),
        FIRST_CELL,
        end,
    );
    set_part(
        hints,
        UPPER,
        middle,
        register.customer_at(n - 1),
        end,
        FIRST_CELL + CELLS,
    );
    hints[0] = middle.0;
    mark(register, hints);
    spread(&mut hints[FIRST_CELL..]);
}

// ---- look-up

// A register, and hints for look-ups in it; no hints are an empty slice.
#[derive(Clone, Copy)]
pub struct Hinted<'a> {
    pub register: Register<'a>,
    pub hints: &'a [u32],
}

impl<'a> Hinted<'a> {
    // A register without hints, for whoever has few customers to look up.
    pub fn plain(register: Register<'a>) -> Self
        ensures { result.register.words.now ≡ register.entry.words.now }
    {
        Hinted {
            register,
            hints: &[],
        }
    }

    // A register with hints in words that are all 0, which are filled.
    pub fn filled(register: Register<'a>, words: &'a mut [u32]) -> Self
        requires { first_cell ≤ length words.old }
        ensures { result.register.words.now ≡ register.entry.words.now }
    {
        fill(register, words);
        Hinted {
            register,
            hints: words,
        }
    }

    // The hint at an index, if it is one for the register; otherwise 0.
    fn hint_at(self, at: usize) -> usize
        ensures { result ≤ length (records_of self.entry.register.words.now) }
    {
        if at < self.hints.len() {
            let hint = table::word(self.hints, at);
            if hint <= self.register.count() {
                return hint;
            }
        }
        0
    }

    // A position that is not behind the customer's: the hint at an index, if the record before it bears it out.
    fn tested(self, at: usize, customer: AsNumber) -> usize
        ensures { result ≤ position_of customer.0 0 (records_of self.entry.register.words.now) }
    {
        let low = self.hint_at(at);
        if 0 < low && finding::stands_before(self.register, low - 1, customer, 0) {
            return low;
        }
        0
    }

    // One position further, if the record there stands before the customer's.
    fn advance(self, low: usize, customer: AsNumber) -> usize
        requires { low ≤ position_of customer.0 0 (records_of self.register.words.now) }
        ensures { result ≤ position_of customer.0 0 (records_of self.entry.register.words.now) }
    {
        if low < self.register.count() && finding::stands_before(self.register, low, customer, 0) {
            low + 1
        } else {
            low
        }
    }

    // A position that is not behind the customer's, near its hint; without hints, the first.
    fn low_end(self, customer: AsNumber) -> usize
        ensures { result ≤ position_of customer.0 0 (records_of self.entry.register.words.now) }
    {
        if self.hints.len() < FIRST_CELL {
            return 0;
        }
        let at = cell(self.hints, customer);
        self.advance(self.tested(at, customer), customer)
    }

    // No record stands before the customer's from a position on. Without hints nothing is looked at, and the answer is no.
    #[tactic(auto, using(register::proofs::Looking::position_within))]
    fn is_high_end(self, low: usize, customer: AsNumber) -> bool
        ensures { result ≡ true → position_of customer.0 0 (records_of self.entry.register.words.now) ≤ low }
    {
        if self.hints.len() < FIRST_CELL {
            return false;
        }
        if low < self.register.count() {
            return !finding::stands_before(self.register, low, customer, 0);
        }
        true
    }

    // Where a customer's records begin, or would: the position that `finding::find` answers for source 0, whatever the hints are. Without hints it
    // looks at the same records.
    pub fn find(self, customer: AsNumber) -> usize
        ensures { result ≡ position_of customer.0 0 (records_of self.entry.register.words.now) }
    {
        let low = self.low_end(customer);
        if self.is_high_end(low, customer) {
            return low;
        }
        finding::search(self.register, low, customer, 0).low
    }
}
