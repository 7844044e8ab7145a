// Search by halves in a table whose entries ascend by their keys: one step, and the loop of steps.
#![tactic(auto)]

ghost use Rattle.std.specs.Prelude.{◌≡◌, ◌+◌, ◌*◌, ◌≤◌, length, get_or};
ghost use Rattle.table.specs.Table.{counters};
ghost use Rattle.keyed.specs.Keyed.{before_pair};
ghost use Rattle.halves.specs.Halves.{key_of, key_at, before_in, middle, stepped, Narrows, searched_from};
ghost use Rattle.halves.specs.Helpers.{Open, Searchable};

// The key of an entry, the first two words of its slot: customer and source of a record. Of a route's the first, its number, decides.
#[derive(Clone, Copy, PartialEq, Eq, PartialOrd, Ord)]
pub struct Key {
    pub first: u32,
    pub second: u32,
}

// What a search has left, the entries low..high, and how many steps it took. The position that it looks for is one of low..=high.
#[derive(Clone, Copy)]
pub struct Range {
    pub low: usize,
    pub high: usize,
    pub steps: usize,
}

// Key a stands before key b. By its parts and with a branch on the first: with the derived `<` the check of two registers takes a fifth longer.
pub fn is_before(a: Key, b: Key) -> bool
    ensures { result ≡ before_pair (key_of a) (key_of b) }
{
    if a.first < b.first {
        true
    } else if a.first == b.first {
        a.second < b.second
    } else {
        false
    }
}

// The key of the entry at a position of a table whose slots have so many words.
pub fn key_at(words: &[u32], width: usize, position: usize) -> Key
    requires { counters + position * width + 2 ≤ length words.now }
    ensures { key_of result ≡ key_at width words.now position }
{
    let at = table::COUNTERS + position * width;
    Key {
        first: words[at],
        second: words[at + 1],
    }
}

// The position of the entry that a step looks at.
fn middle_of(range: Range) -> usize
    requires { Open range }
    ensures { result ≡ middle range }
{
    range.low + (range.high - range.low) / 2
}

// One step of a search for a key. It is handed the key of the entry in the middle and not the table, so it looks at that entry alone.
fn step(range: Range, entry: Key, key: Key) -> Range
    requires { Open range }
    ensures { (result ≡ stepped range (before_pair (key_of entry) (key_of key))) × Narrows range (key_of entry) (key_of key) result }
{
    let middle = middle_of(range);
    let steps = range.steps + 1;
    if is_before(entry, key) {
        Range {
            low: middle + 1,
            steps,
            ..range
        }
    } else {
        Range {
            high: middle,
            steps,
            ..range
        }
    }
}

// The search for a key from a position on: low of the answer, and high, is where its entries begin, or would.
pub fn search(words: &[u32], width: usize, from: usize, key: Key) -> Range
    requires { Searchable words.now width }
    ensures { result ≡ searched_from (before_in width words.now (key_of key)) (get_or words.now 0 0) from }
{
    let mut range = Range {
        low: from,
        high: table::word(words, 0),
        steps: 0,
    };
    while range.low < range.high {
        let entry = key_at(words, width, middle_of(range));
        range = step(range, entry, key);
    }
    range
}
