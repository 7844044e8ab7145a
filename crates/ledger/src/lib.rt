// Kept routes in a table: limits, layout, and what storing one comes to. Crate `routes` has the code that reads it.
#![tactic(auto)]

pub const MOST_ROUTES: usize = 512;

pub const MOST_PATH_WORDS: usize = 8192;

// A route's slot: head words, start and count of its path, tail words.
pub const HEAD: usize = 7;

pub const TAIL: usize = 0;

// The head and tail words, as crate `table` takes them.
pub const LAYOUT: table::Layout = table::Layout {
    head: HEAD,
    tail: TAIL,
};

pub const WIDTH: usize = HEAD + table::SPAN + TAIL;

// The words of a ledger.
pub const WORDS: usize = table::COUNTERS + MOST_ROUTES * WIDTH + MOST_PATH_WORDS;
