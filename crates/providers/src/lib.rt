// Lists of provider numbers: which may be filed for a customer, whether one holds a number, and how often numbers descend where
// lists stand one behind the other.
#![tactic(auto)]

ghost use Rattle.std.specs.Prelude.{◌≡◌, true, ◌+◌, ◌^◌, ◌≤◌, ◌<◌, length, take};
ghost use Rattle.rules.specs.Records.{is_in};
ghost use Rattle.providers.specs.Lists.{rises, list_ok};
ghost use Rattle.providers.specs.Helpers.{descents_in, list_at};

use types::AsNumber;

// The numbers in one list.
pub const MOST_PROVIDERS: usize = 256;

// The words that are compared with a number at once.
const AT_ONCE: usize = 16;

// Whether an ascending list holds a number, by halves: at most nine looks at a list of 256. Of any other list it may say either.
#[tactic(auto, using(crate::proofs::Halving::search_says))]
fn holds(list: &[u32], number: AsNumber) -> bool
    ensures { rises list.now ≡ true → result ≡ is_in number.0 list.now }
{
    list.binary_search(&number.0).is_ok()
}

// A list that may be filed for a customer.
#[tactic(auto, using(crate::proofs::Descending::rises_is), unfolding(crate::specs::Lists::list_ok))]
pub fn is_list(customer: AsNumber, list: &[u32]) -> bool
    ensures { result ≡ list_ok customer.0 list.now }
{
    if list.is_empty() || MOST_PROVIDERS < list.len() {
        return false;
    }
    descents(list) == 0 && !holds(list, customer)
}

// How often a number does not stand above the one before it. The loop has no early exit, so that the compiler takes several words at
// a time.
#[tactic(auto, using(crate::proofs::Descending::counting))]
pub fn descents(list: &[u32]) -> u32
    requires { length list.now < 2 ^ 32 }
    ensures { (result ≡ descents_in list.now) × (result ≤ length list.now) }
{
    let mut many: u32 = 0;
    for i in 1..list.len() {
        if list[i] <= list[i - 1] {
            many += 1;
        }
    }
    many
}

// Whether a number is among some words. The loop has no early exit, so that the compiler takes several words at a time.
#[tactic(auto, using(crate::proofs::Seeking::turns, crate::proofs::Seeking::ended))]
fn is_among(words: &[u32], number: AsNumber) -> bool
    ensures { result ≡ is_in number.0 words.now }
{
    let mut found = false;
    for word in words {
        found |= *word == number.0;
    }
    found
}

// The same as `holds` of the list of `count` numbers that begins at a word. Most lists are short, and no processor foresees their
// lengths and numbers: so sixteen words are compared at once, though some may belong to other lists, and only if one of them is the
// number the list is searched.
#[tactic(auto, using(crate::proofs::Halving::not_among))]
pub fn holds_at(reg: &[u32], from: usize, count: usize, number: AsNumber) -> bool
    requires { from + count ≤ length reg.now }
    ensures { rises (list_at reg.now from count) ≡ true → result ≡ is_in number.0 (list_at reg.now from count) }
{
    if count <= AT_ONCE && from + AT_ONCE <= reg.len() {
        if !is_among(&reg[from..from + AT_ONCE], number) {
            return false;
        }
    }
    holds(&reg[from..from + count], number)
}

// Which of two numbers a list holds.
#[derive(Clone, Copy)]
pub struct Listed {
    pub y: bool,
    pub z: bool,
}

// The loop has no early exit, so that the compiler takes several words at a time.
#[tactic(auto, using(crate::proofs::Seeking::turns, crate::proofs::Seeking::ended))]
pub fn scan(list: &[u32], y: AsNumber, z: AsNumber) -> Listed
    ensures { (result.y ≡ is_in y.0 list.now) × (result.z ≡ is_in z.0 list.now) }
{
    let mut has_y = false;
    let mut has_z = false;
    for p in list {
        has_y |= *p == y.0;
        has_z |= *p == z.0;
    }
    Listed { y: has_y, z: has_z }
}
