// Answers as text. They are written by Put, and not by Display and write!: std's fmt::Write says nothing of what is written where it fails, and these
// functions cannot fail and promise every byte.
#![tactic(auto, using(text::proofs::Wrote::writing))]

ghost use Rattle.std.specs.Prelude.{ℕ, List, ◌++◌, ◌+◌, ◌*◌, ◌≤◌, length};
ghost use Rattle.text.specs.Ascii.{ascii};
ghost use Rattle.text.specs.Numbers.{decimal_of};
ghost use Rattle.text.specs.Wrote.{Room, Wrote};
ghost use Rattle.answers.specs.Texts.{verdict_room, answer_room};
ghost use Rattle.answers.specs.Texts.{places_text, cause_text, verdict_text, answer_text, refusal_text, result_text, filing_text, counted_text};
ghost use Rattle.answers.specs.Texts.{file_text, written_text, each_text, origin_text, origins_text, hop_text, list_text};

use text::Text;
use types::{Answer, Cause, Filed, Hop, Origin, Origins, Refusal, Verdict};

// A word and the number after it.
fn put_with(text: &mut Text, word: &[u8], n: u64)
    requires { Room text.old (length word.now + 20) }
    ensures wrote { Wrote text.old text.new (word.now ++ decimal_of n) }
    ensures within { text.new.end ≤ text.old.end + length word.now + 20 }
{
    text.put(word);
    text.put_decimal(n);
}

// A word and the two places after it.
fn put_places(text: &mut Text, word: &[u8], a: u32, b: u32)
    requires { Room text.old (length word.now + 41) }
    ensures wrote { Wrote text.old text.new (word.now ++ places_text a b) }
    ensures within { text.new.end ≤ text.old.end + length word.now + 41 }
{
    put_with(text, word, u64::from(a));
    put_with(text, b" ", u64::from(b));
}

// A word and the register after it.
fn put_origin(text: &mut Text, word: &[u8], origin: Origin)
    requires { Room text.old (length word.now + 6) }
    ensures wrote { Wrote text.old text.new (word.now ++ origin_text origin) }
    ensures within { text.new.end ≤ text.old.end + length word.now + 6 }
{
    text.put(word);
    match origin {
        Origin::Public => text.put(b"public"),
        Origin::Overrides => text.put(b"drawer"),
    }
}

// The register of each of two hops; a dash where the second is not named.
fn put_origins(text: &mut Text, origins: Origins)
    requires { Room text.old 14 }
    ensures wrote { Wrote text.old text.new (origins_text origins) }
    ensures within { text.new.end ≤ text.old.end + 14 }
{
    match origins {
        Origins::One(a) => {
            put_origin(text, b" ", a);
            text.put(b" -");
        }
        Origins::Two(a, b) => {
            put_origin(text, b" ", a);
            put_origin(text, b" ", b);
        }
    }
}

fn put_cause(text: &mut Text, cause: Cause)
    requires { Room text.old verdict_room }
    ensures wrote { Wrote text.old text.new (cause_text cause) }
    ensures within { text.new.end ≤ text.old.end + verdict_room }
{
    match cause {
        Cause::ByGround(g) => put_with(text, b"Invalid ground ", u64::from(u32::from(g))),
        Cause::ByHops(a, b, o) => {
            put_places(text, b"Invalid ", a, b);
            put_origins(text, o);
        }
    }
}

fn put_verdict(text: &mut Text, verdict: Verdict)
    requires { Room text.old verdict_room }
    ensures wrote { Wrote text.old text.new (verdict_text verdict) }
    ensures within { text.new.end ≤ text.old.end + verdict_room }
{
    match verdict {
        Verdict::Valid => text.put(b"Valid"),
        Verdict::Invalid(c) => put_cause(text, c),
        Verdict::Unknown(a, b) => put_places(text, b"Unknown ", a, b),
    }
}

// What is written in the room of an answer.
pub trait Put {
    ghost words: { Self → List ℕ };

    fn put(self, text: &mut Text)
        requires { Room text.old answer_room }
        ensures wrote { Wrote text.old text.new (words self) }
        ensures within { text.new.end ≤ text.old.end + answer_room };
}

impl Put for Answer {
    ghost words = { answer_text };

    fn put(self, text: &mut Text) {
        match self {
            Answer::Plain(v) => put_verdict(text, v),
            Answer::WithGap(v, gap) => {
                put_verdict(text, v);
                text.put(b" gap ");
                text.put_signed(gap);
            }
        }
    }
}

impl Put for Refusal {
    ghost words = { refusal_text };

    fn put(self, text: &mut Text) {
        put_with(text, b"refused ", u64::from(self.number()));
        if let Some(place) = self.place() {
            put_with(text, b" at ", place as u64);
        }
    }
}

impl Put for Hop {
    ghost words = { hop_text };

    fn put(self, text: &mut Text) {
        match self {
            Hop::NoAttestation => text.put(b"none"),
            Hop::ProviderPlus(o, source) => {
                put_origin(text, b"provider ", o);
                put_with(text, b" ", u64::from(source));
            }
            Hop::NotProviderPlus(o) => put_origin(text, b"other ", o),
        }
    }
}

impl Put for Filed {
    ghost words = { filing_text };

    fn put(self, text: &mut Text) {
        match self {
            Filed::New => text.put(b"new"),
            Filed::Replaced => text.put(b"replaced"),
        }
    }
}

// What Remove and Restore answer.
impl Put for () {
    ghost words = { λ u. ascii "done" };

    fn put(self, text: &mut Text) {
        text.put(b"done");
    }
}

impl<T: Put> Put for Result<T, Refusal> {
    ghost words = { result_text T.words };

    fn put(self, text: &mut Text) {
        match self {
            Ok(x) => x.put(text),
            Err(r) => r.put(text),
        }
    }
}

// What is counted: a word and how many.
pub fn put_count(text: &mut Text, word: &[u8], counted: Result<u32, Refusal>)
    requires short { length word.now + 20 ≤ answer_room }
    requires room { Room text.old answer_room }
    ensures wrote { Wrote text.old text.new (counted_text word.now counted) }
    ensures within { text.new.end ≤ text.old.end + answer_room }
{
    match counted {
        Ok(n) => put_with(text, word, u64::from(n)),
        Err(r) => r.put(text),
    }
}

// A file of n bytes, which stand at the start of an output.
#[tactic(auto, using(std::proofs::lemmas::List::take_min, text::proofs::Wrote::writing))]
fn put_file(text: &mut Text, n: usize, output: &[u8])
    requires { Room text.old (answer_room + 2 * length output.now) }
    ensures wrote { Wrote text.old text.new (file_text n output.now) }
    ensures within { text.new.end ≤ text.old.end + (answer_room + 2 * length output.now) }
{
    put_with(text, b"written ", n as u64);
    text.put(b" ");
    text.put_hex(&output[..n.min(output.len())]);
}

// No `Put`: it takes the output too.
pub fn put_written(text: &mut Text, written: Result<usize, Refusal>, output: &[u8])
    requires { Room text.old (answer_room + 2 * length output.now) }
    ensures wrote { Wrote text.old text.new (written_text output.now written) }
    ensures within { text.new.end ≤ text.old.end + (answer_room + 2 * length output.now) }
{
    match written {
        Ok(n) => put_file(text, n, output),
        Err(r) => r.put(text),
    }
}

// Words of a table, a space before each: at most ten digits, and the last is put where there is room for any number.
#[tactic(auto, using(crate::proofs::Listing::listing))]
pub fn put_each(text: &mut Text, words: &[u32])
    requires { Room text.old (11 * length words.now + 10) }
    ensures wrote { Wrote text.old text.new (each_text words.now) }
    ensures within { text.new.end ≤ text.old.end + 11 * length words.now }
{
    for word in words {
        put_with(text, b" ", u64::from(*word));
    }
}

// The providers of a list that was looked up.
pub fn put_list(text: &mut Text, providers: &[u32])
    requires { Room text.old (answer_room + 11 * length providers.now) }
    ensures wrote { Wrote text.old text.new (list_text providers.now) }
    ensures within { text.new.end ≤ text.old.end + (answer_room + 11 * length providers.now) }
{
    text.put(b"list");
    put_each(text, providers);
}
