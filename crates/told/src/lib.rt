// How an answer is told in words: the refusal's number as the result (0: not refused), the rest in words that the caller lends.
#![tactic(auto)]

ghost use Rattle.std.specs.Prelude.{◌≤◌, ◌<◌, ◌≡◌, [], ◌∷◌};
ghost use Rattle.types.specs.Numbers.{refusal_number, refusal_place};
ghost use Rattle.rules.specs.Judging.{most_bytes};
ghost use Rattle.register.specs.Register.{register_words};
ghost use Rattle.told.specs.Answers.{told, told_route, place_word, verdict_words};
ghost use Rattle.told.specs.Answers.{filed_told, done_told, counted_told, judged_told, written_told};
ghost use Rattle.told.specs.Answers.{hop_words, hopped_told, part_told};
ghost use Rattle.told.specs.Helpers.{place_in, bytes_in};

use registers::Part;
use types::{Answer, Filed, Hop, Refusal, Verdict};

// The words of an answer to Judge or Keep: verdict, ground, place a, place b, whether a gap is given, the place of a refusal, the registers of the
// hops at a and at b.
pub const ANSWER_WORDS: usize = 8;

// Of an answer to Hop: the hop, its register, its source.
pub const HOP_WORDS: usize = 3;

// Of a look-up: the register, where the list starts there, how many numbers it has.
pub const PART_WORDS: usize = 3;

// What a refused call writes for C, which no answer has: in place of a verdict,
const NO_VERDICT: u32 = 3;

// of a hop,
const NO_HOP: u32 = 3;

// of new or replaced,
const NOT_FILED: u32 = 2;

// of a count,
const NO_COUNT: u32 = 4294967295;

// and of a file's length: whoever takes it for one nevertheless goes past no end.
const NO_BYTES: u32 = 0;

// In place of a source where a hop names none.
const NO_SOURCE: u32 = 8;

// ---- the calls on a table

// A refusal, with the word that stands for no answer.
fn refused(r: Refusal, word: u32, out: &mut [u32; 1]) -> u32
    ensures { told result out.new ≡ told (refusal_number r) (word ∷ []) }
{
    *out = [word];
    r.number()
}

// File: out[0] is 0 for new, 1 for replaced.
pub fn tell_filed(filed: Result<Filed, Refusal>, out: &mut [u32; 1]) -> u32
    ensures { told result out.new ≡ filed_told filed }
{
    match filed {
        Ok(Filed::New) => {
            *out = [0];
            0
        }
        Ok(Filed::Replaced) => {
            *out = [1];
            0
        }
        Err(r) => refused(r, NOT_FILED, out),
    }
}

// Withdraw, Drop and Read: the result alone.
pub fn tell_done(done: Result<(), Refusal>) -> u32
    ensures { result ≡ done_told done }
{
    match done {
        Ok(()) => 0,
        Err(r) => r.number(),
    }
}

// Clear and Re-judge: out[0] is how many records went, or how many routes changed.
pub fn tell_count(count: Result<u32, Refusal>, out: &mut [u32; 1]) -> u32
    ensures { told result out.new ≡ counted_told count }
{
    match count {
        Ok(n) => {
            *out = [n];
            0
        }
        Err(r) => refused(r, NO_COUNT, out),
    }
}

// ---- Judge and Keep

// The place of a refusal, 0 if it has none. Every place is below the most bytes of an attribute, so the word holds it.
fn place_word(r: Refusal) -> u32
    requires { place_word (refusal_place r) < most_bytes }
    ensures { result ≡ place_word (refusal_place r) }
{
    match r.place() {
        None => 0,
        Some(place) => place as u32,
    }
}

// The words of a verdict.
fn verdict_words(v: Verdict, given: u32, out: &mut [u32; ANSWER_WORDS])
    ensures { out.new ≡ verdict_words v given }
{
    *out = [
        v.number(),
        v.ground(),
        v.place_a(),
        v.place_b(),
        given,
        0,
        v.origin_a(),
        v.origin_b(),
    ];
}

// A judging's answer, told in words.
pub fn tell(judged: Result<Answer, Refusal>, out: &mut [u32; ANSWER_WORDS], gap: &mut i32) -> u32
    requires { place_in judged < most_bytes }
    ensures { told_route result out.new gap.new ≡ judged_told judged }
{
    match judged {
        Ok(Answer::Plain(verdict)) => {
            *gap = 0;
            verdict_words(verdict, 0, out);
            0
        }
        Ok(Answer::WithGap(verdict, g)) => {
            *gap = g;
            verdict_words(verdict, 1, out);
            0
        }
        Err(r) => {
            *gap = 0;
            *out = [NO_VERDICT, 0, 0, 0, 0, place_word(r), 0, 0];
            r.number()
        }
    }
}

// ---- Hop and the look-up

// The words of a hop.
fn hop_words(hop: Hop, out: &mut [u32; HOP_WORDS])
    ensures { out.new ≡ hop_words hop }
{
    match hop {
        Hop::NoAttestation => {
            *out = [0, 0, NO_SOURCE];
        }
        Hop::ProviderPlus(o, source) => {
            *out = [1, u32::from(o), source];
        }
        Hop::NotProviderPlus(o) => {
            *out = [2, u32::from(o), NO_SOURCE];
        }
    }
}

// Hop: the words of the hop.
pub fn tell_hopped(hop: Result<Hop, Refusal>, out: &mut [u32; HOP_WORDS]) -> u32
    ensures { told result out.new ≡ hopped_told hop }
{
    match hop {
        Ok(hop) => {
            hop_words(hop, out);
            0
        }
        Err(r) => {
            *out = [NO_HOP, 0, NO_SOURCE];
            r.number()
        }
    }
}

// The words of a part; all 0 where it is empty.
pub fn part_words(part: Part, out: &mut [u32; PART_WORDS])
    requires { (part.from ≤ part.to) × (part.to ≤ register_words) }
    ensures { out.new ≡ part_told part }
{
    let origin = part.origin;
    let from = part.from;
    let to = part.to;
    if from == to {
        *out = [0, 0, 0];
    } else {
        *out = [u32::from(origin), from as u32, (to - from) as u32];
    }
}

// ---- Write

// Write: out[0] is the file's length in bytes, which a word holds.
pub fn tell_written(written: Result<usize, Refusal>, out: &mut [u32; 1]) -> u32
    requires { bytes_in written < 4294967296 }
    ensures { told result out.new ≡ written_told written }
{
    match written {
        Ok(n) => {
            let bytes = n as u32;
            *out = [bytes];
            0
        }
        Err(r) => refused(r, NO_BYTES, out),
    }
}
