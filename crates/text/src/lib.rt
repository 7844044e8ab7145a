// Words of a line read as numbers and bytes, and numbers and bytes written as text.
#![tactic(auto)]

ghost use Rattle.std.specs.Prelude.{◌≡◌, ◌+◌, ◌*◌, ◌≤◌, ◌<◌, length, MatchOption};
ghost use Rattle.text.specs.Numbers.{number_from, number_of, decimal_of, signed_of};
ghost use Rattle.text.specs.Bytes.{hex_value, pair_value, hex_of, bytes_of, hex_stored, bytes_stored, read_count, same_bytes, hex_digit, hex_text};
ghost use Rattle.text.specs.Wrote.{Room, Wrote};

// The number of a word of digits, leading zeros and none at all allowed.
fn value(word: &[u8]) -> Option<u32>
    ensures { result ≡ number_from 0 word.now }
{
    let mut sum: u32 = 0;
    for b in word {
        if !b.is_ascii_digit() {
            return None;
        }
        sum = sum.checked_mul(10)?.checked_add(u32::from(*b - b'0'))?;
    }
    Some(sum)
}

// Decimal, without sign or leading zeros, below 2^32.
pub fn read_number(word: &[u8]) -> Option<u32>
    ensures { result ≡ number_of word.now }
{
    match word {
        [] | [b'0', _, ..] => None,
        _ => value(word),
    }
}

// The value of a lowercase hex digit.
#[tactic(auto, unfolding(crate::specs::Bytes::hex_value))]
fn hex_value(b: u8) -> Option<u8>
    ensures { MatchOption result (hex_value b ≡ 16) (λ v. (v ≡ hex_value b) × (v < 16)) }
{
    match b {
        b'0'..=b'9' => Some(b - b'0'),
        b'a'..=b'f' => Some(b - b'a' + 10),
        _ => None,
    }
}

// The byte that two hex digits stand for.
#[tactic(auto, unfolding(crate::specs::Bytes::pair_value))]
fn pair_value(a: u8, b: u8) -> Option<u8>
    ensures { MatchOption result (pair_value a b ≡ 256) (λ v. (v ≡ pair_value a b) × (v < 256)) }
{
    Some(hex_value(a)? * 16 + hex_value(b)?)
}

// Two digits a byte, up to the first two that are no byte.
fn read_hex(word: &[u8], into: &mut [u8]) -> Option<usize>
    requires { length word.now ≤ 2 * length into.old }
    ensures { (result ≡ hex_of word.now) × (into.new ≡ hex_stored into.old word.now)
        × (read_count result ≤ length into.old) }
{
    let (pairs, rest) = word.as_chunks::<2>();
    for (n, [a, b]) in pairs.iter().enumerate() {
        into[n] = pair_value(*a, *b)?;
    }
    if rest.is_empty() {
        Some(pairs.len())
    } else {
        None
    }
}

// Lowercase hex, two digits a byte, and `-` for none.
pub fn read_bytes(word: &[u8], into: &mut [u8]) -> Option<usize>
    requires { length word.now ≤ 2 * length into.old }
    ensures { (result ≡ bytes_of word.now) × (into.new ≡ bytes_stored into.old word.now)
        × (read_count result ≤ length into.old) }
{
    match word {
        [b'-'] => Some(0),
        [] | [_] => None,
        _ => read_hex(word, into),
    }
}

// Whether two words are equal: `==`, promised byte for byte.
pub fn same(word: &[u8], other: &[u8]) -> bool
    ensures { result ≡ same_bytes word.now other.now }
{
    word == other
}

// The digits of n, at the array's end.
fn spell(n: u64, digits: &mut [u8; 20]) -> &[u8]
    ensures digits { result.now ≡ decimal_of n }
    ensures few { length result.now ≤ 20 }
{
    let mut rest = n;
    for i in (0..20).rev() {
        digits[i] = b'0' + (rest % 10) as u8;
        if rest < 10 {
            return &digits[i..];
        }
        rest /= 10;
    }
    digits
}

// The lowercase hex digit of a value.
fn hex_digit(v: u8) -> u8
    requires { v < 16 }
    ensures { result ≡ hex_digit v }
{
    if v < 10 { b'0' + v } else { b'a' - 10 + v }
}

// Two hex digits for each of the bytes fill a buffer. (The loop writes to a slice: where it put each byte behind a `Text`, a snapshot took four times
// as long.)
fn fill_hex(bytes: &[u8], out: &mut [u8])
    requires { length out.old ≡ 2 * length bytes.now }
    ensures { out.new ≡ hex_text bytes.now }
{
    for (i, b) in bytes.iter().enumerate() {
        out[2 * i] = hex_digit(*b / 16);
        out[2 * i + 1] = hex_digit(*b % 16);
    }
}

// Text that grows in a lent buffer, up to index end.
#[derive(Drop)]
pub struct Text<'a> {
    pub buffer: &'a mut [u8],
    pub end: usize,
}

impl Text<'_> {
    // All of word.
    #[tactic(auto, using(crate::proofs::Wrote::copying))]
    pub fn put(&mut self, word: &[u8])
        requires { Room self.old (length word.now) }
        ensures { Wrote self.old self.new word.now }
    {
        let end = self.end + word.len();
        self.buffer[self.end..end].copy_from_slice(word);
        self.end = end;
    }

    // The digits of n.
    pub fn put_decimal(&mut self, n: u64)
        requires { Room self.old 20 }
        ensures wrote { Wrote self.old self.new (decimal_of n) }
        ensures within { self.new.end ≤ self.old.end + 20 }
    {
        let mut digits = [0; 20];
        self.put(spell(n, &mut digits));
    }

    // The same of a number that may be below zero: its sign first.
    pub fn put_signed(&mut self, n: i32)
        requires { Room self.old 21 }
        ensures wrote { Wrote self.old self.new (signed_of n) }
        ensures within { self.new.end ≤ self.old.end + 21 }
    {
        if n < 0 {
            self.put(b"-");
        }
        self.put_decimal(u64::from(n.unsigned_abs()));
    }

    // Two hex digits for each of the bytes.
    #[tactic(auto, using(crate::proofs::HexTexts::two_digits, crate::proofs::Wrote::copying))]
    pub fn put_hex(&mut self, bytes: &[u8])
        requires { Room self.old (2 * length bytes.now) }
        ensures wrote { Wrote self.old self.new (hex_text bytes.now) }
        ensures twice { self.new.end ≡ self.old.end + 2 * length bytes.now }
    {
        let twice = 2 * bytes.len();
        fill_hex(bytes, &mut self.buffer[self.end..self.end + twice]);
        self.end += twice;
    }
}
