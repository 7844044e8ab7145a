// The words of a line, which single spaces separate, read by their place: word 0 is the first.
#![tactic(auto)]

ghost use Rattle.std.specs.Prelude.{◌≡◌, ◌+◌, ◌*◌, ◌≤◌, length, drop};
ghost use Rattle.std.proofs.lemmas.List.Edits.{sets};
ghost use Rattle.text.specs.Numbers.{number_of};
ghost use Rattle.text.specs.Bytes.{bytes_of, bytes_stored, read_count, same_bytes};
ghost use Rattle.lines.specs.Words.{before, words_of, word_at, numbers_in, list_read, list_count};

// The index of the first mark at or after from; the length where there is none.
pub fn find(bytes: &[u8], from: usize, mark: u8) -> usize
    requires { from ≤ length bytes.now }
    ensures { (result ≡ from + length (before mark (drop from bytes.now))) × (result ≤ length bytes.now) }
{
    match bytes[from..].iter().position(|b| *b == mark) {
        Some(k) => from + k,
        None => bytes.len(),
    }
}

// How many words a line has.
pub fn count(line: &[u8]) -> usize
    ensures { result ≡ length (words_of line.now) }
{
    // A loop: `filter(..).count()` took half as long again.
    let mut n = 1;
    for b in line {
        if *b == b' ' {
            n += 1;
        }
    }
    n
}

// A line, and how many words it has.
#[derive(Clone, Copy)]
pub struct Line<'a> {
    pub bytes: &'a [u8],
    pub count: usize,
    ghost counted: { count ≡ length (words_of bytes.now) },
}

impl<'a> Line<'a> {
    // A line, its words counted.
    pub fn new(bytes: &'a [u8]) -> Line<'a>
        ensures { result.bytes.now ≡ bytes.now }
    {
        Line {
            bytes,
            count: count(bytes),
        }
    }

    // Word k; nothing where there is no such word.
    pub fn word(self, k: usize) -> &'a [u8]
        ensures value { result.now ≡ word_at self.entry.bytes.now k }
        ensures len { length result.now ≤ length self.entry.bytes.now }
    {
        self.bytes.split(|b| *b == b' ').nth(k).unwrap_or(&[])
    }

    // Whether word k is another one.
    pub fn is_word(self, k: usize, other: &[u8]) -> bool
        ensures { result ≡ same_bytes (word_at self.entry.bytes.now k) other.now }
    {
        text::same(self.word(k), other)
    }

    // Word k read as a number.
    pub fn number(self, k: usize) -> Option<u32>
        ensures { result ≡ number_of (word_at self.entry.bytes.now k) }
    {
        text::read_number(self.word(k))
    }

    // Word k read as bytes: how many, and they are in the buffer.
    pub fn bytes_at(self, k: usize, into: &mut [u8]) -> Option<usize>
        requires { length self.bytes.now ≤ 2 * length into.old }
        ensures { (result ≡ bytes_of (word_at self.entry.bytes.now k))
            × (into.new ≡ bytes_stored into.old (word_at self.entry.bytes.now k)) × (read_count result ≤ length into.old) }
    {
        text::read_bytes(self.word(k), into)
    }

    // The words from word k on. A number is a digit and a space at least, so the list has room for all of them.
    pub fn numbers(self, k: usize, into: &mut [u32]) -> Option<usize>
        requires { length self.bytes.now ≤ 2 * length into.old }
        ensures { (result ≡ list_read (drop k (words_of self.entry.bytes.now)))
            × (into.new ≡ sets into.old 0 (numbers_in (drop k (words_of self.entry.bytes.now))))
            × (list_count result ≤ length into.old) }
    {
        for (n, word) in self.bytes.split(|b| *b == b' ').skip(k).enumerate() {
            into[n] = text::read_number(word)?;
        }
        Some(self.count.saturating_sub(k))
    }
}
