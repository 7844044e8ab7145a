// Packed tables of entries in lent words. A layout says how many words each slot has.
#![tactic(auto)]

ghost use Rattle.std.specs.Prelude.{◌≡◌, [], ◌∷◌, ◌++◌, ◌+◌, ◌*◌, ◌/◌, ◌^◌, ◌≤◌, ◌<◌, length, take, drop, get_or};
ghost use Rattle.runs.specs.Words.{spliced, pasted};
ghost use Rattle.table.specs.Table.{counters, width, entry, decode, start_of, slots_ok, all_zero, well_formed, Sound};
ghost use Rattle.table.specs.Helpers.{restarted, counts};
ghost use Rattle.table.specs.Table.{inserted, removed, cleared, gone_entries};
ghost use Rattle.table.specs.Helpers.{Insertable, Removable, Clearable, bodies_left, slots_left};

// The words before the first slot: how many entries there are, and how many body words.
pub const COUNTERS: usize = 2;

// The words between a slot's head and its tail: where the entry's body starts, and how many words it has.
pub const SPAN: usize = 2;

// How many words a slot has before and behind its span.
#[derive(Clone, Copy)]
pub struct Layout {
    pub head: usize,
    pub tail: usize,
}

impl Layout {
    // The words of a slot.
    pub fn width(self) -> usize
        requires { width self.head self.tail < 2 ^ 64 }
        ensures { result ≡ width self.head self.tail }
    {
        self.head + SPAN + self.tail
    }

    // Where slot i starts, and the slots before it end.
    fn slot(self, i: usize) -> usize
        requires { (width self.head self.tail < 2 ^ 64) × (counters + i * width self.head self.tail < 2 ^ 64) }
        ensures { result ≡ counters + i * width self.head self.tail }
    {
        COUNTERS + i * self.width()
    }
}

// The word at i.
pub fn word(s: &[u32], i: usize) -> usize
    requires { i < length s.now }
    ensures { (result ≡ get_or s.now i 0) × (result < 2 ^ 32) }
{
    s[i] as usize
}

// The starts and counts of slots whose bodies take b words.
fn slots_ok(slots: &[u32], layout: Layout, b: u32) -> bool
    requires { width layout.head layout.tail < 2 ^ 64 }
    ensures { result ≡ slots_ok layout.head layout.tail (length slots.now / width layout.head layout.tail) 0 b slots.now }
{
    let mut next = 0;
    for slot in slots.chunks_exact(layout.width()) {
        let count = slot[layout.head + 1];
        if slot[layout.head] != next || b - next < count {
            return false;
        }
        next += count;
    }
    next == b
}

// Every word is 0. The loop has no early exit, so that the compiler takes several words at a time.
fn all_zero(words: &[u32]) -> bool
    ensures { result ≡ all_zero words.now }
{
    let mut zeros = true;
    for x in words {
        zeros &= *x == 0;
    }
    zeros
}

// The words are a packed table, whatever they are and however many.
pub fn well_formed(s: &[u32], layout: Layout) -> bool
    requires { (layout.head < 2 ^ 16) × (layout.tail < 2 ^ 16) }
    ensures { result ≡ well_formed layout.head layout.tail s.now }
{
    if s.len() < COUNTERS {
        return false;
    }
    let bodies = layout.slot(word(s, 0));
    let end = bodies + word(s, 1);
    if s.len() < end {
        return false;
    }
    slots_ok(&s[COUNTERS..bodies], layout, s[1]) && all_zero(&s[end..])
}

// The m slots from index at on get their starts anew, from o.
fn restart(s: &mut [u32], layout: Layout, at: usize, m: usize, o: u32)
    requires { (at + m * width layout.head layout.tail ≤ length s.old) × (o + counts layout.head layout.tail m (drop at s.old) < 2 ^ 32) }
    ensures { s.new ≡ take at s.old ++ restarted layout.head layout.tail m o (drop at s.old) }
{
    let mut next = o;
    for i in 0..m {
        let slot = at + i * layout.width();
        let count = s[slot + layout.head + 1];
        s[slot + layout.head] = next;
        next += count;
    }
}

// Where the body of the entry at i starts, or would.
fn start_of(s: &[u32], layout: Layout, i: usize) -> usize
    requires { Sound layout.head layout.tail s.now × (i ≤ length (decode layout.head layout.tail s.now)) }
    ensures { result ≡ start_of i (decode layout.head layout.tail s.now) }
{
    if i < word(s, 0) {
        word(s, layout.slot(i) + layout.head)
    } else {
        word(s, 1)
    }
}

// A slot goes in at index at; the words at..used move up.
fn put_slot(
    s: &mut [u32],
    at: usize,
    used: usize,
    head: &[u32],
    start: u32,
    count: u32,
    tail: &[u32],
)
    requires { (at ≤ used) × (used + width (length head.now) (length tail.now) ≤ length s.old) }
    ensures { s.new ≡ spliced s.old at used (head.now ++ (start ∷ (count ∷ tail.now))) }
{
    let h = head.len();
    runs::open_room(s, at, h + SPAN + tail.len(), used);
    runs::paste(s, at, head);
    s[at + h] = start;
    s[at + h + 1] = count;
    runs::paste(s, at + h + SPAN, tail);
}

// An entry goes in at i.
pub fn insert(s: &mut [u32], layout: Layout, i: usize, head: &[u32], body: &[u32], tail: &[u32])
    requires { Insertable layout.head layout.tail s.old i (entry head.now body.now tail.now) }
    ensures { s.new
        ≡ inserted layout.head layout.tail s.old i (entry head.now body.now tail.now) }
{
    let n = word(s, 0);
    let b = word(s, 1);
    let start = start_of(s, layout, i);
    let k = body.len();
    let at = layout.slot(i);
    let end = layout.slot(n);
    runs::splice(s, end + start, end + b, body);
    put_slot(s, at, end + b + k, head, start as u32, k as u32, tail);
    restart(s, layout, at + layout.width(), n - i, (start + k) as u32);
    s[0] = (n + 1) as u32;
    s[1] = (b + k) as u32;
}

// The entry at i goes out.
pub fn remove(s: &mut [u32], layout: Layout, i: usize)
    requires { Removable layout.head layout.tail s.old i }
    ensures { s.new ≡ removed layout.head layout.tail s.old i }
{
    let n = word(s, 0);
    let b = word(s, 1);
    let at = layout.slot(i);
    let end = layout.slot(n);
    let start = word(s, at + layout.head);
    let k = word(s, at + layout.head + 1);
    runs::close_room(s, end + start, k, end + b);
    runs::close_room(s, at, layout.width(), end + b - k);
    restart(s, layout, at, n - i - 1, start as u32);
    s[0] = (n - 1) as u32;
    s[1] = (b - k) as u32;
}

// The bodies of the entries to keep move together, over the others; answers how many words they take.
fn pack_bodies(s: &mut [u32], layout: Layout, column: usize, value: u32) -> usize
    requires { Clearable layout.head layout.tail s.old column × (0 < length (decode layout.head layout.tail s.old)) }
    ensures { (s.new
        ≡ pasted s.old (counters + length (decode layout.head layout.tail s.old) * width layout.head layout.tail)
        (bodies_left layout.head layout.tail s.old column value))
        × (result ≡ length (bodies_left layout.head layout.tail s.old column value)) }
{
    let n = word(s, 0);
    let end = layout.slot(n);
    let mut from = end;
    let mut to = end;
    for i in 0..n {
        let slot = layout.slot(i);
        let count = word(s, slot + layout.head + 1);
        if s[slot + column] != value {
            runs::copy_down(s, to, from, count);
            to += count;
        }
        from += count;
    }
    to - end
}

// The slots to keep move together, over the others, and get their starts anew; answers how many there are.
fn pack_slots(s: &mut [u32], layout: Layout, column: usize, value: u32) -> usize
    requires { (counters + get_or s.old 0 0 * width layout.head layout.tail ≤ length s.old) × (column < layout.head)
        × (counts layout.head layout.tail (get_or s.old 0 0) (drop counters s.old) < 2 ^ 32) }
    ensures { (s.new ≡ pasted s.old counters (slots_left layout.head layout.tail s.old column value))
        × (result * width layout.head layout.tail ≡ length (slots_left layout.head layout.tail s.old column value)) }
{
    let n = word(s, 0);
    let mut m = 0;
    let mut next = 0;
    for i in 0..n {
        let slot = layout.slot(i);
        let count = s[slot + layout.head + 1];
        if s[slot + column] != value {
            let at = layout.slot(m);
            runs::copy_down(s, at, slot, layout.width());
            s[at + layout.head] = next;
            next += count;
            m += 1;
        }
    }
    m
}

// The entries whose head word at a column is a value go out, in one pass over slots and bodies; answers how many went.
pub fn clear(s: &mut [u32], layout: Layout, column: usize, value: u32) -> usize
    requires { Clearable layout.head layout.tail s.old column }
    ensures { (s.new ≡ cleared layout.head layout.tail s.old column value)
        × (result ≡ gone_entries column value (decode layout.head layout.tail s.old)) }
{
    let n = word(s, 0);
    if n == 0 {
        return 0;
    }
    let b = word(s, 1);
    let end = layout.slot(n);
    let k = pack_bodies(s, layout, column, value);
    let m = pack_slots(s, layout, column, value);
    let kept = layout.slot(m);
    runs::copy_down(s, kept, end, k);
    runs::zero(s, kept + k, end + b);
    s[0] = m as u32;
    s[1] = k as u32;
    n - m
}
