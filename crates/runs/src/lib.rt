// Runs of words moved within a lent slice.
#![tactic(auto)]

ghost use Rattle.std.specs.Prelude.{◌≡◌, ◌+◌, ◌≤◌, length, take, drop};
ghost use Rattle.runs.specs.Words.{opened, zeroed, closed, pasted, spliced};

// The words at..used move up by k.
pub fn open_room(s: &mut [u32], at: usize, k: usize, used: usize)
    requires { (at ≤ used) × (used + k ≤ length s.old) }
    ensures { s.new ≡ opened s.old at k used }
{
    s.copy_within(at..used, at + k);
}

// Zeros from index at up to, and not including, index end.
pub fn zero(s: &mut [u32], at: usize, end: usize)
    requires { (at ≤ end) × (end ≤ length s.old) }
    ensures { s.new ≡ zeroed s.old at end }
{
    s[at..end].fill(0);
}

// The words at + k..used move down by k, and zeros stand behind them.
pub fn close_room(s: &mut [u32], at: usize, k: usize, used: usize)
    requires { (at + k ≤ used) × (used ≤ length s.old) }
    ensures { s.new ≡ closed s.old at k used }
{
    s.copy_within(at + k..used, at);
    zero(s, used - k, used);
}

// All of src, from index at on. (A loop: `copy_from_slice` of a length that is not known becomes a call of `memmove`, which the archive for C would
// need from outside.)
pub fn paste(s: &mut [u32], at: usize, src: &[u32])
    requires { at + length src.now ≤ length s.old }
    ensures { s.new ≡ pasted s.old at src.now }
{
    for j in 0..src.len() {
        s[at + j] = src[j];
    }
}

// All of src goes in at index at; the words at..used move up to make room.
pub fn splice(s: &mut [u32], at: usize, used: usize, src: &[u32])
    requires { (at ≤ used) × (used + length src.now ≤ length s.old) }
    ensures { s.new ≡ spliced s.old at used src.now }
{
    open_room(s, at, src.len(), used);
    paste(s, at, src);
}

// The k words from index from on, copied down to index to.
pub fn copy_down(s: &mut [u32], to: usize, from: usize, k: usize)
    requires { (to ≤ from) × (from + k ≤ length s.old) }
    ensures { s.new ≡ pasted s.old to (take k (drop from s.old)) }
{
    s.copy_within(from..from + k, to);
}
