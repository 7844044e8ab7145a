// Reading an AS_PATH attribute: its first fault, its ground, its merged path.
#![tactic(auto)]

ghost use Rattle.std.specs.Prelude.{◌≡◌, ◌+◌, ◌*◌, ◌^◌, ◌≤◌, ◌<◌, length, set, None};
ghost use Rattle.types.specs.Numbers.{role_number};
ghost use Rattle.as_path.specs.Segments.{number_bytes, body_numbers, end_of, segment_at, segments};
ghost use Rattle.as_path.specs.Faults.{segment_fault, first_fault};
ghost use Rattle.as_path.specs.Grounds.{has_set, ground_of, is_not_neighbour};
ghost use Rattle.as_path.specs.Merging.{runs_after, merged_path};
ghost use Rattle.as_path.specs.Reading.{content_of, reading_of, buffer_after};
ghost use Rattle.as_path.specs.Helpers.{Stored, last_after};

use as_path::{MOST_NUMBERS, Reading};
use types::{AsNumber, Fault, Ground, Neighbour, Refusal};

// The bytes of a segment before its numbers: its type and how many numbers it has.
const HEADER_BYTES: usize = 2;

// The width of a number, in bytes.
const NUMBER_BYTES: usize = 4;

// The types of segments (RFC 4271, RFC 5065).
const AS_SET: u8 = 1;

const AS_SEQUENCE: u8 = 2;

const AS_CONFED_SEQUENCE: u8 = 3;

const AS_CONFED_SET: u8 = 4;

// Where the segment at `at` ends and the next one begins. A `while` goes from one to the next, since each has a length of its own.
fn segment_end(attr: &[u8], at: usize) -> usize
    requires { at + 1 < length attr.now }
    ensures { result ≡ end_of number_bytes attr.now at }
{
    at + HEADER_BYTES + NUMBER_BYTES * usize::from(attr[at + 1])
}

// The fault of the segment at `at`, with its offset.
#[tactic(auto, unfolding(as_path::specs::Faults::segment_fault))]
fn segment_fault(attr: &[u8], at: usize) -> Option<(Fault, usize)>
    requires { at < length attr.now }
    ensures { result ≡ segment_fault number_bytes attr.now at None }
{
    if attr.len() - at < HEADER_BYTES {
        return Some((Fault::CutShort, at));
    }
    match attr[at] {
        AS_SET | AS_SEQUENCE => {}
        AS_CONFED_SEQUENCE | AS_CONFED_SET => return Some((Fault::Confederation, at)),
        _ => return Some((Fault::UnknownType, at)),
    }
    if attr[at + 1] == 0 {
        return Some((Fault::NoNumbers, at));
    }
    let from = at + HEADER_BYTES;
    let end = segment_end(attr, at);
    if attr.len() < end {
        return Some((Fault::CutShort, at));
    }
    let (numbers, _) = attr[from..end].as_chunks::<NUMBER_BYTES>();
    for (k, number) in numbers.iter().enumerate() {
        if u32::from_be_bytes(*number) == 0 {
            return Some((Fault::ZeroNumber, from + NUMBER_BYTES * k));
        }
    }
    None
}

fn first_fault(attr: &[u8]) -> Option<(Fault, usize)>
    ensures { result ≡ first_fault number_bytes attr.now }
{
    let mut at = 0;
    while at < attr.len() {
        if let Some(fault) = segment_fault(attr, at) {
            return Some(fault);
        }
        at = segment_end(attr, at);
    }
    None
}

// Whether a segment is a set.
fn has_set(attr: &[u8]) -> bool
    requires { first_fault number_bytes attr.now ≡ None }
    ensures { result ≡ has_set (segments number_bytes attr.now) }
{
    let mut at = 0;
    while at < attr.len() {
        if attr[at] == AS_SET {
            return true;
        }
        at = segment_end(attr, at);
    }
    false
}

// The first segment is a sequence, and its first number ought to be the neighbour and is not.
fn is_not_neighbour(neighbour: Neighbour, attr: &[u8]) -> bool
    requires { (0 < length attr.now) × (first_fault number_bytes attr.now ≡ None) }
    ensures { result ≡ is_not_neighbour (role_number neighbour.role) neighbour.number.0 (segment_at number_bytes attr.now 0) }
{
    if attr[0] != AS_SEQUENCE || neighbour.role.is_route_server() {
        return false;
    }
    let (numbers, _) = attr[HEADER_BYTES..].as_chunks::<NUMBER_BYTES>();
    AsNumber(u32::from_be_bytes(numbers[0])) != neighbour.number
}

#[tactic(auto, using(as_path::proofs::Grounding::ground_empty, as_path::proofs::Grounding::ground_is))]
fn ground(neighbour: Neighbour, attr: &[u8]) -> Option<Ground>
    requires { first_fault number_bytes attr.now ≡ None }
    ensures { result ≡ ground_of (role_number neighbour.role) neighbour.number.0 (segments number_bytes attr.now) }
{
    if attr.is_empty() {
        return Some(Ground::Empty);
    }
    if is_not_neighbour(neighbour, attr) {
        return Some(Ground::NotNeighbour);
    }
    if has_set(attr) {
        return Some(Ground::AsSet);
    }
    None
}

// A store that a buffer without the index passes over. After a write through `get_mut` the check knows the buffer's length and none of its numbers.
fn put(path: &mut [u32], i: usize, x: u32)
    ensures { path.new ≡ set path.old i x }
{
    if i < path.len() {
        path[i] = x;
    }
}

// The merged path so far: the index after it, and its last number. Before the first number that is 0, which no number is.
#[derive(Clone, Copy)]
struct End {
    to: usize,
    last: u32,
}

// Stores a segment's numbers after the path so far, each run as one number; answers the path's new end.
fn merge_segment(body: &[u8], path: &mut [u32], end: End) -> End
    requires { end.to + length body.now < 2 ^ 64 }
    ensures { Stored path.old end.to (runs_after end.last (body_numbers body.now)) path.new result.to
        × (result.last ≡ last_after end.last (body_numbers body.now)) }
{
    let End { mut to, mut last } = end;
    let (numbers, _) = body.as_chunks::<NUMBER_BYTES>();
    for bytes in numbers {
        let number = u32::from_be_bytes(*bytes);
        if number != last {
            put(path, to, number);
            to += 1;
            last = number;
        }
    }
    End { to, last }
}

// Stores the merged path; answers how many numbers it has. A run goes on over a segment's end.
fn merge(attr: &[u8], path: &mut [u32]) -> usize
    requires { first_fault number_bytes attr.now ≡ None }
    ensures { Stored path.old 0 (merged_path (segments number_bytes attr.now)) path.new result }
{
    let mut end = End { to: 0, last: 0 };
    let mut at = 0;
    while at < attr.len() {
        let next = segment_end(attr, at);
        end = merge_segment(&attr[at + HEADER_BYTES..next], path, end);
        at = next;
    }
    end.to
}

// Reads an attribute. Of a merged path the buffer takes as much as it holds.
#[tactic(auto, unfolding(as_path::specs::Reading::content_of))]
pub fn read(neighbour: Neighbour, attr: &[u8], path: &mut [u32]) -> Result<Reading, Refusal>
    ensures { (result ≡ reading_of (content_of (role_number neighbour.role) neighbour.number.0 attr.now))
        × (path.new ≡ buffer_after (content_of (role_number neighbour.role) neighbour.number.0 attr.now) path.old) }
{
    if let Some((fault, at)) = first_fault(attr) {
        return Err(Refusal::Attribute(fault, at));
    }
    if let Some(ground) = ground(neighbour, attr) {
        return Ok(Reading::OnGround(ground));
    }
    let n = merge(attr, path);
    if MOST_NUMBERS < n {
        return Err(Refusal::PathLength);
    }
    Ok(Reading::Path(n))
}
