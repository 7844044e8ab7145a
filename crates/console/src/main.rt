// The console: reads commands from standard input, a line each, and answers each with a line. `protocol` does the work.
#![tactic(auto)]

ghost use Rattle.std.specs.Prelude.{◌≡◌, ◌+◌, ◌≤◌, ◌<◌, length, drop, replicate, IfOk, OnOk};
ghost use Rattle.text.specs.Wrote.{Room};
ghost use Rattle.protocol.specs.Feeding.{fed, fed_bytes, session_in, most_text, SameBuffers, Ready};
ghost use Rattle.protocol.specs.Sessions.{fed_all};

use calls::Tables;
use protocol::{Console, Lending};
use std::io;
use std::io::{Read, Stdin, Stdout};
use text::Text;

// Lent shared, the output is written as it stands.
fn flush(stdout: Stdout, out: &Text<'_>) -> io::Result<()>
    requires { out.now.end ≤ length out.now.buffer.now }
{
    let bytes = &*out.buffer;
    stdout.write_all(&bytes[..out.end])
}

// Whoever types a line waits for its answer, so the output is written before the next read.
fn write(stdout: Stdout, out: &mut Text<'_>) -> io::Result<()>
    requires { (out.old.end ≤ length out.old.buffer.now) × (most_text ≤ length out.old.buffer.now) }
    ensures same { out.new.buffer.ghost_name ≡ out.old.buffer.ghost_name }
    ensures stays { out.new.buffer.now ≡ out.old.buffer.now }
    ensures room { Room out.new most_text }
{
    let written = flush(stdout, out);
    out.end = 0;
    written
}

// Writes the output where it has no room for another answer.
fn make_room(stdout: Stdout, out: &mut Text<'_>) -> io::Result<()>
    requires { (out.old.end ≤ length out.old.buffer.now) × (most_text ≤ length out.old.buffer.now) }
    ensures same { out.new.buffer.ghost_name ≡ out.old.buffer.ghost_name }
    ensures stays { out.new.buffer.now ≡ out.old.buffer.now }
    ensures room { Room out.new most_text }
{
    if out.buffer.len() - out.end < protocol::MOST_TEXT {
        write(stdout, out)
    } else {
        Ok(())
    }
}

// The bytes of a piece from index from on, up to the first newline. Where the rest begins.
fn serve_line(
    stdout: Stdout,
    piece: &[u8],
    from: usize,
    console: &mut Console<'_>,
) -> io::Result<usize>
    requires { (Ready console.old) × (from < length piece.now) }
    ensures same { SameBuffers console.old console.new }
    ensures session { session_in console.new ≡ fed (session_in console.old) (drop from piece.now) }
    ensures to { IfOk result (λ to. to ≡ from + fed_bytes (drop from piece.now)) }
    ensures ready { Ready console.new }
{
    let used = console.feed(&piece[from..]);
    make_room(stdout, &mut console.out)?;
    Ok(from + used)
}

// Answers the lines of a piece: all its bytes are used, each once and in their order, unless the output cannot be written.
fn serve_piece(stdout: Stdout, piece: &[u8], console: &mut Console<'_>) -> io::Result<()>
    requires { Ready console.old }
    ensures same { SameBuffers console.old console.new }
    ensures session { OnOk result (session_in console.new ≡ fed_all (length piece.now) (session_in console.old) piece.now) }
    ensures ready { Ready console.new }
{
    let mut from = 0;
    while from < piece.len() {
        from = serve_line(stdout, piece, from, console)?;
    }
    write(stdout, &mut console.out)
}

// A proved loop has to end, and nothing says that the input does: so it has more turns than any run takes.
fn serve(
    mut stdin: Stdin,
    stdout: Stdout,
    input: &mut [u8],
    console: &mut Console<'_>,
) -> io::Result<()>
    requires { Ready console.old }
    ensures same { SameBuffers console.old console.new }
    ensures ready { Ready console.new }
{
    for _ in 0..u64::MAX {
        let n = stdin.read(input)?;
        if n == 0 {
            return Ok(());
        }
        serve_piece(stdout, &input[..n], console)?;
    }
    Ok(())
}

// How much is read at a time.
const INPUT: usize = 65536;

// Room for the longest answer, that of a snapshot of 131,072 bytes, and for many short ones between two writes.
const OUTPUT: usize = 524288;

// Arrays are made in a function of their own, of any length, so that no proof has to look at their elements.
fn filled<T: Copy, const N: usize>(value: T) -> [T; N]
    ensures all { result ≡ replicate N value }
    ensures size { length result ≡ N }
{
    [value; N]
}

fn main(rt: HostRuntime) {
    let mut input = filled::<u8, INPUT>(0);
    let mut register = filled::<u32, { calls::MOST_LENT }>(0);
    let mut overrides = filled::<u32, { calls::MOST_LENT }>(0);
    let mut ledger = filled::<u32, { calls::MOST_LENT }>(0);
    let mut line = filled::<u8, { calls::MOST_LINE }>(0);
    let mut out = filled::<u8, OUTPUT>(0);
    let mut console = Console {
        lending: Lending {
            tables: Tables {
                register: &mut register,
                overrides: &mut overrides,
                ledger: &mut ledger,
            },
            lent: protocol::EMPTY,
        },
        line: Text {
            buffer: &mut line,
            end: 0,
        },
        out: Text {
            buffer: &mut out,
            end: 0,
        },
    };
    // Where the input cannot be read, or the output not be written, the session ends as it does where the input ends.
    let _ = serve(rt.stdin(), rt.stdout(), &mut input, &mut console);
    console.finish();
    let _ = write(rt.stdout(), &mut console.out);
}
