// Runs the script on standard input and writes its listing. One byte more than a script may have is read, so that a longer one is told.
#![tactic(auto)]

ghost use Rattle.std.specs.Prelude.{◌≤◌, length, IfOk};

use rules::script::MOST_BYTES;
use script_run::LISTING_MOST;
use std::io;
use std::io::{Read, Write};

// Reads until the buffer is full or the input ends, and answers how many bytes were read.
// By hand: std's `read_exact` fails where the input ends early, and its `read_to_end` needs a heap.
fn read_full<R: Read>(input: &mut R, buffer: &mut [u8]) -> io::Result<usize>
    ensures { IfOk result (λ n. n ≤ length buffer.new) }
{
    let mut n = 0;
    while n < buffer.len() {
        match input.read(&mut buffer[n..])? {
            0 => break,
            count => n += count,
        }
    }
    Ok(n)
}

fn main(rt: HostRuntime) -> io::Result<()> {
    let mut script = [0u8; MOST_BYTES + 1];
    let n = read_full(&mut rt.stdin(), &mut script)?;
    let mut out = [0u8; LISTING_MOST];
    let end = script_run::list_script(&script[..n], &mut out);
    rt.stdout().write_all(&out[..end])
}
