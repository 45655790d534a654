// The listing program: document 01, section "Listing". Reads a plan from standard input and writes its listing, or the line `refused N`, to
// standard output. The first 50,070 bytes of an input decide its listing (`listing-prefix` of the crate `text`), so no more are read; the
// buffer of 92,789 bytes holds every listing (`program-holds`).
// A read or a write that fails ends the program with its error; where the listing is not written whole, a line on standard error says so.
#![tactic(auto)]

ghost use Rattle.std.specs.Prelude.{◌≤◌, IfOk, length};

use std::io;
use std::io::Read;

fn main(rt: HostRuntime) -> io::Result<()> {
    let mut plan = [0u8; 50070];
    let mut out = [0u8; 92789];
    let got = read_full(&mut rt.reader(), &mut plan)?;
    if let Ok(size) = text::listing_text(&plan[..got], &mut out) {
        if let Err(error) = rt.write_all(&out[..size]) {
            eprintln!(rt; "listing: standard output was not written whole")?;
            return Err(error);
        }
    }
    Ok(())
}

// Reads until the buffer is full or the input ends, and answers how many bytes stand at its start.
fn read_full(input: &mut impl Read, buffer: &mut [u8]) -> io::Result<usize>
    ensures { IfOk result (λ n. n ≤ length buffer.new) }
{
    let mut done = 0;
    while done < buffer.len() {
        let n = input.read(&mut buffer[done..])?;
        if n == 0 {
            break;
        }
        done += n;
    }
    Ok(done)
}
