// Reads a text from standard input and writes its listing.
#![tactic(auto)]

ghost use Rattle.std.specs.Prelude.{◌≡◌, ◌≤◌, length, take, OnOk, IfOk, IfSome};
ghost use Rattle.std.specs.Io.KnownBytes.{Appends};
ghost use Rattle.words.specs.Text.{listing};

use listing::{LONGEST, ROOM};
use std::io;
use std::io::{Read, Write};

// Reads until the text is full or the input ends: one read may give less than there is. The library has no such read into fixed memory.
fn read_full<R: Read>(from: &mut R, text: &mut [u8]) -> io::Result<usize>
    ensures room { IfOk result (λ n. n ≤ length text.new) }
    ensures front { IfOk result (λ n. IfSome (R.remaining from.old) (λ xs. take n text.new ≡ take (length text.new) xs)) }
{
    let mut done = 0;
    while done < text.len() {
        let n = from.read(&mut text[done..])?;
        if n == 0 {
            break;
        }
        done += n;
    }
    Ok(done)
}

// Writes the listing of what the reader has left.
fn write_listing<R: Read, W: Write>(from: &mut R, to: &mut W) -> io::Result<()>
    ensures { OnOk result (IfSome (R.remaining from.old) (λ xs. Appends (W.contents to.old) (W.contents to.new) (listing xs))) }
{
    // A byte more than the longest text that is read, and room for the listing of any text.
    let mut text = [0; LONGEST + 1];
    let mut room = [0; ROOM];
    let read = read_full(from, &mut text)?;
    let length = listing::list(&text[..read], &mut room).unwrap();
    to.write_all(&room[..length])
}

fn main(rt: HostRuntime) -> io::Result<()> {
    write_listing(&mut rt.stdin(), &mut rt.stdout())
}
