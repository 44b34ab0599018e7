// The listing program of 01, "Runs to reproduce": a text on standard input, its listing on standard output.
// What is written is `listing_of` of listing_run, for the bytes that were read: `list`, of any reader and writer.
// There is room for 65,536 bytes of text; 400 vertices with their longest numbers and no leading zeros take 10,422. Of a longer
// text one byte more is read and becomes a zero, which stands in no line that is right: so the line that was cut is answered as
// malformed, unless an earlier one is, and no such text is ever listed as if it were whole.
// A listing always fits: `listing_run::list` says that it has at most 42,949 bytes.
#![tactic(auto)]

ghost use Rattle.std.specs.Prelude.{◌≡◌, IfOk, OnOk, IfSome};
ghost use Rattle.std.specs.Io.KnownBytes.{Appends};
ghost use Rattle.listing.specs.Cut.{cut};
ghost use Rattle.listing_run.specs.ListingRun.{listing_of};

use std::alloc::Global;
use std::io;
use std::io::{Read, Write};

const ROOM: usize = 65536;

const ROOM_AND_ONE: u64 = 65537;

// The text, or as much of it as there is room for and a zero.
fn read_text<R: Read + Drop>(from: R, alloc: Global) -> io::Result<Vec<u8>>
    ensures { IfOk result (λ text. IfSome (R.remaining from) (λ bytes. text.items ≡ cut 65536 bytes)) }
{
    let mut text = Vec::new(alloc);
    from.take(ROOM_AND_ONE).read_to_end(&mut text)?;
    if text.len() > ROOM {
        text[ROOM] = 0;
    }
    Ok(text)
}

fn write_listing<W: Write>(text: &[u8], to: &mut W) -> io::Result<()>
    ensures { OnOk result (Appends (W.contents to.old) (W.contents to.new) (listing_of text.now)) }
{
    let mut row = [0u8; ROOM];
    let end = listing_run::list(text, &mut row);
    to.write_all(&row[..end])
}

// The listing of what is read.
fn list<R: Read + Drop, W: Write>(from: R, to: &mut W, alloc: Global) -> io::Result<()>
    ensures { OnOk result (IfSome (R.remaining from)
        (λ bytes. Appends (W.contents to.old) (W.contents to.new) (listing_of (cut 65536 bytes)))) }
{
    let text = read_text(from, alloc)?;
    write_listing(&text, to)
}

fn main(rt: HostRuntime) -> io::Result<()> {
    list(rt.reader(), &mut io::writer(&rt), rt.alloc())
}
