// Reads a bundle from standard input and prints a line for each of its jobs, or the number that it is refused with.
//
// What stands on standard output is a beginning of the input's listing, and all of it unless standard error says that writing failed. Where
// reading fails nothing is printed. What `streams` assumes of reading and writing is assumed here.
#![tactic(auto)]

ghost use Rattle.std.specs.Prelude.{OnOk};
ghost use Rattle.std.specs.Io.KnownBytes.{Appends};
ghost use Rattle.listing.specs.Listing.{listing_of};
ghost use Rattle.streams.specs.Moved.{AppendsStart};

use listing::Printer;
use std::io;
use std::io::Write;

// Prints the text of an input, a piece at a time.
fn print<W: Write>(to: &mut W, bytes: &[u8]) -> io::Result<()>
    ensures start { AppendsStart (W.contents to.old) (W.contents to.new) (listing_of bytes.now) }
    ensures all { OnOk result (Appends (W.contents to.old) (W.contents to.new) (listing_of bytes.now)) }
{
    let mut line = [0u8; text::LINE];
    let mut printer = Printer::start(bytes);
    while let Some(size) = printer.next(&mut line) {
        streams::write_text(to, &line[..size])?;
    }
    Ok(())
}

// One byte more than an input may have tells one that is too long.
fn main(rt: HostRuntime) {
    let mut space = [0u8; listing::MOST_INPUT + 1];
    let input = streams::read_input(&mut rt.stdin(), &mut space);
    if let Err(error) = input.whole {
        let _ = eprintln!(rt; "open: standard input: {error}");
        return;
    }
    if let Err(error) = print(&mut rt.stdout(), &space[..input.count]) {
        let _ = eprintln!(rt; "open: standard output: {error}");
    }
}
