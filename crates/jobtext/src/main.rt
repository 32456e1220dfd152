// Reads a bundle from standard input and prints the text of each of its jobs that opens, for the surfacing machines, or the number that it is
// refused with.
//
// What stands on standard output is a beginning of the input's text, and all of it unless standard error says that writing failed. Where
// reading fails nothing is printed. What `streams` assumes of reading and writing is assumed here.
#![tactic(auto)]

ghost use Rattle.std.specs.Prelude.{OnOk};
ghost use Rattle.std.specs.Io.KnownBytes.{Appends};
ghost use Rattle.exporting.specs.Export.{export_of};
ghost use Rattle.streams.specs.Moved.{AppendsStart};

use std::io;
use std::io::Write;

// Prints the text of an input, a piece at a time. The loop stands in `mend` as well: a proof loses what a closure that writes a piece has changed.
fn print<W: Write>(to: &mut W, bytes: &[u8]) -> io::Result<()>
    ensures start { AppendsStart (W.contents to.old) (W.contents to.new) (export_of bytes.now) }
    ensures all { OnOk result (Appends (W.contents to.old) (W.contents to.new) (export_of bytes.now)) }
{
    let mut text = [0u8; text::REPORT];
    let accepted = exporting::accept(bytes);
    let pieces = listing::count_pieces(accepted.map(|bundle| bundle.heading));
    for i in 0..pieces {
        let size = exporting::put_piece(bytes, &accepted, i, &mut text);
        streams::write_text(to, &text[..size])?;
    }
    Ok(())
}

// One byte more than an input may have tells one that is too long.
fn main(rt: HostRuntime) {
    let mut space = [0u8; listing::MOST_INPUT + 1];
    let input = streams::read_input(&mut rt.stdin(), &mut space);
    if let Err(error) = input.whole {
        let _ = eprintln!(rt; "jobtext: standard input: {error}");
        return;
    }
    if let Err(error) = print(&mut rt.stdout(), &space[..input.count]) {
        let _ = eprintln!(rt; "jobtext: standard output: {error}");
    }
}
