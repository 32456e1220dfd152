// Reads a bundle from standard input, and prints a line for each place that mending it changes and for each job that keeps its bytes, or the
// number that it is refused with. With one argument, the name of a file that is not there yet, it writes the mended bundle there as well.
//
// What stands on standard output is a beginning of the input's report, and all of it unless standard error says that writing failed; only then
// is the file made. Where reading fails nothing is printed. A file that could not be written whole is taken away again, and standard error says
// so. What `streams` assumes of reading and writing is assumed here.
#![tactic(auto)]

ghost use Rattle.std.specs.Prelude.{◌≡◌, OnOk, length};
ghost use Rattle.std.specs.Io.KnownBytes.{Appends};
ghost use Rattle.listing.specs.Listing.{input_fault};
ghost use Rattle.listing.specs.Pieces.{Accepts};
ghost use Rattle.mending.specs.Mended.{mended};
ghost use Rattle.mending.specs.Progress.{output_at};
ghost use Rattle.mending.specs.Report.{report_of, report_pieces};
ghost use Rattle.streams.specs.Moved.{AppendsStart};

use bundle::Bundle;
use std::env::{Env, FillError};
use std::fs::{File, OpenOptions};
use std::io::{Error, ErrorKind, Write};
use std::{fs, io, str};
use words::Refusal;

// How long a name may be, and one byte more, as in the C library.
const NAME: usize = 4096;

// The number of the error that a name is too long.
const TOO_LONG: i32 = 36;

// Prints the report of an input, a piece at a time, mends it in the output on the way, and says whether writing went well.
// The loop stands in `jobtext` as well: a proof loses what a closure that writes a piece has changed, so no function takes one.
fn print<W: Write>(
    to: &mut W,
    bytes: &[u8],
    accepted: &Result<Bundle, Refusal>,
    out: &mut [u8],
) -> io::Result<()>
    requires { Accepts accepted.now (input_fault bytes.now) bytes.now × (out.old ≡ output_at bytes.now 0) }
    ensures mended { OnOk result (out.new ≡ output_at bytes.now (report_pieces bytes.now)) }
    ensures start { AppendsStart (W.contents to.old) (W.contents to.new) (report_of bytes.now) }
    ensures all { OnOk result (Appends (W.contents to.old) (W.contents to.new) (report_of bytes.now)) }
{
    let mut text = [0u8; text::REPORT];
    let pieces = listing::count_pieces(accepted.map(|bundle| bundle.heading));
    for i in 0..pieces {
        let size = mending::put_piece(bytes, accepted, i, out, &mut text);
        streams::write_text(to, &text[..size])?;
    }
    Ok(())
}

// Writes a bundle to a new file, and says whether it then stands there.
fn fill(file: &mut File, bundle: &[u8]) -> io::Result<()> {
    streams::write_text(file, bundle)?;
    file.sync_all()
}

// The new file's name, which is text.
fn name<'a>(rt: &HostRuntime, space: &'a mut [u8]) -> io::Result<&'a str> {
    match rt.arg(1, space) {
        Ok(size) => match str::from_utf8(&space[..size]) {
            Ok(name) => Ok(name),
            Err(_) => Err(Error::new(ErrorKind::InvalidFilename, "a name that is not UTF-8")),
        },
        Err(_) => Err(Error::from_raw_os_error(TOO_LONG)),
    }
}

// Makes a new file of a name, with a bundle in it. One that cannot be written whole is taken away again.
fn make(rt: &HostRuntime, name: &str, bundle: &[u8]) -> io::Result<()> {
    let mut file = OpenOptions::new()
        .write(true)
        .create_new(true)
        .open(rt, name)?;
    let filled = fill(&mut file, bundle);
    if filled.is_err() {
        let _ = fs::remove_file(rt, name);
    }
    filled
}

// Makes the file that the argument names. The input is there for the contract alone.
fn save(rt: &HostRuntime, bytes: &[u8], bundle: &[u8])
    requires { bundle.now ≡ mended bytes.now }
{
    let mut space = [0u8; NAME];
    let saved = match name(rt, &mut space) {
        Ok(name) => make(rt, name, bundle),
        Err(error) => Err(error),
    };
    if let Err(error) = saved {
        let _ = eprintln!(rt; "mend: the new file: {error}");
    }
}

// Whether the program was given an argument at a place, 0 being its own name.
fn has_argument(rt: &HostRuntime, place: usize) -> bool {
    match rt.arg(place, &mut []) {
        Err(FillError::NotPresent) => false,
        _ => true,
    }
}

// Mends an input in the output, prints its report, and makes the file if there is one to make.
fn mend(rt: &HostRuntime, bytes: &[u8], out: &mut [u8])
    requires { length out.old ≡ length bytes.now }
{
    let accepted = mending::start(bytes, out);
    match print(&mut rt.stdout(), bytes, &accepted, out) {
        Ok(()) => {
            if accepted.is_ok() && has_argument(rt, 1) {
                save(rt, bytes, out);
            }
        }
        Err(error) => {
            let _ = eprintln!(rt; "mend: standard output: {error}");
        }
    }
}

// One byte more than an input may have tells one that is too long.
fn main(rt: HostRuntime) {
    if has_argument(&rt, 2) {
        let _ = eprintln!(rt; "mend: one argument at most, the name of a new file");
        return;
    }
    let mut space = [0u8; listing::MOST_INPUT + 1];
    let mut room = [0u8; listing::MOST_INPUT + 1];
    let input = streams::read_input(&mut rt.stdin(), &mut space);
    if let Err(error) = input.whole {
        let _ = eprintln!(rt; "mend: standard input: {error}");
        return;
    }
    let count = input.count;
    mend(&rt, &space[..count], &mut room[..count]);
}
