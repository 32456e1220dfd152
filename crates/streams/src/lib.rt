// What the programs read and write: standard input whole, and a text whole, tried again where a call was interrupted or not ready.
//
// The clauses tell which bytes move where those of a reader or a writer are known. Of standard input and output and of files none are: that the
// system moves the bytes that std says it moves is assumed.
#![tactic(auto)]

ghost use Rattle.std.specs.Prelude.{◌<◌, length, take, OnOk};
ghost use Rattle.std.specs.Io.KnownBytes.{Appends, Consumes, IsAtEnd};
ghost use Rattle.streams.specs.Moved.{IsPrefixLen, AppendsStart};
ghost use Rattle.listing.specs.Listing.{most_input};

use std::io::{Error, ErrorKind, Read, Write};
use std::{io, thread};

// How often a read or a write that a signal interrupted, or that would have had to wait, is tried again before it counts as failed: at a
// million tries a second, for half a million years.
const TRIES: u64 = 18446744073709551615;

// What was read: how many bytes, and whether that is all, to the end of the input or of the space, and no read failed.
#[derive(Drop)]
pub struct Input {
    pub count: usize,
    pub whole: io::Result<()>,
}

// Whether a read or a write that failed is worth another try; where it was not ready, others run first.
fn may_retry(error: &Error) -> bool {
    let kind = error.kind();
    if kind == ErrorKind::WouldBlock {
        thread::yield_now();
        return true;
    }
    kind == ErrorKind::Interrupted
}

// Reads to the end of the input or of the space, which is longer than an input may be.
pub fn read_input<R: Read>(from: &mut R, space: &mut [u8]) -> Input
    requires { most_input < length space.old }
    ensures count { IsPrefixLen result.count space.new }
    ensures bytes { Consumes (R.remaining from.old) (R.remaining from.new) (take result.count space.new) }
    ensures end { OnOk result.whole (result.count < length space.new → IsAtEnd (R.remaining from.new)) }
{
    let mut count: usize = 0;
    let mut tries = TRIES;
    while count < space.len() {
        match from.read(&mut space[count..]) {
            Ok(0) => {
                return Input {
                    count,
                    whole: Ok(()),
                };
            }
            Ok(more) => count += more,
            Err(error) => {
                if tries == 0 || !may_retry(&error) {
                    return Input {
                        count,
                        whole: Err(error),
                    };
                }
                tries -= 1;
            }
        }
    }
    Input {
        count,
        whole: Ok(()),
    }
}

// Writes all of a text, or says why not; then a beginning of it may have been written.
pub fn write_text<W: Write>(to: &mut W, text: &[u8]) -> io::Result<()>
    ensures start { AppendsStart (W.contents to.old) (W.contents to.new) text.now }
    ensures all { OnOk result (Appends (W.contents to.old) (W.contents to.new) text.now) }
{
    let mut done: usize = 0;
    let mut tries = TRIES;
    while done < text.len() {
        match to.write(&text[done..]) {
            Ok(0) => {
                return Err(Error::from(ErrorKind::WriteZero));
            }
            Ok(more) => done += more,
            Err(error) => {
                if tries == 0 || !may_retry(&error) {
                    return Err(error);
                }
                tries -= 1;
            }
        }
    }
    Ok(())
}
