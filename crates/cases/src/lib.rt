// Cases that a program reads from its stored input: a line each, of fields with bars between them.
#![tactic(auto)]

ghost use Rattle.std.specs.Prelude.{◌≡◌, ◌+◌, ◌-◌, ◌≤◌, ◌==◌, ◌++◌, length, position, take, drop, IfOk, OnOk, codes};
ghost use Rattle.std.specs.Io.KnownBytes.{Appends};
ghost use Rattle.cases.specs.Case.{IsPrefixLen, index_of, after, fields_from, field_of, number_from, numbers_of, spaced, spaced_line};

use std::io;
use std::io::{Read, Write};

// Reads to the end of the input or of the space, and gives how many bytes that is.
pub fn read_full<R: Read>(from: &mut R, space: &mut [u8]) -> io::Result<usize>
    ensures { IfOk result (λ n. IsPrefixLen n space.new) }
{
    let mut count: usize = 0;
    while count < space.len() {
        let more = from.read(&mut space[count..])?;
        if more == 0 {
            return Ok(count);
        }
        count += more;
    }
    Ok(count)
}

// Where the first byte b of a text is.
fn first(text: &[u8], b: u8) -> Option<usize>
    ensures { result ≡ position (λ c. c == b) text.now }
{
    text.iter().position(|c| *c == b)
}

// The position of the first byte b of a text from a position on; the text's end where there is none.
pub fn find(text: &[u8], at: usize, b: u8) -> usize
    requires { at ≤ length text.now }
    ensures within { result ≤ length text.now }
    ensures place { result ≡ at + index_of b (drop at text.now) }
{
    match first(&text[at..], b) {
        Some(i) => at + i,
        None => text.len(),
    }
}

// The position after the next bar from a position on; the line's end where there is no bar.
fn past_bar(line: &[u8], at: usize) -> usize
    requires { at ≤ length line.now }
    ensures { (result ≤ length line.now) × (drop result line.now ≡ after 124 (drop at line.now)) }
{
    let bar = find(line, at, b'|');
    if bar == line.len() {
        return bar;
    }
    bar + 1
}

// Where field i of a line begins; the line's end where it has no such field.
fn field_start(line: &[u8], i: usize) -> usize
    ensures { (result ≤ length line.now) × (drop result line.now ≡ fields_from i line.now) }
{
    let mut at = 0;
    for _ in 0..i {
        at = past_bar(line, at);
    }
    at
}

// Field i of a line.
pub fn field(line: &[u8], i: usize) -> &[u8]
    ensures { result.now ≡ field_of i line.now }
{
    let start = field_start(line, i);
    let end = find(line, start, b'|');
    &line[start..end]
}

fn digit(c: u8) -> u64
    ensures { result ≡ c - 48 }
{
    if c < 48 {
        return 0;
    }
    (c - 48) as u64
}

// The number that a text's digits spell, modulo 2^64.
pub fn number(text: &[u8]) -> u64
    ensures { result ≡ number_from 0 text.now }
{
    let mut x: u64 = 0;
    for c in text {
        x = words::add(64, words::mul(64, x, 10), digit(*c));
    }
    x
}

// Writes the numbers of a text to the start of an output, as many as it has room for, and gives how many these are.
pub fn numbers(text: &[u8], out: &mut [u64]) -> usize
    ensures prefix_len { IsPrefixLen result out.new }
    ensures value { (result ≡ length (numbers_of (length out.old) text.now))
        × (out.new ≡ numbers_of (length out.old) text.now ++ drop result out.old) }
{
    let mut at = 0;
    let mut n = 0;
    while at < text.len() {
        if n == out.len() {
            return n;
        }
        let end = find(text, at, b' ');
        out[n] = number(&text[at..end]);
        n += 1;
        at = end + 1;
    }
    n
}

// The parameters in the fields 1 to 4 of a line.
pub fn params(line: &[u8]) -> words::Params
    ensures { (result.k ≡ number_from 0 (field_of 1 line.now)) × (result.d ≡ number_from 0 (field_of 2 line.now))
        × (result.n ≡ number_from 0 (field_of 3 line.now)) × (result.t ≡ number_from 0 (field_of 4 line.now)) }
{
    let k = number(field(line, 1));
    let d = number(field(line, 2)) as usize;
    let n = number(field(line, 3)) as usize;
    let t = number(field(line, 4)) as usize;
    words::Params { k, d, n, t }
}

// Prints field 0 of a line, and a colon. What a writer holds where it fails no clause says, here and below.
pub fn print_name<W: Write>(out: &mut W, line: &[u8]) -> io::Result<()>
    ensures { OnOk result (Appends (W.contents out.old) (W.contents out.new) (field_of 0 line.now ++ codes ":")) }
{
    out.write_all(field(line, 0))?;
    out.write_all(b":")
}

// Prints a space and a number.
pub fn print_number<W: Write>(out: &mut W, x: u64) -> io::Result<()>
    ensures { OnOk result (Appends (W.contents out.old) (W.contents out.new) (spaced x)) }
{
    write!(out, " {x}")
}

// Prints a space and a number for each word, and the end of the line.
pub fn print_words<W: Write>(out: &mut W, words: &[u64]) -> io::Result<()>
    ensures { OnOk result (Appends (W.contents out.old) (W.contents out.new) (spaced_line words.now)) }
{
    for word in words {
        print_number(out, *word)?;
    }
    out.write_all(b"\n")
}
