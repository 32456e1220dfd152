// Reads cases from standard input, a line each, and prints what the reader answers.
//   c HEX  bytes as a bundle: the number of the first fault, or 0
//   f HEX  bytes as one file: the same
//   r HEX  reads by a cursor to the end or a fault: the kinds as 1, 2 and o, then e or x
//   s HEX  a bundle: the numbers of all its beginnings, and then of each of its bytes changed to each of some values
#![tactic(auto)]

ghost use Rattle.std.specs.Prelude.{◌≤◌, ◌<◌, length};

use records::Cursor;
use std::io;
use std::io::Write;
use words::Refusal;

const ROOM: usize = 512;

fn print<W: Write>(out: &mut W, c: u8) -> io::Result<()> {
    let text = [c];
    out.write_all(&text)
}

// One digit: the number of a refusal, or 0.
fn digit(outcome: Result<(), Refusal>) -> u8 {
    b'0' + words::fault_number(outcome) % 10
}

// The value of a hexadecimal digit.
fn nibble(c: u8) -> u8
    ensures { result < 16 }
{
    match c {
        b'0'..=b'9' => c - b'0',
        b'a'..=b'f' => c - b'a' + 10,
        _ => 0,
    }
}

// A case: its bytes, and how many they are.
#[derive(Drop)]
struct Case {
    bytes: [u8; 512],
    size: usize,
}

// The byte that the two digits from a position on spell.
fn byte_at(text: &[u8], i: usize) -> u8
    requires { i < length text.now }
{
    let high = nibble(text[i]) * 16;
    if i + 1 < text.len() {
        high + nibble(text[i + 1])
    } else {
        high
    }
}

// The bytes that the digits from a position to another spell.
fn decode(text: &[u8], from: usize, end: usize) -> Case
    requires { end ≤ length text.now }
    ensures { result.size ≤ 512 }
{
    let mut bytes = [0u8; 512];
    let mut i = from;
    let mut n: usize = 0;
    while i < end {
        if n == ROOM {
            return Case { bytes, size: n };
        }
        bytes[n] = byte_at(text, i);
        n += 1;
        i += 2;
    }
    Case { bytes, size: n }
}

// The numbers of all beginnings.
fn beginnings<W: Write>(out: &mut W, bytes: &[u8]) -> io::Result<()> {
    for n in 0..bytes.len() {
        print(out, digit(bundle::check_bundle(&bytes[..n])))?;
    }
    print(out, b'\n')
}

// The number of the first n bytes.
fn cut(bytes: &[u8], n: usize) -> u8 {
    if n <= bytes.len() {
        digit(bundle::check_bundle(&bytes[..n]))
    } else {
        b'?'
    }
}

// The number of a case with one byte changed.
fn changed(bytes: [u8; 512], n: usize, i: usize, v: u8) -> u8
    requires { (n ≤ 512) × (i < n) }
{
    let mut b = bytes;
    b[i] = v;
    cut(&b, n)
}

// The numbers with each byte in turn changed to one value.
fn changes<W: Write>(out: &mut W, bytes: [u8; 512], n: usize, v: u8) -> io::Result<()>
    requires { n ≤ 512 }
{
    for i in 0..n {
        print(out, changed(bytes, n, i, v))?;
    }
    print(out, b'\n')
}

// What a cursor reads from the start on: a letter for each record, and one for the end.
fn trace<W: Write>(out: &mut W, bytes: &[u8]) -> io::Result<()> {
    let mut cursor = Cursor { at: 0 };
    loop {
        match cursor.read(bytes) {
            Ok(Some(record)) => {
                print(out, letter(record.kind))?;
                cursor = record.next;
            }
            Ok(None) => {
                print(out, b'e')?;
                return print(out, b'\n');
            }
            Err(_) => {
                print(out, b'x')?;
                return print(out, b'\n');
            }
        }
    }
}

fn letter(kind: u64) -> u8 {
    match kind {
        records::HEADING_KIND => b'1',
        records::JOB_KIND => b'2',
        _ => b'o',
    }
}

fn all_changes<W: Write>(out: &mut W, bytes: [u8; 512], n: usize) -> io::Result<()>
    requires { n ≤ 512 }
{
    for v in [0, 1, 2, 3, 4, 16, 17, 65, 255] {
        changes(out, bytes, n, v)?;
    }
    Ok(())
}

// What a case asks for.
fn answer<W: Write>(out: &mut W, kind: u8, bytes: &[u8]) -> io::Result<()> {
    match kind {
        b'c' => {
            print(out, digit(bundle::check_bundle(bytes)))?;
            print(out, b'\n')
        }
        b'f' => {
            print(out, digit(bundle::check_file(bytes)))?;
            print(out, b'\n')
        }
        b'r' => trace(out, bytes),
        _ => beginnings(out, bytes),
    }
}

fn answer_first<W: Write>(out: &mut W, kind: u8, bytes: &[u8], n: usize) -> io::Result<()> {
    if n <= bytes.len() {
        answer(out, kind, &bytes[..n])?;
    }
    Ok(())
}

// The case of one line.
fn line<W: Write>(out: &mut W, text: &[u8], from: usize, end: usize) -> io::Result<()>
    requires { (from < end) × (end ≤ length text.now) }
{
    let kind = text[from];
    let case = decode(text, from + 2, end);
    let b = case.bytes;
    let n = case.size;
    answer_first(out, kind, &b, n)?;
    if kind == b's' {
        all_changes(out, b, n)?;
    }
    Ok(())
}

fn run<W: Write>(out: &mut W, text: &[u8]) -> io::Result<()> {
    let mut at: usize = 0;
    while at < text.len() {
        let end = cases::find(text, at, b'\n');
        if at < end {
            line(out, text, at, end)?;
        }
        at = end + 1;
    }
    Ok(())
}

fn main(rt: HostRuntime) -> io::Result<()> {
    let mut space = [0u8; 65536];
    let n = cases::read_full(&mut rt.stdin(), &mut space)?;
    run(&mut rt.stdout(), &space[..n])
}
