// The calls on lent elements at the edges of their rules, and the signed reading of a word. A case is a line of standard input: the call and its
// edge, k, d, n, t, the operands, and what the output holds before the call. Its answer is a line: the call and its edge, the call's number,
// and what the output holds after it.
//   add, EDGE|k|d|n|t|a|b|out      multiply, EDGE|k|d|n|t|a|b|out
//   invert, EDGE|k|d|n|t|a||out    reading, EDGE|k|d|n|t|word||
#![tactic(auto)]

use std::io;
use std::io::Write;
use words::{Params, Refusal};

// The signed reading of a word; nothing where the word is not in width.
fn reading<W: Write>(out: &mut W, k: u64, w: u64) -> io::Result<()> {
    if k < 1 || 64 < k || !words::in_width(k, w) {
        return Ok(());
    }
    let s = words::read_signed(k, w);
    out.write_all(b" ")?;
    if s.negative {
        out.write_all(b"-")?;
    }
    let magnitude = s.magnitude;
    writeln!(out, "{magnitude}")
}

// The call of a name.
fn call(name: u8, p: Params, a: &[u64], b: &[u64], out: &mut [u64]) -> Result<(), Refusal> {
    match name {
        b'a' => arithmetic::add(p, a, b, out),
        b'm' => arithmetic::multiply(p, a, b, out),
        _ => arithmetic::invert(p, a, out),
    }
}

fn answer<W: Write>(
    to: &mut W,
    name: u8,
    p: Params,
    a: &[u64],
    b: &[u64],
    out: &mut [u64],
) -> io::Result<()> {
    let number = words::fault_number(call(name, p, a, b, out));
    cases::print_number(to, u64::from(number))?;
    cases::print_words(to, out)
}

// The case of one line.
fn case<W: Write>(to: &mut W, line: &[u8]) -> io::Result<()> {
    if line.len() == 0 {
        return Ok(());
    }
    let p = cases::params(line);
    cases::print_name(to, line)?;
    let mut a = [0u64; 8];
    let mut b = [0u64; 8];
    let mut out = [0u64; 8];
    let m = cases::numbers(cases::field(line, 5), &mut a);
    let n = cases::numbers(cases::field(line, 6), &mut b);
    let r = cases::numbers(cases::field(line, 7), &mut out);
    if line[0] == b'r' {
        reading(to, p.k, a[0])
    } else {
        answer(to, line[0], p, &a[..m], &b[..n], &mut out[..r])
    }
}

fn run<W: Write>(to: &mut W, text: &[u8]) -> io::Result<()> {
    for line in text.split(|c| *c == b'\n') {
        case(to, line)?;
    }
    Ok(())
}

fn main(rt: HostRuntime) -> io::Result<()> {
    let mut space = [0u8; 65536];
    let n = cases::read_full(&mut rt.stdin(), &mut space)?;
    run(&mut rt.stdout(), &space[..n])
}
