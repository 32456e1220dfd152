// Dealing and opening at the edges of their rules. A case is a line of standard input: the call and its edge, k, d, n, t, what is lent, and
// what the output holds before the call. Its answer is a line: the call and its edge, the call's number, for an opening the set of the wrong
// holders as a number and their positions, 64 entries that hold 7 before the call, and what the output holds after the call.
//   deal, EDGE|k|d|n|t|job|coefficients||out    open, EDGE|k|d|n|t|holders|shares|e|out
#![tactic(auto)]

use std::io;
use std::io::Write;
use words::Params;

fn deal<W: Write>(
    to: &mut W,
    p: Params,
    job: &[u64],
    coefficients: &[u64],
    out: &mut [u64],
) -> io::Result<()> {
    let fault = words::fault_number(sharing::deal(p, job, coefficients, out));
    cases::print_number(to, u64::from(fault))?;
    cases::print_words(to, out)
}

// Prints a space and a number for each position.
fn print_positions<W: Write>(to: &mut W, lowest: &[u8]) -> io::Result<()> {
    for position in lowest {
        cases::print_number(to, u64::from(*position))?;
    }
    Ok(())
}

fn open<W: Write>(
    to: &mut W,
    p: Params,
    holders: &[u64],
    shares: &[u64],
    e: u64,
    out: &mut [u64],
) -> io::Result<()> {
    let mut wrong = [0u64; 1];
    let mut lowest = [7u8; 64];
    let opened = sharing::open_shares(p, holders, shares, e, out, &mut wrong, &mut lowest);
    cases::print_number(to, u64::from(words::fault_number(opened)))?;
    cases::print_number(to, wrong[0])?;
    print_positions(to, &lowest)?;
    cases::print_words(to, out)
}

fn answer<W: Write>(
    to: &mut W,
    name: u8,
    p: Params,
    a: &[u64],
    b: &[u64],
    e: u64,
    out: &mut [u64],
) -> io::Result<()> {
    match name {
        b'd' => deal(to, p, a, b, out),
        _ => open(to, p, a, b, e, out),
    }
}

// The case of one line. 63 shares of 6 words, and one word more, have room.
fn case<W: Write>(to: &mut W, line: &[u8]) -> io::Result<()> {
    if line.len() == 0 {
        return Ok(());
    }
    let p = cases::params(line);
    let e = cases::number(cases::field(line, 7));
    cases::print_name(to, line)?;
    let mut a = [0u64; 379];
    let mut b = [0u64; 379];
    let mut out = [0u64; 379];
    let m = cases::numbers(cases::field(line, 5), &mut a);
    let n = cases::numbers(cases::field(line, 6), &mut b);
    let r = cases::numbers(cases::field(line, 8), &mut out);
    answer(to, line[0], p, &a[..m], &b[..n], e, &mut out[..r])
}

fn run<W: Write>(to: &mut W, text: &[u8]) -> io::Result<()> {
    for line in text.split(|c| *c == b'\n') {
        case(to, line)?;
    }
    Ok(())
}

fn main(rt: HostRuntime) -> io::Result<()> {
    let mut space = [0u8; 65536];
    let n = cases::read_full(&mut rt.stdin(), &mut space)?;
    run(&mut rt.stdout(), &space[..n])
}
