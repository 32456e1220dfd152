// Writes files, orders and bundles into lent buffers of exactly their lengths.
#![tactic(auto)]

ghost use Rattle.std.specs.Prelude.{◌≡◌, ◌+◌, ◌*◌, ◌≤◌, ◌<◌, [], ◌∷◌, ◌++◌, true, length, take, drop};
ghost use Rattle.words.specs.Refusal.{fault_in, kept};
ghost use Rattle.records.specs.Num.{le_bytes};
ghost use Rattle.records.specs.Layout.{head_size, job_size, order_size};
ghost use Rattle.bundle.specs.Bundle.{ranges_ok, holder_ok};
ghost use Rattle.writer.specs.Bytes.{heading_bytes, words_bytes, job_bytes, jobs_bytes, file_bytes, order_bytes};
ghost use Rattle.writer.specs.Write.{job_of, jobs_of, file_for, rising, sizes_ok, write_fault, file_write_fault, order_fault, bundle_write_fault};

use records::Heading;
use words::{Params, Refusal};

// Writes a number as w bytes from position at, lowest first.
fn put_number(out: &mut [u8], at: usize, w: usize, x: u64)
    requires { (w ≤ 8) × (at + w ≤ length out.old) }
    ensures { out.new ≡ take at out.old ++ (le_bytes w x ++ drop (at + w) out.old) }
{
    out[at..at + w].copy_from_slice(&x.to_le_bytes()[..w]);
}

// Writes a record's length and kind.
fn put_prefix(out: &mut [u8], at: usize, len: usize, kind: u64)
    requires { at + 6 ≤ length out.old }
    ensures { out.new ≡ take at out.old ++ ((le_bytes 4 len ++ le_bytes 2 kind) ++ drop (at + 6) out.old) }
{
    put_number(out, at, records::LENGTH_SIZE, len as u64);
    put_number(out, at + records::LENGTH_SIZE, records::KIND_SIZE, kind);
}

// Writes the d words that stand in a list from an index on.
pub fn put_words(out: &mut [u8], at: usize, words: &[u64], from: usize, d: usize)
    requires { (at + 8 * d ≤ length out.old) × (from + d ≤ length words.now) }
    ensures { out.new ≡ take at out.old ++
        (words_bytes 8 (take d (drop from words.now)) ++ drop (at + 8 * d) out.old) }
{
    for i in 0..d {
        put_number(
            out,
            at + i * records::WORD_SIZE,
            records::WORD_SIZE,
            words[from + i],
        );
    }
}

// Whether numbers strictly rise.
fn strictly_rising(numbers: &[u64]) -> bool
    ensures { result ≡ rising numbers.now }
{
    numbers.is_sorted_by(|a, b| a < b)
}

// Writes an order at the start.
fn put_order(out: &mut [u8], e: u8)
    requires { order_size ≤ length out.old }
    ensures { out.new ≡ take 0 out.old ++ (order_bytes e ++ drop (0 + order_size) out.old) }
{
    put_prefix(out, 0, records::ORDER_LENGTH, records::ORDER_KIND);
    put_number(out, records::PREFIX_SIZE, 1, e as u64);
}

// Writes an order.
#[tactic(auto, using(words::proofs::Refusals::refusals), unfolding(crate::specs::Write::order_fault))]
pub fn write_order(e: u8, out: &mut [u8]) -> Result<(), Refusal>
    ensures { (fault_in result ≡ order_fault (length out.old)) ×
        (out.new ≡ kept (order_fault (length out.old)) out.old (order_bytes e)) }
{
    words::check_length(records::ORDER_SIZE, out.len())?;
    put_order(out, e);
    Ok(())
}

// Writes the four parameters, a byte each.
fn put_params(out: &mut [u8], at: usize, p: Params)
    requires { (at + 4 ≤ length out.old) × (p.k < 256) × (p.d < 256) × (p.n < 256) × (p.t < 256) }
    ensures { out.new ≡ take at out.old ++ ((p.k ∷ p.d ∷ p.n ∷ p.t ∷ []) ++ drop (at + 4) out.old) }
{
    put_number(out, at, 1, p.k);
    put_number(out, at + 1, 1, p.d as u64);
    put_number(out, at + 2, 1, p.n as u64);
    put_number(out, at + 3, 1, p.t as u64);
}

// Writes a heading at the start.
fn put_heading(out: &mut [u8], h: Heading)
    requires { (ranges_ok h ≡ true) × (holder_ok 0 h ≡ true) × (head_size h ≤ length out.old) }
    ensures { out.new ≡ take 0 out.old ++ (heading_bytes h ++ drop (0 + head_size h) out.old) }
{
    let body = records::PREFIX_SIZE;
    let p = h.params;
    put_prefix(out, 0, records::HEADING_LENGTH, records::HEADING_KIND);
    put_params(out, body, p);
    put_number(out, body + 4, 1, h.holder as u64);
    put_number(out, body + 5, records::NUMBER_SIZE, h.archive);
    put_number(out, body + 5 + records::NUMBER_SIZE, 4, h.jobs as u64);
}

// Writes a job record, whose words stand in a list from an index on.
fn put_job(out: &mut [u8], at: usize, h: Heading, num: u64, words: &[u64], from: usize)
    requires { (h.params.d ≤ 6) × (at + job_size h ≤ length out.old) × (from + h.params.d ≤ length words.now) }
    ensures { out.new ≡ take at out.old ++
        (job_bytes h (job_of num (take h.params.d (drop from words.now))) ++ drop (at + job_size h) out.old) }
{
    let body = at + records::PREFIX_SIZE;
    let d = h.params.d;
    put_prefix(out, at, records::job_length(h), records::JOB_KIND);
    put_number(out, body, records::NUMBER_SIZE, num);
    put_words(out, body + records::NUMBER_SIZE, words, from, d);
}

// Writes the job records of a file.
fn put_jobs(out: &mut [u8], at: usize, h: Heading, numbers: &[u64], words: &[u64])
    requires { (h.params.d ≤ 6) × (at + length numbers.now * job_size h ≤ length out.old) ×
        (length numbers.now * h.params.d ≤ length words.now) }
    ensures { out.new ≡ take at out.old ++
        (jobs_bytes h (jobs_of h.params.d numbers.now words.now) ++ drop (at + length numbers.now * job_size h)
        out.old) }
{
    let d = h.params.d;
    let size = records::LENGTH_SIZE + records::job_length(h);
    for p in 0..numbers.len() {
        put_job(out, at + p * size, h, numbers[p], words, p * d);
    }
}

// Whether the lent words and output have their lengths.
fn sizes_ok(h: Heading, count: usize, size: usize) -> bool
    requires { ranges_ok h ≡ true }
    ensures { result ≡ sizes_ok h count size }
{
    let d = h.params.d;
    if count != h.jobs * d {
        return false;
    }
    size == records::file_size(h)
}

// Tests what a file is written from. Words are read only where there are as many as there should be.
#[tactic(auto, using(words::proofs::Refusals::refusals), unfolding(crate::specs::Write::write_fault))]
fn check_write(h: Heading, numbers: &[u64], words: &[u64], size: usize) -> Result<(), Refusal>
    ensures { fault_in result ≡ write_fault h numbers.now words.now size }
{
    words::unless(bundle::ranges_ok(h), Refusal::Parameters)?;
    words::unless(sizes_ok(h, words.len(), size), Refusal::Length)?;
    words::unless(bundle::holder_ok(0, h), Refusal::Holder)?;
    words::unless(strictly_rising(numbers), Refusal::Malformed)?;
    words::check_width(h.params.k, words)
}

// Writes a file: its heading, and a job for each number, with d words each.
#[tactic(auto, using(words::proofs::Refusals::refusals), unfolding(crate::specs::Write::heading_for))]
pub fn write_file(
    p: Params,
    holder: usize,
    archive: u64,
    numbers: &[u64],
    words: &[u64],
    out: &mut [u8],
) -> Result<(), Refusal>
    ensures { (fault_in result ≡ file_write_fault p holder archive numbers.now words.now out.old) ×
        (out.new ≡ kept (file_write_fault p holder archive numbers.now words.now out.old) out.old
        (file_bytes (file_for p holder archive numbers.now words.now))) }
{
    let h = Heading {
        params: p,
        holder,
        archive,
        jobs: numbers.len(),
    };
    check_write(h, numbers, words, out.len())?;
    put_heading(out, h);
    put_jobs(out, records::head_size(h), h, numbers, words);
    Ok(())
}

// Writes bytes from a position on. A loop and no `copy_from_slice`, which would have the library for C need `memmove` beside what it needs.
pub fn put_bytes(out: &mut [u8], at: usize, bytes: &[u8])
    requires { at + length bytes.now ≤ length out.old }
    ensures { out.new ≡ take at out.old ++
        (bytes.now ++ drop (at + length bytes.now) out.old) }
{
    for i in 0..bytes.len() {
        out[at + i] = bytes[i];
    }
}

// Writes a bundle: an order, and after it files as they stand in one lent slice. Files come from their holders already written, so nothing
// is written of them again; what would not be accepted is declined, with the number that a reader of the bundle would give.
#[tactic(auto, using(words::proofs::Refusals::refusals, crate::proofs::Orders::bundle_write))]
pub fn write_bundle(e: u8, files: &[u8], out: &mut [u8]) -> Result<(), Refusal>
    ensures { (fault_in result ≡ bundle_write_fault e files.now (length out.old)) ×
        (out.new ≡ kept (bundle_write_fault e files.now (length out.old)) out.old
        (order_bytes e ++ files.now)) }
{
    bundle::check_files(files, 0)?;
    words::check_length(records::ORDER_SIZE + files.len(), out.len())?;
    put_order(out, e);
    put_bytes(out, records::ORDER_SIZE, files);
    Ok(())
}
