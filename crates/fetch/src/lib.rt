// What stands in an accepted bundle, by holder and place: a job's body as a part of the lent bytes, its number and its words.
#![tactic(auto)]

ghost use Rattle.std.specs.Prelude.{◌≡◌, ◌+◌, ◌*◌, ◌≤◌, ◌<◌, ◌++◌, length, drop, replicate, OnOk, IfOk};
ghost use Rattle.words.specs.Refusal.{fault_in, first, kept};
ghost use Rattle.records.specs.Layout.{body_at, body_size, job_len, head_size, job_size, file_size, order_size};
ghost use Rattle.bundle.specs.Bundle.{num_of, holder_of, job_at};
ghost use Rattle.bundle.specs.Contents.{words_from, words_of};
ghost use Rattle.fetch.specs.Fetch.{file_of, holder_fault, place_fault, run_fault, body_fault, body_of, part_of, part_fault};

use bundle::Bundle;
use records::Heading;
use words::Refusal;

// Which file of a bundle is a holder's, or the refusal of a holder that has none.
pub fn find_file(bundle: &Bundle, holder: usize) -> Result<usize, Refusal>
    ensures fault { fault_in result ≡ holder_fault bundle.now.bytes.now holder }
    ensures file { IfOk result (λ f. (f ≡ file_of bundle.now.bytes.now holder) × (f < bundle.now.files)) }
{
    let size = records::file_size(bundle.heading);
    let mut at: usize = records::ORDER_SIZE;
    for f in 0..bundle.files {
        let h = records::heading_at(bundle.bytes, at);
        if h.holder == holder {
            return Ok(f);
        }
        at += size;
    }
    Err(Refusal::Holder)
}

// Tests a place.
#[tactic(auto, unfolding(crate::specs::Fetch::place_fault))]
pub fn check_place(h: Heading, place: usize) -> Result<(), Refusal>
    ensures fault { fault_in result ≡ place_fault h place }
    ensures ok { OnOk result (place < h.jobs) }
{
    words::unless(place < h.jobs, Refusal::OutOfRange)
}

// Tests the run of the places a to b - 1.
#[tactic(auto, unfolding(crate::specs::Fetch::run_fault))]
pub fn check_run(h: Heading, a: usize, b: usize) -> Result<(), Refusal>
    ensures fault { fault_in result ≡ run_fault h a b }
    ensures ok { OnOk result ((a ≤ b) × (b ≤ h.jobs)) }
{
    words::unless(a <= b && b <= h.jobs, Refusal::OutOfRange)
}

// Where file f of a bundle stands, by its first heading.
pub fn file_at(h: Heading, f: usize) -> usize
    requires { (h.params.d ≤ 6) × (h.jobs ≤ 1000) × (f ≤ 63) }
    ensures { result ≡ order_size + f * file_size h }
{
    records::ORDER_SIZE + f * records::file_size(h)
}

// Where job p of file f of a bundle stands, by its first heading.
pub fn job_at(h: Heading, f: usize, p: usize) -> usize
    requires { (h.params.d ≤ 6) × (h.jobs ≤ 1000) × (f ≤ 63) × (p ≤ 1000) }
    ensures { result ≡ order_size + f * file_size h + head_size h + p * job_size h }
{
    file_at(h, f) + records::head_size(h) + p * (records::LENGTH_SIZE + records::job_length(h))
}

// Where a job's body begins in a bundle, by holder and place.
#[tactic(auto, using(words::proofs::Refusals::refusals))]
fn body_start(bundle: &Bundle, holder: usize, place: usize) -> Result<usize, Refusal>
    ensures fault { fault_in result
        ≡ first (holder_fault bundle.now.bytes.now holder) (place_fault bundle.now.heading place) }
    ensures start { IfOk result (λ at. at
        ≡ body_at (job_at bundle.now.bytes.now (file_of bundle.now.bytes.now holder) place)) }
{
    let f = find_file(bundle, holder)?;
    check_place(bundle.heading, place)?;
    Ok(job_at(bundle.heading, f, place) + records::PREFIX_SIZE)
}

// The bytes of a job's body.
#[tactic(auto, unfolding(records::specs::Layout::body_size, records::specs::Layout::job_len_of))]
fn body_size(h: Heading) -> usize
    requires { h.params.d ≤ 6 }
    ensures { result ≡ body_size (job_len h) }
{
    records::job_length(h) - records::KIND_SIZE
}

// The body of a job record, as that part of the bundle, or why the fetch declines.
#[tactic(auto, using(words::proofs::Refusals::refusals), unfolding(crate::specs::Fetch::body_fault))]
pub fn body(bytes: &[u8], holder: usize, place: usize) -> Result<&[u8], Refusal>
    ensures fault { fault_in result ≡ body_fault bytes.now holder place }
    ensures body { IfOk result (λ b. b.now ≡ body_of bytes.now holder place) }
{
    let bundle = bundle::accept(bytes)?;
    let start = body_start(&bundle, holder, place)?;
    Ok(&bytes[start..start + body_size(bundle.heading)])
}

// The same, with an empty part where the fetch declines.
pub fn fetch_body(bytes: &[u8], holder: usize, place: usize) -> &[u8]
    ensures { result.now ≡ body_of bytes.now holder place }
{
    match body(bytes, holder, place) {
        Ok(part) => part,
        Err(_) => &bytes[..0],
    }
}

// The same part, as its offset and its length.
#[tactic(auto, using(words::proofs::Refusals::refusals), unfolding(crate::specs::Fetch::part_fault))]
pub fn fetch_part(
    bytes: &[u8],
    holder: usize,
    place: usize,
    part: &mut [u64],
) -> Result<(), Refusal>
    ensures { (fault_in result ≡ part_fault bytes.now holder place (length part.old))
        × (part.new ≡ kept (part_fault bytes.now holder place (length part.old)) part.old
        (part_of bytes.now (file_of bytes.now holder) place)) }
{
    let bundle = bundle::accept(bytes)?;
    let f = find_file(&bundle, holder)?;
    words::check_length(2, part.len())?;
    check_place(bundle.heading, place)?;
    part[0] = (job_at(bundle.heading, f, place) + records::PREFIX_SIZE) as u64;
    part[1] = body_size(bundle.heading) as u64;
    Ok(())
}

// The d words of 8 bytes each from a position.
fn load_words_by(bytes: &[u8], at: usize, d: usize) -> [u64; 6]
    requires { (d ≤ 6) × (at + 8 * d ≤ length bytes.now) }
    ensures { result ≡ words_from 8 bytes.now d at ++ drop d (replicate 6 0) }
{
    let mut words = [0u64; 6];
    for i in 0..d {
        words[i] = records::word_at(bytes, at + i * records::WORD_SIZE);
    }
    words
}

// The same, with code for each d.
fn load_words(bytes: &[u8], at: usize, d: usize) -> [u64; 6]
    requires { ((2 ≤ d) × (d ≤ 6)) × (at + 8 * d ≤ length bytes.now) }
    ensures { result ≡ words_from 8 bytes.now d at ++ drop d (replicate 6 0) }
{
    words::specialized!(d, load_words_by(bytes, at, d))
}

// The words of the job at place p of file f.
pub fn job_words(bundle: &Bundle, f: usize, p: usize) -> [u64; 6]
    requires { (f < bundle.now.files) × (p < bundle.now.heading.jobs) }
    ensures { result ≡ words_of bundle.now.bytes.now f p ++ drop bundle.now.heading.params.d (replicate 6 0) }
{
    let at = job_at(bundle.heading, f, p) + records::PREFIX_SIZE + records::NUMBER_SIZE;
    load_words(bundle.bytes, at, bundle.heading.params.d)
}

// The number of the job at place p.
pub fn job_number(bundle: &Bundle, p: usize) -> u64
    requires { p < bundle.now.heading.jobs }
    ensures { result ≡ num_of bundle.now.bytes.now (job_at bundle.now.bytes.now 0 p) }
{
    records::word_at(
        bundle.bytes,
        job_at(bundle.heading, 0, p) + records::PREFIX_SIZE,
    )
}

// The holder of file f.
pub fn file_holder(bundle: &Bundle, f: usize) -> usize
    requires { f < bundle.now.files }
    ensures { result ≡ holder_of bundle.now.bytes.now f }
{
    let found = records::heading_at(bundle.bytes, file_at(bundle.heading, f));
    found.holder
}
