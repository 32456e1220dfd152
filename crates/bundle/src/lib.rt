// Files and bundles: the first fault of lent bytes, in byte order.
#![tactic(auto)]

ghost use Rattle.std.specs.Prelude.{◌≡◌, ◌+◌, ◌≤◌, true, ◌||◌, length, eqb, ltb, IfOk};
ghost use Rattle.words.specs.Refusal.{fault_in, first_of};
ghost use Rattle.records.specs.Layout.{job_kind, known};
ghost use Rattle.records.specs.Record.{heading_of};
ghost use Rattle.bundle.specs.Bundle.{ranges_ok, holder_ok, belongs, heading_fault, num_of, job_fault_at, job_fault, file_fault_at, file_fault};
ghost use Rattle.bundle.specs.Bundle.{files_fault, bundle_fault, bundle_heading, files_of, allowance_of};

use records::Heading;
use words::Refusal;

// The most jobs of a file.
pub const MOST_JOBS: usize = 1000;

// A bundle that is accepted: its bytes, its first heading and its number of files.
#[derive(Clone, Copy)]
pub struct Bundle<'a> {
    pub bytes: &'a [u8],
    pub heading: Heading,
    pub files: usize,
    ghost sound: { bundle_fault bytes.now ≡ 0 },
    ghost headed: { heading ≡ bundle_heading bytes.now },
    ghost counted: { files ≡ files_of bytes.now },
}

// Whether parameters and a count of jobs are in their ranges.
#[tactic(auto, unfolding(crate::specs::Bundle::ranges_ok))]
pub fn ranges_ok(h: Heading) -> bool
    ensures { result ≡ ranges_ok h }
{
    words::params_ok(h.params) && h.jobs <= MOST_JOBS
}

// Whether a holder may follow the holder prev, or 0 for none.
#[tactic(auto, unfolding(crate::specs::Bundle::holder_ok))]
pub fn holder_ok(prev: usize, h: Heading) -> bool
    ensures { result ≡ holder_ok prev h }
{
    prev < h.holder && h.holder <= h.params.n
}

// Whether files with these headings belong together.
#[tactic(auto, unfolding(crate::specs::Bundle::belongs, crate::specs::Bundle::same_params))]
fn belong(a: Heading, b: Heading) -> bool
    ensures { result ≡ belongs a b }
{
    a.params == b.params && a.archive == b.archive && a.jobs == b.jobs
}

// Tests the heading at a position, where the first file stands at base, and gives it.
#[tactic(auto, using(words::proofs::Refusals::refusals), unfolding(crate::specs::Bundle::heading_fault, records::specs::Layout::head_kind, records::specs::Layout::head_len))]
fn check_heading(bytes: &[u8], base: usize, prev: usize, at: usize) -> Result<Heading, Refusal>
    requires { (base ≤ at) × (at ≤ length bytes.now) }
    ensures fault { fault_in result ≡ heading_fault bytes.now base prev at }
    ensures heading { IfOk result (λ h. h ≡ heading_of bytes.now at) }
{
    let framed = records::is_record(bytes, at, records::HEADING_KIND, records::HEADING_LENGTH);
    words::unless(framed, Refusal::Malformed)?;
    let h = records::heading_at(bytes, at);
    words::unless(ranges_ok(h), Refusal::Parameters)?;
    words::unless(holder_ok(prev, h), Refusal::Holder)?;
    words::unless(
        belong(records::heading_at(bytes, base), h),
        Refusal::Mismatched,
    )?;
    Ok(h)
}

// Whether a job number may stand at place p, after the number prev.
fn rises(p: usize, prev: u64, num: u64) -> bool
    ensures { result ≡ (eqb p 0 || ltb prev num) }
{
    p == 0 || prev < num
}

// Tests the job record at a position, where the first file has this place's at base, and gives its number.
#[tactic(auto, using(words::proofs::Refusals::refusals, crate::proofs::Headings::job_split), unfolding(crate::specs::Bundle::num_of))]
fn check_job(
    bytes: &[u8],
    len: usize,
    base: usize,
    prev: u64,
    p: usize,
    at: usize,
) -> Result<u64, Refusal>
    requires { (known job_kind len ≡ true) × (base ≤ at) × (at ≤ length bytes.now) }
    ensures fault { fault_in result ≡ job_fault_at bytes.now len base prev p at }
    ensures number { IfOk result (λ n. n ≡ num_of bytes.now at) }
{
    words::unless(
        records::is_record(bytes, at, records::JOB_KIND, len),
        Refusal::Malformed,
    )?;
    let num = records::word_at(bytes, at + records::PREFIX_SIZE);
    words::unless(rises(p, prev, num), Refusal::Malformed)?;
    words::unless(
        records::word_at(bytes, base + records::PREFIX_SIZE) == num,
        Refusal::Mismatched,
    )?;
    Ok(num)
}

// Tests a run of job records.
fn check_jobs(bytes: &[u8], len: usize, base: usize, at: usize, count: usize) -> Result<(), Refusal>
    requires { (known job_kind len ≡ true) × (base ≤ at) × (at ≤ length bytes.now) }
    ensures { fault_in result ≡ first_of (job_fault bytes.now len base at) count }
{
    let mut first = base;
    let mut here = at;
    let mut prev: u64 = 0;
    for p in 0..count {
        prev = check_job(bytes, len, first, prev, p, here)?;
        first += records::LENGTH_SIZE + len;
        here += records::LENGTH_SIZE + len;
    }
    Ok(())
}

// Tests the file at a position, and gives its heading.
#[tactic(auto, using(words::proofs::Refusals::refusals), unfolding(crate::specs::Bundle::file_fault_at))]
fn check_file_at(bytes: &[u8], base: usize, prev: usize, at: usize) -> Result<Heading, Refusal>
    requires { (base ≤ at) × (at ≤ length bytes.now) }
    ensures fault { fault_in result ≡ file_fault_at bytes.now base prev at }
    ensures heading { IfOk result (λ h. h ≡ heading_of bytes.now at) }
{
    let h = check_heading(bytes, base, prev, at)?;
    let head = records::head_size(h);
    check_jobs(
        bytes,
        records::job_length(h),
        base + head,
        at + head,
        h.jobs,
    )?;
    Ok(h)
}

// Tests all the bytes from start on as files that belong together. No more than `most` files may stand there: what follows them is a fault.
// The loop serves a bundle and a single file, so that the compiler copies the test of a file into it.
fn check_files_within(bytes: &[u8], start: usize, most: usize) -> Result<(), Refusal>
    ensures all { length bytes.now ≤ most → fault_in result ≡ files_fault bytes.now start }
    ensures one { start ≡ 0 → most ≡ 1 → fault_in result ≡ file_fault bytes.now }
{
    words::unless(start < bytes.len(), Refusal::Malformed)?;
    let mut at = start;
    let mut prev: usize = 0;
    let mut left = most;
    while at < bytes.len() {
        words::unless(0 < left, Refusal::Malformed)?;
        let h = check_file_at(bytes, start, prev, at)?;
        prev = h.holder;
        at += records::file_size(h);
        left -= 1;
    }
    Ok(())
}

// Tests bytes that should be one file.
pub fn check_file(bytes: &[u8]) -> Result<(), Refusal>
    ensures { fault_in result ≡ file_fault bytes.now }
{
    check_files_within(bytes, 0, 1)
}

// Tests all the bytes from start on as files that belong together, however many.
pub fn check_files(bytes: &[u8], start: usize) -> Result<(), Refusal>
    ensures { fault_in result ≡ files_fault bytes.now start }
{
    check_files_within(bytes, start, bytes.len())
}

// Tests all the bytes as a bundle.
#[tactic(auto, using(words::proofs::Refusals::refusals), unfolding(crate::specs::Bundle::bundle_fault))]
pub fn check_bundle(bytes: &[u8]) -> Result<(), Refusal>
    ensures { fault_in result ≡ bundle_fault bytes.now }
{
    words::unless(
        records::is_record(bytes, 0, records::ORDER_KIND, records::ORDER_LENGTH),
        Refusal::Malformed,
    )?;
    check_files(bytes, records::ORDER_SIZE)
}

// Reads all of the bytes as a bundle.
pub fn accept(bytes: &[u8]) -> Result<Bundle, Refusal>
    ensures fault { fault_in result ≡ bundle_fault bytes.now }
    ensures bundle { IfOk result (λ b. b.bytes.now ≡ bytes.now) }
{
    check_bundle(bytes)?;
    Ok(Bundle::of(bytes))
}

impl<'a> Bundle<'a> {
    // The bundle that bytes without a fault are.
    pub fn of(bytes: &'a [u8]) -> Bundle<'a>
        requires { bundle_fault bytes.now ≡ 0 }
        ensures { result.bytes.now ≡ bytes.now }
    {
        let heading = records::heading_at(bytes, records::ORDER_SIZE);
        let files = (bytes.len() - records::ORDER_SIZE) / records::file_size(heading);
        Bundle {
            bytes,
            heading,
            files,
        }
    }

    // The error bound: the order's one byte.
    pub fn allowance(&self) -> u64
        ensures { result ≡ allowance_of self.now.bytes.now }
    {
        records::number(self.bytes, records::PREFIX_SIZE, 1)
    }
}
