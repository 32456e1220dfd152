// A bundle mended: each wrong share replaced by its polynomial's value. And what the program `mend` prints, a place at a time.
#![tactic(auto)]

ghost use Rattle.std.specs.Prelude.{◌≡◌, ◌+◌, ◌≤◌, ◌<◌, eqb, length};
ghost use Rattle.words.specs.Refusal.{fault_in, kept};
ghost use Rattle.records.specs.Num.{Bytes};
ghost use Rattle.galois.specs.Element.{point, held};
ghost use Rattle.polynomial.specs.Polynomial.{value};
ghost use Rattle.polynomial.specs.Rows.{coefs};
ghost use Rattle.codewords.specs.Demand.{bit_for};
ghost use Rattle.codewords.specs.Opening.{fault_of, wrong_of, opening_in};
ghost use Rattle.decoder.specs.Decoded.{wrong_in};
ghost use Rattle.archive.specs.Archive.{shares_at, place_opening};
ghost use Rattle.decimal.specs.Decimal.{written};
ghost use Rattle.text.specs.Text.{report_room};
ghost use Rattle.listing.specs.Listing.{input_fault};
ghost use Rattle.listing.specs.Pieces.{Accepts};
ghost use Rattle.mending.specs.Mended.{mended, mend_fault};
ghost use Rattle.mending.specs.Progress.{mended_to, output_at};
ghost use Rattle.mending.specs.Report.{changes_at, report_piece, report_pieces};

use bundle::Bundle;
use decimal::Text;
use records::Heading;
use words::Refusal;

// Whether a set names a holder.
fn names(wrong: u64, holder: u64) -> bool
    requires { (1 ≤ holder) × (holder ≤ 63) }
    ensures { result ≡ eqb (bit_for holder wrong) 1 }
{
    (wrong >> (holder - 1)) % 2 == 1
}

// The value of the polynomial in the rows at a holder's point.
fn value_at(h: Heading, rows: [[u64; 6]; 64], holder: u64) -> [u64; 6]
    requires { ((1 ≤ h.params.k) × (h.params.k ≤ 64)) × ((2 ≤ h.params.d) × (h.params.d ≤ 6)) × (h.params.t + 1 ≤ 64) }
    ensures { result ≡ held h.params.d
        (value h.params.k h.params.d (coefs h.params.d (h.params.t + 1) rows) (point h.params.d holder)) }
{
    polynomial::eval(h.params.k, h.params.d, rows, h.params.t + 1, holder)
}

// Mends the job at a place that opened in file f: if its holder is wrong, the value of the polynomial in the rows goes over its words.
fn mend_file(
    bundle: &Bundle,
    f: usize,
    place: usize,
    wrong: u64,
    rows: [[u64; 6]; 64],
    out: &mut [u8],
)
    requires { Bytes bundle.now.bytes.now × (f < bundle.now.files) × (place < bundle.now.heading.jobs)
        × (opening_in bundle.now.heading.params.d bundle.now.heading.params.t 0 rows ≡ place_opening bundle.now.bytes.now place)
        × (wrong ≡ wrong_of bundle.now.heading.params.k bundle.now.heading.params.d (shares_at bundle.now.bytes.now place)
        (place_opening bundle.now.bytes.now place))
        × (out.old ≡ mended_to bundle.now.bytes.now place f) }
    ensures { out.new ≡ mended_to bundle.now.bytes.now place (f + 1) }
{
    let h = bundle.heading;
    let holder = fetch::file_holder(bundle, f) as u64;
    if !names(wrong, holder) {
        return;
    }
    let d = h.params.d;
    let at = fetch::job_at(h, f, place) + records::PREFIX_SIZE + records::NUMBER_SIZE;
    let words = value_at(h, rows, holder);
    writer::put_words(out, at, &words[..d], 0, d);
}

// The same in every file.
fn mend_files(bundle: &Bundle, place: usize, wrong: u64, rows: [[u64; 6]; 64], out: &mut [u8])
    requires { Bytes bundle.now.bytes.now × (place < bundle.now.heading.jobs)
        × (opening_in bundle.now.heading.params.d bundle.now.heading.params.t 0 rows ≡ place_opening bundle.now.bytes.now place)
        × (wrong ≡ wrong_of bundle.now.heading.params.k bundle.now.heading.params.d (shares_at bundle.now.bytes.now place)
        (place_opening bundle.now.bytes.now place))
        × (out.old ≡ mended_to bundle.now.bytes.now place 0) }
    ensures { out.new ≡ mended_to bundle.now.bytes.now (place + 1) 0 }
{
    for f in 0..bundle.files {
        mend_file(bundle, f, place, wrong, rows, out);
    }
}

// Mends the job at a place of a bundle, those before it being mended, and gives the wrong holders, or the refusal of a job that keeps its bytes.
fn mend_place(bundle: &Bundle, place: usize, out: &mut [u8]) -> Result<u64, Refusal>
    requires { Bytes bundle.now.bytes.now × (place < bundle.now.heading.jobs) × (out.old ≡ mended_to bundle.now.bytes.now place 0) }
    ensures fault { fault_in result ≡ fault_of (place_opening bundle.now.bytes.now place) }
    ensures wrong { wrong_in result
        ≡ wrong_of bundle.now.heading.params.k bundle.now.heading.params.d (shares_at bundle.now.bytes.now place)
        (place_opening bundle.now.bytes.now place) }
    ensures out { out.new ≡ mended_to bundle.now.bytes.now (place + 1) 0 }
{
    let holders = archive::load_holders(bundle);
    let mut shares = [[0u64; 6]; 63];
    let mut rows = [[0u64; 6]; 64];
    let wrong = archive::place_opening(bundle, place, &holders, &mut shares, &mut rows)?;
    mend_files(bundle, place, wrong, rows, out);
    Ok(wrong)
}

// Mends the jobs of a bundle in a copy of it.
fn mend_jobs(bundle: &Bundle, out: &mut [u8])
    requires { Bytes bundle.now.bytes.now × (out.old ≡ mended_to bundle.now.bytes.now 0 0) }
    ensures { out.new ≡ mended bundle.now.bytes.now }
{
    for place in 0..bundle.heading.jobs {
        let _ = mend_place(bundle, place, out);
    }
}

// Writes a bundle mended, into an output of its length.
#[tactic(auto, using(words::proofs::Refusals::refusals), unfolding(crate::specs::Mended::mend_fault))]
pub fn mend(bytes: &[u8], out: &mut [u8]) -> Result<(), Refusal>
    ensures { (fault_in result ≡ mend_fault bytes.now (length out.old))
        × (out.new ≡ kept (mend_fault bytes.now (length out.old)) out.old (mended bytes.now)) }
{
    let bundle = bundle::accept(bytes)?;
    words::check_length(bytes.len(), out.len())?;
    writer::put_bytes(out, 0, bytes);
    mend_jobs(&bundle, out);
    Ok(())
}

// Accepts an input of the program, and copies it to the output.
pub fn start<'a>(bytes: &'a [u8], out: &mut [u8]) -> Result<Bundle<'a>, Refusal>
    requires { length out.old ≡ length bytes.now }
    ensures { Accepts result (input_fault bytes.now) bytes.now × (out.new ≡ output_at bytes.now 0) }
{
    out.copy_from_slice(bytes);
    listing::accept_input(bytes)
}

// Mends the job at a place of a bundle, and writes its lines from the start of a lent text.
fn put_place(bundle: &Bundle, place: usize, out: &mut [u8], text: &mut [u8]) -> usize
    requires { Bytes bundle.now.bytes.now × (place < bundle.now.heading.jobs)
        × (out.old ≡ mended_to bundle.now.bytes.now place 0) × (report_room ≤ length text.old) }
    ensures out { out.new ≡ mended_to bundle.now.bytes.now (place + 1) 0 }
    ensures text { (text.new ≡ written 0 (changes_at bundle.now.bytes.now place) text.old)
        × (result ≡ length (changes_at bundle.now.bytes.now place)) × (result ≤ report_room) }
{
    let number = fetch::job_number(bundle, place);
    match mend_place(bundle, place, out) {
        Ok(wrong) => {
            let mut lines = Text::new(text);
            text::put_changes(&mut lines, number, wrong);
            lines.len()
        }
        Err(refusal) => {
            let mut line = Text::new(text);
            text::put_kept(&mut line, number, refusal.number());
            line.len()
        }
    }
}

// Writes piece i of an input's report from the start of a lent text, and gives its size. Of an accepted input it mends the place on the way. The
// input is there for the contract alone.
pub fn put_piece(
    bytes: &[u8],
    accepted: &Result<Bundle, Refusal>,
    i: usize,
    out: &mut [u8],
    text: &mut [u8],
) -> usize
    requires { Accepts accepted.now (input_fault bytes.now) bytes.now × (i < report_pieces bytes.now)
        × (out.old ≡ output_at bytes.now i) × (report_room ≤ length text.old) }
    ensures out { out.new ≡ output_at bytes.now (i + 1) }
    ensures text { (text.new ≡ written 0 (report_piece bytes.now i) text.old)
        × (result ≡ length (report_piece bytes.now i)) × (result ≤ report_room) }
{
    match accepted {
        Ok(bundle) => put_place(bundle, i, out, text),
        Err(refusal) => {
            let mut line = Text::new(text);
            text::put_refused(&mut line, refusal.number());
            line.len()
        }
    }
}
