// The text of one lens job, five labelled lines, for the surfacing machines: written, measured and read.
#![tactic(auto)]

ghost use Rattle.std.specs.Prelude.{◌≡◌, ◌+◌, ◌≤◌, true, [], ◌∷◌, length, OnOk};
ghost use Rattle.words.specs.Refusal.{fault_in, kept};
ghost use Rattle.words.specs.Word.{all_in_width};
ghost use Rattle.decimal.specs.Decimal.{ascii, signed_text, hundredths_text};
ghost use Rattle.decimal.specs.Puts.{HasRoom, Puts};
ghost use Rattle.labelled.specs.JobText.{line_with, lines_of, lens_job, text_of, text_room};
ghost use Rattle.labelled.specs.Reading.{goes_on, number_from, nothing, after_line, scanned};
ghost use Rattle.labelled.specs.Reading.{in_range, job_in_range, is_text_of, word_of, words_of};
ghost use Rattle.labelled.specs.Calls.{lens_fault, words_fault, size_fault, write_fault, read_fault};

use decimal::Text;
use words::{Params, Refusal, Signed};

// A lens job as its text has it: what its words mean, and its number.
#[derive(Clone, Copy)]
pub struct LensJob {
    pub number: u64,
    pub sphere: Signed,
    pub cylinder: Signed,
    pub axis: Signed,
    pub thickness: Signed,
}

// The number in the first line of a text, and what follows the line.
#[derive(Clone, Copy)]
struct Line<'a> {
    value: Signed,
    rest: &'a [u8],
}

// Every text fits into so many bytes: the definition's text_room.
const ROOM: usize = 160;

// ---- writing

fn put_line_end(text: &mut Text)
    requires { HasRoom text.old (ascii "\r\n") }
    ensures { Puts text.old text.new (ascii "\r\n") }
{
    text.bytes(b"\r\n");
}

// A label, a whole number and the line's end.
#[tactic(auto, using(decimal::proofs::Puts::texts))]
fn put_whole(text: &mut Text, label: &[u8], s: Signed)
    requires { HasRoom text.old (line_with label.now (signed_text s)) }
    ensures { Puts text.old text.new (line_with label.now (signed_text s)) }
{
    text.bytes(label);
    text.signed(s);
    put_line_end(text);
}

// A label, a number with two decimals and the line's end.
#[tactic(auto, using(decimal::proofs::Puts::texts))]
fn put_fixed(text: &mut Text, label: &[u8], s: Signed)
    requires { HasRoom text.old (line_with label.now (hundredths_text s)) }
    ensures { Puts text.old text.new (line_with label.now (hundredths_text s)) }
{
    text.bytes(label);
    text.hundredths(s);
    put_line_end(text);
}

// The text of a job.
pub fn put_job(text: &mut Text, job: LensJob)
    requires { text.old.len + text_room ≤ length text.old.buffer.now }
    ensures puts { Puts text.old text.new (lines_of job) }
    ensures short { length (lines_of job) ≤ text_room }
{
    let number = Signed {
        negative: false,
        magnitude: job.number,
    };
    put_whole(text, b"JOB=", number);
    put_fixed(text, b"SPH=", job.sphere);
    put_fixed(text, b"CYL=", job.cylinder);
    put_whole(text, b"AX=", job.axis);
    put_fixed(text, b"CTHICK=", job.thickness);
}

// A job by its number and four words, each in its signed reading.
pub fn lens_job(k: u64, number: u64, words: &[u64]) -> LensJob
    requires { ((1 ≤ k) × (k ≤ 64)) × (length words.now ≡ 4) × (all_in_width k words.now ≡ true) }
    ensures { result ≡ lens_job k number words.now }
{
    LensJob {
        number,
        sphere: words::read_signed(k, words[0]),
        cylinder: words::read_signed(k, words[1]),
        axis: words::read_signed(k, words[2]),
        thickness: words::read_signed(k, words[3]),
    }
}

// ---- reading

// A number goes on by a byte: a minus sign, a digit, or one that is passed over.
fn go_on(s: Signed, c: u8) -> Signed
    ensures { result ≡ goes_on s c }
{
    match c {
        b'-' => Signed {
            negative: true,
            magnitude: s.magnitude,
        },
        b'0'..=b'9' => Signed {
            negative: s.negative,
            magnitude: std::num::wrapping_add_u64(
                words::mul64(s.magnitude, 10),
                u64::from(c - b'0'),
            ),
        },
        _ => s,
    }
}

// The first line of a text, with no rule of how its number is written.
fn scan_line(text: &[u8]) -> Line
    ensures value { result.value ≡ number_from nothing text.now }
    ensures rest { result.rest.now ≡ after_line text.now }
{
    let mut value = Signed {
        negative: false,
        magnitude: 0,
    };
    for (i, c) in text.iter().enumerate() {
        if *c == b'\n' {
            let rest = &text[i + 1..];
            return Line { value, rest };
        }
        value = go_on(value, *c);
    }
    let rest = &text[text.len()..];
    Line { value, rest }
}

// The numbers in the first five lines.
#[tactic(auto, unfolding(crate::specs::Reading::scanned))]
fn scan(text: &[u8]) -> LensJob
    ensures { result ≡ scanned text.now }
{
    let number = scan_line(text);
    let sphere = scan_line(number.rest);
    let cylinder = scan_line(sphere.rest);
    let axis = scan_line(cylinder.rest);
    let thickness = scan_line(axis.rest);
    let name = number.value;
    LensJob {
        number: name.magnitude,
        sphere: sphere.value,
        cylinder: cylinder.value,
        axis: axis.value,
        thickness: thickness.value,
    }
}

// Whether a number is one that words of k bits mean: zero has no sign.
#[tactic(auto, using(crate::proofs::Words::half_is), unfolding(crate::specs::Reading::in_range))]
fn in_range(k: u64, s: Signed) -> bool
    requires { (1 ≤ k) × (k ≤ 64) }
    ensures { result ≡ in_range k s }
{
    let half = 1u64 << (k - 1);
    if s.negative {
        1 <= s.magnitude && s.magnitude <= half
    } else {
        s.magnitude < half
    }
}

#[tactic(auto, unfolding(crate::specs::Reading::job_in_range))]
fn job_in_range(k: u64, job: LensJob) -> bool
    requires { (1 ≤ k) × (k ≤ 64) }
    ensures { result ≡ job_in_range k job }
{
    in_range(k, job.sphere)
        && in_range(k, job.cylinder)
        && in_range(k, job.axis)
        && in_range(k, job.thickness)
}

// Whether a text is what a job in range is written as.
#[tactic(auto, unfolding(crate::specs::Reading::is_text_of))]
fn is_text_of(k: u64, text: &[u8], job: LensJob) -> bool
    requires { (1 ≤ k) × (k ≤ 64) }
    ensures { result ≡ is_text_of k text.now job }
{
    if !job_in_range(k, job) {
        return false;
    }
    let mut room = [0u8; ROOM];
    let mut lines = Text::new(&mut room);
    put_job(&mut lines, job);
    let n = lines.len();
    text == &room[..n]
}

// The word that means a number in range.
fn word_of(k: u64, s: Signed) -> u64
    requires { ((1 ≤ k) × (k ≤ 64)) × (in_range k s ≡ true) }
    ensures { result ≡ word_of k s }
{
    if s.negative {
        return words::sub(k, 0, s.magnitude);
    }
    s.magnitude
}

// The words of a job in range, into an output of four words.
fn put_words(k: u64, job: LensJob, out: &mut [u64])
    requires { ((1 ≤ k) × (k ≤ 64)) × (job_in_range k job ≡ true) × (length out.old ≡ 4) }
    ensures { out.new ≡ words_of k job }
{
    out[0] = word_of(k, job.sphere);
    out[1] = word_of(k, job.cylinder);
    out[2] = word_of(k, job.axis);
    out[3] = word_of(k, job.thickness);
}

// ---- the calls

// Tests whether a book is one whose jobs have a text.
#[tactic(auto, using(words::proofs::Refusals::refusals), unfolding(crate::specs::Calls::lens_fault))]
fn check_lens(p: Params) -> Result<(), Refusal>
    ensures fault { fault_in result ≡ lens_fault p }
    ensures ok { OnOk result ((1 ≤ p.k) × (p.k ≤ 64)) }
{
    words::check_params(p)?;
    words::unless(p.d == 4, Refusal::Parameters)
}

// Tests four words in width: a list of another length is not read.
#[tactic(auto, using(words::proofs::Refusals::refusals), unfolding(crate::specs::Calls::words_fault))]
fn check_words(k: u64, job: &[u64]) -> Result<(), Refusal>
    ensures fault { fault_in result ≡ words_fault k job.now }
    ensures ok { OnOk result ((length job.now ≡ 4) × (all_in_width k job.now ≡ true)) }
{
    words::check_length(4, job.len())?;
    words::check_width(k, job)
}

// The length of a job's text, into an output of one word.
#[tactic(auto, using(words::proofs::Refusals::refusals), unfolding(crate::specs::Calls::size_fault, crate::specs::JobText::text_of))]
pub fn text_size(p: Params, number: u64, words: &[u64], size: &mut [u64]) -> Result<(), Refusal>
    ensures { (fault_in result ≡ size_fault p words.now (length size.old))
        × (size.new ≡ kept (size_fault p words.now (length size.old)) size.old
        (length (text_of p.k number words.now) ∷ [])) }
{
    check_lens(p)?;
    words::check_length(1, size.len())?;
    check_words(p.k, words)?;
    let mut room = [0u8; ROOM];
    let mut text = Text::new(&mut room);
    put_job(&mut text, lens_job(p.k, number, words));
    let n = text.len();
    size[0] = n as u64;
    Ok(())
}

// A job's text, into an output of its length.
#[tactic(auto, using(words::proofs::Refusals::refusals), unfolding(crate::specs::Calls::write_fault, crate::specs::JobText::text_of))]
pub fn write_text(p: Params, number: u64, words: &[u64], out: &mut [u8]) -> Result<(), Refusal>
    ensures { (fault_in result ≡ write_fault p number words.now (length out.old))
        × (out.new ≡ kept (write_fault p number words.now (length out.old)) out.old
        (text_of p.k number words.now)) }
{
    check_lens(p)?;
    check_words(p.k, words)?;
    let mut room = [0u8; ROOM];
    let mut text = Text::new(&mut room);
    put_job(&mut text, lens_job(p.k, number, words));
    let n = text.len();
    words::check_length(n, out.len())?;
    out.copy_from_slice(&room[..n]);
    Ok(())
}

// The number and the words whose text it is, into outputs of one word and of four.
#[tactic(auto, using(words::proofs::Refusals::refusals), unfolding(crate::specs::Calls::read_fault))]
pub fn read_text(
    p: Params,
    text: &[u8],
    number: &mut [u64],
    words: &mut [u64],
) -> Result<(), Refusal>
    ensures fault { fault_in result ≡ read_fault p text.now (length number.old) (length words.old) }
    ensures number { number.new
        ≡ kept (read_fault p text.now (length number.old) (length words.old)) number.old
        ((scanned text.now).number ∷ []) }
    ensures words { words.new
        ≡ kept (read_fault p text.now (length number.old) (length words.old)) words.old
        (words_of p.k (scanned text.now)) }
{
    check_lens(p)?;
    words::check_length(1, number.len())?;
    words::check_length(4, words.len())?;
    let job = scan(text);
    words::unless(is_text_of(p.k, text, job), Refusal::Text)?;
    number[0] = job.number;
    put_words(p.k, job, words);
    Ok(())
}
