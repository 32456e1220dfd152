// Records of lent bytes: little-endian numbers, a cursor that moves on by one record, a heading, and the sizes of records.
#![tactic(auto)]

ghost use Rattle.std.specs.Prelude.{◌≡◌, ◌+◌, ◌≤◌, ◌<◌, true, length, get_or};
ghost use Rattle.words.specs.Refusal.{fault_in};
ghost use Rattle.records.specs.Num.{le_at};
ghost use Rattle.records.specs.Layout.{head_size, word_size, job_len, file_size, job_len_known, known};
ghost use Rattle.records.specs.Record.{framed, read_at, cursor_fault, heading_of};

use words::{Params, Refusal};

// Kinds of records.
pub const HEADING_KIND: u64 = 1;

pub const JOB_KIND: u64 = 2;

pub const ORDER_KIND: u64 = 16;

// Bytes of a record's length and of its kind: its body stands after both.
pub const LENGTH_SIZE: usize = 4;

pub const KIND_SIZE: usize = 2;

pub const PREFIX_SIZE: usize = 6;

// Lengths of records, which count kind and body; a job's is this and its words.
pub const HEADING_LENGTH: usize = 19;

pub const ORDER_LENGTH: usize = 3;

pub const JOB_LENGTH: usize = 10;

// Bytes of a job number and of a word.
pub const NUMBER_SIZE: usize = 8;

pub const WORD_SIZE: usize = 8;

// Bytes of an order, after which the first file of a bundle stands.
pub const ORDER_SIZE: usize = 7;

// A position in lent bytes.
#[derive(Clone, Copy)]
pub struct Cursor {
    pub at: usize,
}

// A record that was read: its body is len bytes from start, and next is past it.
#[derive(Clone, Copy)]
pub struct RawRecord {
    pub kind: u64,
    pub start: usize,
    pub len: usize,
    pub next: Cursor,
}

// What a heading says.
#[derive(Clone, Copy)]
pub struct Heading {
    pub params: Params,
    pub holder: usize,
    pub archive: u64,
    pub jobs: usize,
}

// The number in the w bytes from position at, lowest first.
pub fn number(bytes: &[u8], at: usize, w: usize) -> u64
    requires { (w ≤ 8) × (at + w ≤ length bytes.now) }
    ensures { result ≡ le_at w bytes.now at }
{
    let mut x: u64 = 0;
    for i in (0..w).rev() {
        x = u64::from(bytes[at + i]) + 256 * x;
    }
    x
}

// The byte at a position.
fn byte_at(bytes: &[u8], at: usize) -> u64
    requires { at < length bytes.now }
    ensures { result ≡ get_or bytes.now at 0 }
{
    u64::from(bytes[at])
}

// The number in the two bytes from a position.
fn pair_at(bytes: &[u8], at: usize) -> u64
    requires { at + 2 ≤ length bytes.now }
    ensures { result ≡ le_at 2 bytes.now at }
{
    u64::from(bytes[at]) + 256 * u64::from(bytes[at + 1])
}

// The number in the four bytes from a position: written out so that the compiler makes one load of it (speed).
fn half_at(bytes: &[u8], at: usize) -> u64
    requires { at + 4 ≤ length bytes.now }
    ensures { result ≡ le_at 4 bytes.now at }
{
    u64::from(bytes[at])
        + 256 * u64::from(bytes[at + 1])
        + 65536 * u64::from(bytes[at + 2])
        + 16777216 * u64::from(bytes[at + 3])
}

// The word in the eight bytes from a position.
pub fn word_at(bytes: &[u8], at: usize) -> u64
    requires { at + 8 ≤ length bytes.now }
    ensures { result ≡ le_at 8 bytes.now at }
{
    half_at(bytes, at) + 4294967296 * half_at(bytes, at + 4)
}

// A length that a job record has with some parameters.
fn known_job_length(len: usize) -> bool
    ensures { result ≡ job_len_known len }
{
    if len < JOB_LENGTH {
        return false;
    }
    let size = len - JOB_LENGTH;
    if size % WORD_SIZE != 0 {
        return false;
    }
    let d = size / WORD_SIZE;
    if d < 2 {
        return false;
    }
    d <= 6
}

// A kind, and a length that it has with some parameters.
#[tactic(auto, unfolding(crate::specs::Layout::known))]
fn known_length(kind: u64, len: usize) -> bool
    ensures { result ≡ known kind len }
{
    match kind {
        HEADING_KIND => len == HEADING_LENGTH,
        JOB_KIND => known_job_length(len),
        ORDER_KIND => len == ORDER_LENGTH,
        _ => false,
    }
}

impl Cursor {
    pub fn new() -> Self
        ensures { result.at ≡ 0 }
    {
        Cursor { at: 0 }
    }

    // Reads the record at the cursor, and looks at nothing else: none at the end.
    pub fn read(self, bytes: &[u8]) -> Result<Option<RawRecord>, Refusal>
        ensures { (result ≡ read_at bytes.now self.at) × (fault_in result ≡ cursor_fault bytes.now self.at) }
    {
        let at = self.at;
        if at == bytes.len() {
            return Ok(None);
        }
        words::unless(at <= bytes.len(), Refusal::Malformed)?;
        words::unless(PREFIX_SIZE <= bytes.len() - at, Refusal::Malformed)?;
        let len = number(bytes, at, LENGTH_SIZE) as usize;
        let kind = number(bytes, at + LENGTH_SIZE, KIND_SIZE);
        words::unless(known_length(kind, len), Refusal::Malformed)?;
        words::unless(len <= bytes.len() - at - LENGTH_SIZE, Refusal::Malformed)?;
        Ok(Some(RawRecord {
            kind,
            start: at + PREFIX_SIZE,
            len: len - KIND_SIZE,
            next: Cursor {
                at: at + (LENGTH_SIZE + len),
            },
        }))
    }
}

// Whether a whole record of one known kind and length stands at a position.
#[tactic(auto, unfolding(crate::specs::Record::framed, crate::specs::Layout::record_size, crate::specs::Record::len_at, crate::specs::Record::kind_at))]
pub fn is_record(bytes: &[u8], at: usize, kind: u64, len: usize) -> bool
    requires { known kind len ≡ true }
    ensures { result ≡ framed bytes.now kind len at }
{
    let size = LENGTH_SIZE + len;
    if bytes.len() < size {
        return false;
    }
    if bytes.len() - size < at {
        return false;
    }
    if half_at(bytes, at) != len as u64 {
        return false;
    }
    pair_at(bytes, at + LENGTH_SIZE) == kind
}

// The heading whose record is at a position.
#[tactic(auto, unfolding(crate::specs::Record::heading_of, crate::specs::Layout::record_size, crate::specs::Layout::head_len))]
pub fn heading_at(bytes: &[u8], at: usize) -> Heading
    requires { at + head_size (heading_of bytes.now at) ≤ length bytes.now }
    ensures { result ≡ heading_of bytes.now at }
{
    let body = at + PREFIX_SIZE;
    let params = Params {
        k: byte_at(bytes, body),
        d: byte_at(bytes, body + 1) as usize,
        n: byte_at(bytes, body + 2) as usize,
        t: byte_at(bytes, body + 3) as usize,
    };
    Heading {
        params,
        holder: byte_at(bytes, body + 4) as usize,
        archive: word_at(bytes, body + 5),
        jobs: half_at(bytes, body + 5 + NUMBER_SIZE) as usize,
    }
}

// The bytes of a heading's record.
#[tactic(auto, unfolding(crate::specs::Layout::record_size, crate::specs::Layout::head_len))]
pub fn head_size(h: Heading) -> usize
    ensures { result ≡ head_size h }
{
    LENGTH_SIZE + HEADING_LENGTH
}

// The bytes of a word in a job record.
#[tactic(auto, unfolding(crate::specs::Layout::word_size))]
fn word_size(h: Heading) -> usize
    ensures { result ≡ word_size h }
{
    WORD_SIZE
}

// The length of a job record.
#[tactic(auto, unfolding(crate::specs::Layout::job_len_of, crate::specs::Layout::word_size))]
pub fn job_length(h: Heading) -> usize
    requires { h.params.d ≤ 6 }
    ensures { result ≡ job_len h }
{
    let d = h.params.d;
    JOB_LENGTH + word_size(h) * d
}

// The bytes of a file.
#[tactic(auto, unfolding(crate::specs::Layout::file_size, crate::specs::Layout::record_size, crate::specs::Layout::job_len_of, crate::specs::Layout::word_size))]
pub fn file_size(h: Heading) -> usize
    requires { (h.params.d ≤ 6) × (h.jobs ≤ 1000) }
    ensures { result ≡ file_size h }
{
    head_size(h) + h.jobs * (LENGTH_SIZE + job_length(h))
}
