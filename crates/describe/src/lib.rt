// What a caller must know of a bundle, told in words: the bundle at large, a job's number, a file's part of the bytes, and a read by a cursor.
#![tactic(auto)]

ghost use Rattle.std.specs.Prelude.{◌≡◌, ◌<◌, length, OnOk};
ghost use Rattle.std.specs.declared.result.Result.TheVariants.{Ok};
ghost use Rattle.words.specs.Refusal.{fault_in, kept};
ghost use Rattle.describe.specs.Describe.{about_of, describe_fault, number_of, number_fault, file_part_of, index_fault, file_part_fault};
ghost use Rattle.describe.specs.Describe.{step_by, step_of, step_fault};

use records::{Cursor, RawRecord};
use words::Refusal;

// What a step is: a record, or the end.
const RECORD: u64 = 0;

const END: u64 = 1;

// Allowance, parameters, archive number, jobs, files and the bytes of a file: an output of nine words.
#[tactic(auto, using(words::proofs::Refusals::refusals), unfolding(crate::specs::Describe::describe_fault))]
pub fn describe(bytes: &[u8], about: &mut [u64]) -> Result<(), Refusal>
    ensures { (fault_in result ≡ describe_fault bytes.now (length about.old))
        × (about.new ≡ kept (describe_fault bytes.now (length about.old)) about.old
        (about_of bytes.now)) }
{
    let bundle = bundle::accept(bytes)?;
    words::check_length(9, about.len())?;
    let h = bundle.heading;
    about.copy_from_slice(&[
        bundle.allowance(),
        h.params.k,
        h.params.d as u64,
        h.params.n as u64,
        h.params.t as u64,
        h.archive,
        h.jobs as u64,
        bundle.files as u64,
        records::file_size(h) as u64,
    ]);
    Ok(())
}

// The number of the job at a place: an output of one word.
#[tactic(auto, using(words::proofs::Refusals::refusals), unfolding(crate::specs::Describe::number_fault))]
pub fn job_number(bytes: &[u8], place: usize, number: &mut [u64]) -> Result<(), Refusal>
    ensures { (fault_in result ≡ number_fault bytes.now place (length number.old))
        × (number.new ≡ kept (number_fault bytes.now place (length number.old)) number.old
        (number_of bytes.now place)) }
{
    let bundle = bundle::accept(bytes)?;
    words::check_length(1, number.len())?;
    fetch::check_place(bundle.heading, place)?;
    number[0] = fetch::job_number(&bundle, place);
    Ok(())
}

// Tests an index among so many files.
#[tactic(auto, unfolding(crate::specs::Describe::index_fault))]
fn check_index(files: usize, index: usize) -> Result<(), Refusal>
    ensures fault { fault_in result ≡ index_fault files index }
    ensures ok { OnOk result (index < files) }
{
    words::unless(index < files, Refusal::OutOfRange)
}

// The holder of a file, and the file as its offset and its length: an output of three words.
#[tactic(auto, using(words::proofs::Refusals::refusals), unfolding(crate::specs::Describe::file_part_fault))]
pub fn file_part(bytes: &[u8], index: usize, part: &mut [u64]) -> Result<(), Refusal>
    ensures { (fault_in result ≡ file_part_fault bytes.now index (length part.old))
        × (part.new ≡ kept (file_part_fault bytes.now index (length part.old)) part.old
        (file_part_of bytes.now index)) }
{
    let bundle = bundle::accept(bytes)?;
    words::check_length(3, part.len())?;
    check_index(bundle.files, index)?;
    part.copy_from_slice(&[
        fetch::file_holder(&bundle, index) as u64,
        fetch::file_at(bundle.heading, index) as u64,
        records::file_size(bundle.heading) as u64,
    ]);
    Ok(())
}

// A record, or the end, at a cursor: its kind, and its body as offset and length.
fn read_words(cursor: usize, read: Option<RawRecord>) -> [u64; 4]
    ensures { result ≡ step_by cursor (Ok read) }
{
    match read {
        Some(record) => [RECORD, record.kind, record.start as u64, record.len as u64],
        None => [END, 0, cursor as u64, 0],
    }
}

// What stands at a cursor, a record or the end, its kind, and its body as offset and length: an output of four words.
#[tactic(auto, using(words::proofs::Refusals::refusals), unfolding(crate::specs::Describe::step_fault))]
pub fn read_step(bytes: &[u8], cursor: usize, step: &mut [u64]) -> Result<(), Refusal>
    ensures { (fault_in result ≡ step_fault bytes.now cursor (length step.old))
        × (step.new ≡ kept (step_fault bytes.now cursor (length step.old)) step.old
        (step_of bytes.now cursor)) }
{
    words::check_length(4, step.len())?;
    let here = Cursor { at: cursor };
    let read = here.read(bytes)?;
    step.copy_from_slice(&read_words(cursor, read));
    Ok(())
}
