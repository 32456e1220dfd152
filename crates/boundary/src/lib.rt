// The calls of the archive for programs in C and Rust, as include/yikescanvas.h declares them. Each gives the number of paper 01, 0 where it
// does not decline, and asks nothing of its caller but slices that are there: a call that declines leaves every output as it was.
#![tactic(auto)]

ghost use Rattle.std.specs.Prelude.{◌≡◌, [], ◌∷◌, ◌++◌, ◌-◌, length};
ghost use Rattle.words.specs.Faults.{signed_fault};
ghost use Rattle.words.specs.Refusal.{kept};
ghost use Rattle.words.specs.Signed.{signed_of, twos_complement};
ghost use Rattle.galois.specs.Element.{sum, product, lower, inverse};
ghost use Rattle.arithmetic.specs.Calls.{operand_fault, operands_fault};
ghost use Rattle.codewords.specs.Opening.{fault_of, secret_into, wrong_into, lowest_into};
ghost use Rattle.sharing.specs.Dealing.{deal_fault, dealt};
ghost use Rattle.sharing.specs.Opening.{lent, opening};
ghost use Rattle.bundle.specs.Bundle.{file_fault, bundle_fault, params_of};
ghost use Rattle.fetch.specs.Fetch.{file_of, body_fault, part_fault, part_of};
ghost use Rattle.describe.specs.Describe.{about_of, describe_fault, number_of, number_fault, file_part_of, file_part_fault, step_of, step_fault};
ghost use Rattle.writer.specs.Bytes.{file_bytes, order_bytes};
ghost use Rattle.writer.specs.Write.{file_for, file_write_fault, order_fault, bundle_write_fault};
ghost use Rattle.totals.specs.Total.{total_fault, total_words, add_total_fault, add_total_words};
ghost use Rattle.archive.specs.Archive.{shares_at, shares_over, open_place, open_run};
ghost use Rattle.listing.specs.Listing.{line_of, line_fault};
ghost use Rattle.decimal.specs.Decimal.{written};
ghost use Rattle.mending.specs.Mended.{mended, mend_fault};
ghost use Rattle.desk.specs.Lent.{lent_opening, record_into, lent_start_fault};
ghost use Rattle.labelled.specs.JobText.{text_of};
ghost use Rattle.labelled.specs.Reading.{scanned, words_of};
ghost use Rattle.labelled.specs.Calls.{size_fault, write_fault, read_fault};
ghost use Rattle.boundary.specs.Boundary.{params};

use words::Params;

// ---- elements and shares

// The sum of two elements.
#[unsafe(no_mangle)]
pub extern "C" fn yikes_add(
    k: u64,
    d: usize,
    n: usize,
    t: usize,
    a: &[u64],
    b: &[u64],
    out: &mut [u64],
) -> u8
    ensures { (result ≡ operands_fault (params k d n t) a.now b.now (length out.old))
        × (out.new ≡ kept (operands_fault (params k d n t) a.now b.now (length out.old))
        out.old (sum k a.now b.now)) }
{
    words::fault_number(arithmetic::add(Params { k, d, n, t }, a, b, out))
}

// The product of two elements: a share times an element is a share of the job times it.
#[unsafe(no_mangle)]
pub extern "C" fn yikes_scale(
    k: u64,
    d: usize,
    n: usize,
    t: usize,
    a: &[u64],
    b: &[u64],
    out: &mut [u64],
) -> u8
    ensures { (result ≡ operands_fault (params k d n t) a.now b.now (length out.old))
        × (out.new ≡ kept (operands_fault (params k d n t) a.now b.now (length out.old))
        out.old (product k (lower d) a.now b.now)) }
{
    words::fault_number(arithmetic::multiply(Params { k, d, n, t }, a, b, out))
}

// The inverse of an element, or zero where it has none.
#[unsafe(no_mangle)]
pub extern "C" fn yikes_invert(
    k: u64,
    d: usize,
    n: usize,
    t: usize,
    a: &[u64],
    out: &mut [u64],
) -> u8
    ensures { (result ≡ operand_fault (params k d n t) a.now (length out.old))
        × (out.new ≡ kept (operand_fault (params k d n t) a.now (length out.old))
        out.old (inverse k d a.now)) }
{
    words::fault_number(arithmetic::invert(Params { k, d, n, t }, a, out))
}

// A job dealt to n holders, with t coefficients that the caller draws at random.
#[unsafe(no_mangle)]
pub extern "C" fn yikes_deal(
    k: u64,
    d: usize,
    n: usize,
    t: usize,
    job: &[u64],
    coefficients: &[u64],
    out: &mut [u64],
) -> u8
    ensures { (result ≡ deal_fault (params k d n t) job.now coefficients.now (length out.old))
        × (out.new ≡ kept (deal_fault (params k d n t) job.now coefficients.now (length out.old))
        out.old (dealt (params k d n t) job.now coefficients.now)) }
{
    words::fault_number(sharing::deal(Params { k, d, n, t }, job, coefficients, out))
}

// A job opened from lent shares, with the set of the wrong holders as a second output of one word, and their positions as a third of 64 bytes.
#[unsafe(no_mangle)]
pub extern "C" fn yikes_open(
    k: u64,
    d: usize,
    n: usize,
    t: usize,
    holders: &[u64],
    shares: &[u64],
    e: u64,
    out: &mut [u64],
    wrong: &mut [u64],
    lowest: &mut [u8],
) -> u8
    ensures fault { result ≡ fault_of (opening (params k d n t) holders.now shares.now e (length out.old)
        (length wrong.old) (length lowest.old)) }
    ensures out { out.new ≡ secret_into out.old (opening (params k d n t) holders.now
        shares.now e (length out.old) (length wrong.old) (length lowest.old)) }
    ensures wrong { wrong.new ≡ wrong_into k d (lent d holders.now shares.now) wrong.old
        (opening (params k d n t) holders.now shares.now e (length out.old)
        (length wrong.old) (length lowest.old)) }
    ensures lowest { lowest.new ≡ lowest_into k d (lent d holders.now shares.now) lowest.old
        (opening (params k d n t) holders.now shares.now e (length out.old)
        (length wrong.old) (length lowest.old)) }
{
    words::fault_number(sharing::open_shares(
        Params { k, d, n, t },
        holders,
        shares,
        e,
        out,
        wrong,
        lowest,
    ))
}

// The signed reading of a word, in two's complement, into an output of one word.
#[unsafe(no_mangle)]
pub extern "C" fn yikes_signed(k: u64, w: u64, out: &mut [u64]) -> u8
    ensures { (result ≡ signed_fault k w (length out.old))
        × (out.new ≡ kept (signed_fault k w (length out.old)) out.old (twos_complement (signed_of k w) ∷ [])) }
{
    words::fault_number(words::signed_into(k, w, out))
}

// ---- files

// Writes a holder's file: a number and d words for each job.
#[unsafe(no_mangle)]
pub extern "C" fn yikes_write_file(
    k: u64,
    d: usize,
    n: usize,
    t: usize,
    holder: usize,
    archive: u64,
    numbers: &[u64],
    words: &[u64],
    out: &mut [u8],
) -> u8
    ensures { (result ≡ file_write_fault (params k d n t) holder archive numbers.now words.now out.old)
        × (out.new ≡ kept (file_write_fault (params k d n t) holder archive numbers.now words.now out.old)
        out.old (file_bytes (file_for (params k d n t) holder archive numbers.now words.now))) }
{
    let params = Params { k, d, n, t };
    words::fault_number(writer::write_file(params, holder, archive, numbers, words, out))
}

// Writes an order.
#[unsafe(no_mangle)]
pub extern "C" fn yikes_write_order(e: u8, out: &mut [u8]) -> u8
    ensures { (result ≡ order_fault (length out.old))
        × (out.new ≡ kept (order_fault (length out.old)) out.old (order_bytes e)) }
{
    words::fault_number(writer::write_order(e, out))
}

// Writes a bundle: an order, and the files as they stand in one lent slice.
#[unsafe(no_mangle)]
pub extern "C" fn yikes_write_bundle(e: u8, files: &[u8], out: &mut [u8]) -> u8
    ensures { (result ≡ bundle_write_fault e files.now (length out.old))
        × (out.new ≡ kept (bundle_write_fault e files.now (length out.old)) out.old
        (order_bytes e ++ files.now)) }
{
    words::fault_number(writer::write_bundle(e, files, out))
}

// The first fault of a file by itself, or 0 where it is accepted.
#[unsafe(no_mangle)]
pub extern "C" fn yikes_check_file(file: &[u8]) -> u8
    ensures { result ≡ file_fault file.now }
{
    words::fault_number(bundle::check_file(file))
}

// What stands at a cursor, a record or the end, its kind, and its body as offset and length: an output of four words.
#[unsafe(no_mangle)]
pub extern "C" fn yikes_read(bytes: &[u8], cursor: usize, step: &mut [u64]) -> u8
    ensures { (result ≡ step_fault bytes.now cursor (length step.old))
        × (step.new ≡ kept (step_fault bytes.now cursor (length step.old)) step.old
        (step_of bytes.now cursor)) }
{
    words::fault_number(describe::read_step(bytes, cursor, step))
}

// ---- bundles

// The first fault of a bundle, or 0 where it is accepted.
#[unsafe(no_mangle)]
pub extern "C" fn yikes_accept(bytes: &[u8]) -> u8
    ensures { result ≡ bundle_fault bytes.now }
{
    words::fault_number(bundle::check_bundle(bytes))
}

// Allowance, parameters, archive number, jobs, files and the bytes of a file: an output of nine words.
#[unsafe(no_mangle)]
pub extern "C" fn yikes_describe(bytes: &[u8], about: &mut [u64]) -> u8
    ensures { (result ≡ describe_fault bytes.now (length about.old))
        × (about.new ≡ kept (describe_fault bytes.now (length about.old)) about.old
        (about_of bytes.now)) }
{
    words::fault_number(describe::describe(bytes, about))
}

// The number of the job at a place: an output of one word.
#[unsafe(no_mangle)]
pub extern "C" fn yikes_job_number(bytes: &[u8], place: usize, number: &mut [u64]) -> u8
    ensures { (result ≡ number_fault bytes.now place (length number.old))
        × (number.new ≡ kept (number_fault bytes.now place (length number.old)) number.old
        (number_of bytes.now place)) }
{
    words::fault_number(describe::job_number(bytes, place, number))
}

// The holder of a file, and the file as its offset in the bundle and its length: an output of three words.
#[unsafe(no_mangle)]
pub extern "C" fn yikes_file(bytes: &[u8], index: usize, part: &mut [u64]) -> u8
    ensures { (result ≡ file_part_fault bytes.now index (length part.old))
        × (part.new ≡ kept (file_part_fault bytes.now index (length part.old)) part.old
        (file_part_of bytes.now index)) }
{
    words::fault_number(describe::file_part(bytes, index, part))
}

// Opens the job at a place, with the set of the wrong holders as a second output of one word, and their positions as a third of 64 bytes.
#[unsafe(no_mangle)]
pub extern "C" fn yikes_open_place(
    bytes: &[u8],
    place: usize,
    out: &mut [u64],
    wrong: &mut [u64],
    lowest: &mut [u8],
) -> u8
    ensures fault { result ≡ fault_of (open_place bytes.now place (length out.old) (length wrong.old)
        (length lowest.old)) }
    ensures out { out.new ≡ secret_into out.old (open_place bytes.now place (length out.old)
        (length wrong.old) (length lowest.old)) }
    ensures wrong { wrong.new ≡ wrong_into (params_of bytes.now).k (params_of bytes.now).d
        (shares_at bytes.now place) wrong.old (open_place bytes.now place (length out.old)
        (length wrong.old) (length lowest.old)) }
    ensures lowest { lowest.new ≡ lowest_into (params_of bytes.now).k (params_of bytes.now).d
        (shares_at bytes.now place) lowest.old (open_place bytes.now place (length out.old)
        (length wrong.old) (length lowest.old)) }
{
    words::fault_number(archive::open_place(bytes, place, out, wrong, lowest))
}

// Opens the sum of the jobs at the places a to b - 1, in the same way.
#[unsafe(no_mangle)]
pub extern "C" fn yikes_open_run(
    bytes: &[u8],
    a: usize,
    b: usize,
    out: &mut [u64],
    wrong: &mut [u64],
    lowest: &mut [u8],
) -> u8
    ensures fault { result ≡ fault_of (open_run bytes.now a b (length out.old) (length wrong.old)
        (length lowest.old)) }
    ensures out { out.new ≡ secret_into out.old (open_run bytes.now a b (length out.old)
        (length wrong.old) (length lowest.old)) }
    ensures wrong { wrong.new ≡ wrong_into (params_of bytes.now).k (params_of bytes.now).d
        (shares_over bytes.now a (b - a)) wrong.old (open_run bytes.now a b (length out.old)
        (length wrong.old) (length lowest.old)) }
    ensures lowest { lowest.new ≡ lowest_into (params_of bytes.now).k (params_of bytes.now).d
        (shares_over bytes.now a (b - a)) lowest.old (open_run bytes.now a b (length out.old)
        (length wrong.old) (length lowest.old)) }
{
    words::fault_number(archive::open_run(bytes, a, b, out, wrong, lowest))
}

// The total of a holder's file over the places a to b - 1.
#[unsafe(no_mangle)]
pub extern "C" fn yikes_total(
    bytes: &[u8],
    holder: usize,
    a: usize,
    b: usize,
    out: &mut [u64],
) -> u8
    ensures { (result ≡ total_fault bytes.now holder a b (length out.old))
        × (out.new ≡ total_words bytes.now holder a b out.old) }
{
    words::fault_number(totals::total(bytes, holder, a, b, out))
}

// The same total, added to the lent element word by word: an element of d words in width.
#[unsafe(no_mangle)]
pub extern "C" fn yikes_add_total(
    bytes: &[u8],
    holder: usize,
    a: usize,
    b: usize,
    running: &mut [u64],
) -> u8
    ensures { (result ≡ add_total_fault bytes.now holder a b running.old)
        × (running.new ≡ add_total_words bytes.now holder a b running.old) }
{
    words::fault_number(totals::add_total(bytes, holder, a, b, running))
}

// A job's body by holder and place, as its offset in the bundle and its length: an output of two words.
#[unsafe(no_mangle)]
pub extern "C" fn yikes_fetch_body(
    bytes: &[u8],
    holder: usize,
    place: usize,
    part: &mut [u64],
) -> u8
    ensures { (result ≡ part_fault bytes.now holder place (length part.old))
        × (part.new ≡ kept (part_fault bytes.now holder place (length part.old)) part.old
        (part_of bytes.now (file_of bytes.now holder) place)) }
{
    words::fault_number(fetch::fetch_part(bytes, holder, place, part))
}

// The number of the same fetch alone, 0 where it succeeds.
#[unsafe(no_mangle)]
pub extern "C" fn yikes_fetch_fault(bytes: &[u8], holder: usize, place: usize) -> u8
    ensures { result ≡ body_fault bytes.now holder place }
{
    words::fault_number(fetch::body(bytes, holder, place))
}

// One line of the listing, and its length as a second output of one word.
#[unsafe(no_mangle)]
pub extern "C" fn yikes_list_line(
    bytes: &[u8],
    place: usize,
    line: &mut [u8],
    size: &mut [u64],
) -> u8
    ensures fault { result ≡ line_fault bytes.now place (length line.old) (length size.old) }
    ensures line { line.new
        ≡ kept (line_fault bytes.now place (length line.old) (length size.old)) line.old
        (written 0 (line_of bytes.now place) line.old) }
    ensures size { size.new
        ≡ kept (line_fault bytes.now place (length line.old) (length size.old)) size.old
        (length (line_of bytes.now place) ∷ []) }
{
    words::fault_number(listing::list_line(bytes, place, line, size))
}

// A bundle mended: each wrong share replaced by its polynomial's value, all else as it is, into an output of the bundle's length.
#[unsafe(no_mangle)]
pub extern "C" fn yikes_mend(bytes: &[u8], out: &mut [u8]) -> u8
    ensures { (result ≡ mend_fault bytes.now (length out.old))
        × (out.new ≡ kept (mend_fault bytes.now (length out.old)) out.old (mended bytes.now)) }
{
    words::fault_number(mending::mend(bytes, out))
}

// ---- a desk that limits openings

// A month begins: the allowance q, 0 to 1,000, and a count of zero go to the record, two words.
#[unsafe(no_mangle)]
pub extern "C" fn yikes_desk_start(desk: &mut [u64], q: u64) -> u8
    ensures { (result ≡ lent_start_fault desk.old q)
        × (desk.new ≡ kept (lent_start_fault desk.old q) desk.old (q ∷ 0 ∷ [])) }
{
    words::fault_number(desk::start_lent(desk, q))
}

// Opens the job at a place as `yikes_open_place` does, where the record's count is below its allowance; one that gives words is counted.
#[unsafe(no_mangle)]
pub extern "C" fn yikes_desk_open(
    desk: &mut [u64],
    bytes: &[u8],
    place: usize,
    out: &mut [u64],
    wrong: &mut [u64],
    lowest: &mut [u8],
) -> u8
    ensures fault { result ≡ fault_of (lent_opening desk.old bytes.now place (length out.old)
        (length wrong.old) (length lowest.old)) }
    ensures desk { desk.new ≡ record_into desk.old (lent_opening desk.old bytes.now place
        (length out.old) (length wrong.old) (length lowest.old)) }
    ensures out { out.new ≡ secret_into out.old (lent_opening desk.old bytes.now place
        (length out.old) (length wrong.old) (length lowest.old)) }
    ensures wrong { wrong.new ≡ wrong_into (params_of bytes.now).k (params_of bytes.now).d
        (shares_at bytes.now place) wrong.old (lent_opening desk.old bytes.now place
        (length out.old) (length wrong.old) (length lowest.old)) }
    ensures lowest { lowest.new ≡ lowest_into (params_of bytes.now).k (params_of bytes.now).d
        (shares_at bytes.now place) lowest.old (lent_opening desk.old bytes.now place
        (length out.old) (length wrong.old) (length lowest.old)) }
{
    words::fault_number(desk::open_lent(desk, bytes, place, out, wrong, lowest))
}

// ---- job text

// The length of a job's text, into an output of one word.
#[unsafe(no_mangle)]
pub extern "C" fn yikes_text_size(
    k: u64,
    d: usize,
    n: usize,
    t: usize,
    number: u64,
    words: &[u64],
    size: &mut [u64],
) -> u8
    ensures { (result ≡ size_fault (params k d n t) words.now (length size.old))
        × (size.new ≡ kept (size_fault (params k d n t) words.now (length size.old)) size.old
        (length (text_of k number words.now) ∷ [])) }
{
    words::fault_number(labelled::text_size(Params { k, d, n, t }, number, words, size))
}

// A job's text, into an output of its length.
#[unsafe(no_mangle)]
pub extern "C" fn yikes_write_text(
    k: u64,
    d: usize,
    n: usize,
    t: usize,
    number: u64,
    words: &[u64],
    out: &mut [u8],
) -> u8
    ensures { (result ≡ write_fault (params k d n t) number words.now (length out.old))
        × (out.new ≡ kept (write_fault (params k d n t) number words.now (length out.old)) out.old
        (text_of k number words.now)) }
{
    words::fault_number(labelled::write_text(Params { k, d, n, t }, number, words, out))
}

// The number and the words whose text it is, into outputs of one word and of four.
#[unsafe(no_mangle)]
pub extern "C" fn yikes_read_text(
    k: u64,
    d: usize,
    n: usize,
    t: usize,
    text: &[u8],
    number: &mut [u64],
    words: &mut [u64],
) -> u8
    ensures fault { result ≡ read_fault (params k d n t) text.now (length number.old) (length words.old) }
    ensures number { number.new
        ≡ kept (read_fault (params k d n t) text.now (length number.old) (length words.old)) number.old
        ((scanned text.now).number ∷ []) }
    ensures words { words.new
        ≡ kept (read_fault (params k d n t) text.now (length number.old) (length words.old)) words.old
        (words_of k (scanned text.now)) }
{
    words::fault_number(labelled::read_text(Params { k, d, n, t }, text, number, words))
}
