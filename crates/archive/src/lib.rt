// Opening the job at a place of a bundle, or the sum of a run of them. Each call first reads the whole bundle.
#![tactic(auto)]

ghost use Rattle.std.specs.Prelude.{◌≡◌, true, ◌++◌, ◌-◌, ◌≤◌, ◌<◌, length, drop, replicate, OnOk, IfOk};
ghost use Rattle.words.specs.Refusal.{fault_in};
ghost use Rattle.words.specs.Word.{in_width};
ghost use Rattle.galois.specs.Element.{held};
ghost use Rattle.polynomial.specs.Rows.{Shaped};
ghost use Rattle.codewords.specs.Opening.{lowest_room, fault_of, secret_into, wrong_of, wrong_into, lowest_into, opening_in};
ghost use Rattle.codewords.specs.WellFormed.{InWidth};
ghost use Rattle.level.specs.Shares.{shares_of, Sized};
ghost use Rattle.bundle.specs.Bundle.{bundle_heading, params_of, holder_of};
ghost use Rattle.bundle.specs.Contents.{words_of};
ghost use Rattle.fetch.specs.Fetch.{place_fault};
ghost use Rattle.totals.specs.Total.{run_total};
ghost use Rattle.totals.specs.Values.{values_from};
ghost use Rattle.archive.specs.Archive.{shares_at, shares_over, files_in_width, place_opening, run_opening};
ghost use Rattle.archive.specs.Archive.{outputs_fault, opening_fault, open_place, open_run};
ghost use Rattle.decoder.specs.Decoded.{wrong_in};
ghost use Rattle.archive.specs.Loaded.{holders_in, shares_in, opening_of, place_in_width};

use bundle::Bundle;
use records::Heading;
use words::Refusal;

// The holders of all files.
pub fn load_holders(bundle: &Bundle) -> [u64; 63]
    ensures { result ≡ holders_in bundle.now.bytes.now }
{
    let mut holders = [0u64; 63];
    for f in 0..bundle.files {
        holders[f] = fetch::file_holder(bundle, f) as u64;
    }
    holders
}

// The words of the job at a place in each file, as they stand, into the lent rows; all of them together, bit by bit.
fn load_place(bundle: &Bundle, place: usize, shares: &mut [[u64; 6]; 63]) -> u64
    requires { (place < bundle.now.heading.jobs) × (length shares.old ≡ 63) }
    ensures { (in_width bundle.now.heading.params.k result ≡ place_in_width bundle.now.bytes.now place)
        × (shares.new
        ≡ values_from (λ f. held bundle.now.heading.params.d (words_of bundle.now.bytes.now f place)) 0 bundle.now.files
        ++ drop bundle.now.files shares.old) }
{
    let mut seen: u64 = 0;
    for f in 0..bundle.files {
        let w = fetch::job_words(bundle, f, place);
        seen |= w[0] | (w[1] | (w[2] | (w[3] | (w[4] | w[5]))));
        shares[f] = w;
    }
    seen
}

// The total of each file over the places a to b - 1, into the lent rows; all their words together, bit by bit.
fn load_run(bundle: &Bundle, a: usize, b: usize, shares: &mut [[u64; 6]; 63]) -> u64
    requires { (a ≤ b) × (b ≤ bundle.now.heading.jobs) × (length shares.old ≡ 63) }
    ensures { (in_width bundle.now.heading.params.k result ≡ files_in_width bundle.now.bytes.now a (b - a))
        × (shares.new
        ≡ values_from (λ f. held bundle.now.heading.params.d (run_total bundle.now.bytes.now f a (b - a))) 0 bundle.now.files
        ++ drop bundle.now.files shares.old) }
{
    let mut seen: u64 = 0;
    for f in 0..bundle.files {
        shares[f] = [0u64; 6];
        seen |= totals::add_run(bundle, f, a, b, &mut shares[f]);
    }
    seen
}

// The shares in the rows, one of each file, opened under the files' holders with the bundle's error bound; `narrow` tells that no word is wide.
fn decode_files(
    bundle: &Bundle,
    narrow: bool,
    holders: &[u64; 63],
    shares: &[[u64; 6]; 63],
    rows: &mut [[u64; 6]; 64],
) -> Result<u64, Refusal>
    requires { (holders.now ≡ holders_in bundle.now.bytes.now)
        × Sized bundle.now.heading.params.d (shares_in bundle.now.bytes.now shares.now)
        × (narrow ≡ true → InWidth bundle.now.heading.params.k bundle.now.heading.params.d (shares_in bundle.now.bytes.now shares.now))
        × (length shares.now ≡ 63) × Shaped rows.old }
    ensures opening { opening_in bundle.now.heading.params.d bundle.now.heading.params.t (fault_in result) rows.new
        ≡ opening_of bundle.now.bytes.now shares.now }
    ensures wrong { wrong_in result
        ≡ wrong_of bundle.now.heading.params.k bundle.now.heading.params.d (shares_in bundle.now.bytes.now shares.now)
        (opening_of bundle.now.bytes.now shares.now) }
    ensures shaped { Shaped rows.new }
{
    let e = bundle.allowance();
    decoder::decode(
        bundle.heading.params,
        bundle.files,
        holders,
        shares,
        narrow,
        e,
        rows,
    )
}

// What the job at a place of a bundle opens to: the wrong holders, or why it does not; the polynomial in the lent rows, and the shares, which
// stand under the files' holders, in theirs.
pub fn place_opening(
    bundle: &Bundle,
    place: usize,
    holders: &[u64; 63],
    shares: &mut [[u64; 6]; 63],
    rows: &mut [[u64; 6]; 64],
) -> Result<u64, Refusal>
    requires { (place < bundle.now.heading.jobs) × (holders.now ≡ holders_in bundle.now.bytes.now) × (length shares.old ≡ 63) × Shaped rows.old }
    ensures opening { opening_in bundle.now.heading.params.d bundle.now.heading.params.t (fault_in result) rows.new
        ≡ place_opening bundle.now.bytes.now place }
    ensures wrong { wrong_in result
        ≡ wrong_of bundle.now.heading.params.k bundle.now.heading.params.d (shares_at bundle.now.bytes.now place)
        (place_opening bundle.now.bytes.now place) }
    ensures shares { shares_of bundle.now.heading.params.d bundle.now.files holders.now shares.new
        ≡ shares_at bundle.now.bytes.now place }
    ensures shaped { Shaped rows.new }
{
    let seen = load_place(bundle, place, shares);
    let narrow = words::in_width(bundle.heading.params.k, seen);
    decode_files(bundle, narrow, holders, shares, rows)
}

// What the places a to b - 1 open to, their shares added in each file: not at all where a word of any of them is wide.
fn run_opening(
    bundle: &Bundle,
    a: usize,
    b: usize,
    holders: &[u64; 63],
    shares: &mut [[u64; 6]; 63],
    rows: &mut [[u64; 6]; 64],
) -> Result<u64, Refusal>
    requires { (a ≤ b) × (b ≤ bundle.now.heading.jobs)
        × (holders.now ≡ holders_in bundle.now.bytes.now) × (length shares.old ≡ 63) × Shaped rows.old }
    ensures opening { opening_in bundle.now.heading.params.d bundle.now.heading.params.t (fault_in result) rows.new
        ≡ run_opening bundle.now.bytes.now a (b - a) }
    ensures wrong { wrong_in result
        ≡ wrong_of bundle.now.heading.params.k bundle.now.heading.params.d (shares_over bundle.now.bytes.now a (b - a))
        (run_opening bundle.now.bytes.now a (b - a)) }
    ensures shares { shares_of bundle.now.heading.params.d bundle.now.files holders.now shares.new
        ≡ shares_over bundle.now.bytes.now a (b - a) }
    ensures shaped { Shaped rows.new }
{
    let seen = load_run(bundle, a, b, shares);
    words::unless(
        words::in_width(bundle.heading.params.k, seen),
        Refusal::WideWord,
    )?;
    decode_files(bundle, true, holders, shares, rows)
}

// Tests the outputs of an opening, of n and of w words and of l bytes.
#[tactic(auto, using(words::proofs::Refusals::refusals), unfolding(crate::specs::Archive::outputs_fault))]
fn check_outputs(h: Heading, n: usize, w: usize, l: usize) -> Result<(), Refusal>
    ensures fault { fault_in result ≡ outputs_fault h.params.d n w l }
    ensures ok { OnOk result ((n ≡ h.params.d) × (w ≡ 1) × (l ≡ lowest_room)) }
{
    words::check_length(h.params.d, n)?;
    words::check_length(1, w)?;
    words::check_length(64, l)
}

// The bundle, where nothing is refused ahead of opening the job at a place, for outputs of n and of w words and of l bytes.
#[tactic(auto, using(words::proofs::Refusals::refusals), unfolding(crate::specs::Archive::opening_fault))]
pub fn accept_place(
    bytes: &[u8],
    place: usize,
    n: usize,
    w: usize,
    l: usize,
) -> Result<Bundle, Refusal>
    ensures fault { fault_in result ≡ opening_fault bytes.now n w l (place_fault (bundle_heading bytes.now) place) }
    ensures bundle { IfOk result (λ b. (b.bytes.now ≡ bytes.now) × (place < b.heading.jobs) × (n ≡ b.heading.params.d)
        × (w ≡ 1) × (l ≡ lowest_room)) }
{
    let bundle = bundle::accept(bytes)?;
    check_outputs(bundle.heading, n, w, l)?;
    fetch::check_place(bundle.heading, place)?;
    Ok(bundle)
}

// Opens the job at a place where nothing is refused ahead of that, into the three outputs of `open_place`.
pub fn open_accepted(
    bundle: &Bundle,
    place: usize,
    out: &mut [u64],
    wrong: &mut [u64],
    lowest: &mut [u8],
) -> Result<(), Refusal>
    requires { (place < bundle.now.heading.jobs) × (length out.old ≡ bundle.now.heading.params.d) × (length wrong.old ≡ 1)
        × (length lowest.old ≡ lowest_room) }
    ensures fault { fault_in result ≡ fault_of (place_opening bundle.now.bytes.now place) }
    ensures out { out.new ≡ secret_into out.old (place_opening bundle.now.bytes.now place) }
    ensures wrong { wrong.new ≡ wrong_into (params_of bundle.now.bytes.now).k (params_of bundle.now.bytes.now).d
        (shares_at bundle.now.bytes.now place) wrong.old (place_opening bundle.now.bytes.now place) }
    ensures lowest { lowest.new ≡ lowest_into (params_of bundle.now.bytes.now).k (params_of bundle.now.bytes.now).d
        (shares_at bundle.now.bytes.now place) lowest.old (place_opening bundle.now.bytes.now place) }
{
    let holders = load_holders(bundle);
    let mut shares = [[0u64; 6]; 63];
    let mut rows = [[0u64; 6]; 64];
    let opened = place_opening(bundle, place, &holders, &mut shares, &mut rows);
    decoder::hand_out(
        bundle.heading.params,
        bundle.files,
        &holders,
        &shares,
        opened,
        &rows,
        out,
        wrong,
        lowest,
    )
}

// Opens the job at a place: its words go to the first output, the set of the wrong holders to the second, and the lowest bits at which their shares
// differ to the third.
#[tactic(auto, using(words::proofs::Refusals::refusals, crate::proofs::Calls::opened), unfolding(crate::specs::Archive::open_place))]
pub fn open_place(
    bytes: &[u8],
    place: usize,
    out: &mut [u64],
    wrong: &mut [u64],
    lowest: &mut [u8],
) -> Result<(), Refusal>
    ensures fault { fault_in result ≡ fault_of (open_place bytes.now place (length out.old) (length wrong.old)
        (length lowest.old)) }
    ensures out { out.new ≡ secret_into out.old (open_place bytes.now place (length out.old)
        (length wrong.old) (length lowest.old)) }
    ensures wrong { wrong.new ≡ wrong_into (params_of bytes.now).k (params_of bytes.now).d
        (shares_at bytes.now place) wrong.old (open_place bytes.now place (length out.old)
        (length wrong.old) (length lowest.old)) }
    ensures lowest { lowest.new ≡ lowest_into (params_of bytes.now).k (params_of bytes.now).d
        (shares_at bytes.now place) lowest.old (open_place bytes.now place (length out.old)
        (length wrong.old) (length lowest.old)) }
{
    let bundle = accept_place(bytes, place, out.len(), wrong.len(), lowest.len())?;
    open_accepted(&bundle, place, out, wrong, lowest)
}

// Opens the sum of the jobs at the places a to b - 1, in the same way.
#[tactic(auto, using(words::proofs::Refusals::refusals, crate::proofs::Calls::opened), unfolding(crate::specs::Archive::open_run, crate::specs::Archive::opening_fault))]
pub fn open_run(
    bytes: &[u8],
    a: usize,
    b: usize,
    out: &mut [u64],
    wrong: &mut [u64],
    lowest: &mut [u8],
) -> Result<(), Refusal>
    ensures fault { fault_in result ≡ fault_of (open_run bytes.now a b (length out.old) (length wrong.old)
        (length lowest.old)) }
    ensures out { out.new ≡ secret_into out.old (open_run bytes.now a b (length out.old)
        (length wrong.old) (length lowest.old)) }
    ensures wrong { wrong.new ≡ wrong_into (params_of bytes.now).k (params_of bytes.now).d
        (shares_over bytes.now a (b - a)) wrong.old (open_run bytes.now a b (length out.old)
        (length wrong.old) (length lowest.old)) }
    ensures lowest { lowest.new ≡ lowest_into (params_of bytes.now).k (params_of bytes.now).d
        (shares_over bytes.now a (b - a)) lowest.old (open_run bytes.now a b (length out.old)
        (length wrong.old) (length lowest.old)) }
{
    let bundle = bundle::accept(bytes)?;
    check_outputs(bundle.heading, out.len(), wrong.len(), lowest.len())?;
    fetch::check_run(bundle.heading, a, b)?;
    let holders = load_holders(&bundle);
    let mut shares = [[0u64; 6]; 63];
    let mut rows = [[0u64; 6]; 64];
    let opened = run_opening(&bundle, a, b, &holders, &mut shares, &mut rows);
    decoder::hand_out(
        bundle.heading.params,
        bundle.files,
        &holders,
        &shares,
        opened,
        &rows,
        out,
        wrong,
        lowest,
    )
}
