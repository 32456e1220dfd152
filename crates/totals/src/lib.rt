// The total of a holder's file over a run of a bundle, into an output or added to an element that the caller lends, and the pass over the jobs of
// a run that both are made by. It adds each word where the sum stands, as it is read, and takes the words together, bit by bit, to tell their width.
#![tactic(auto)]

ghost use Rattle.std.specs.Prelude.{◌≡◌, ◌++◌, ℕ, ◌+◌, ◌-◌, ◌*◌, ◌≤◌, ◌<◌, length, take, drop, IfOk};
ghost use Rattle.std.specs.Int.Bits.{bit_or};
ghost use Rattle.words.specs.Word.{in_width, all_in_width};
ghost use Rattle.galois.specs.Element.{sum, difference, zero_e, reduce};
ghost use Rattle.records.specs.Num.{le_at};
ghost use Rattle.words.specs.Refusal.{fault_in};
ghost use Rattle.bundle.specs.Contents.{words_from};
ghost use Rattle.fetch.specs.Fetch.{file_of};
ghost use Rattle.totals.specs.Values.{every};
ghost use Rattle.totals.specs.Total.{sum_to, run_total, run_in_width, asked_fault, total_fault, total_words, added_to, add_total_fault, add_total_words};

use bundle::Bundle;
use words::Refusal;

// The word at a position, read from the bytes that begin there: only so does the compiler see one load before it looks for words to add together.
fn load_word(bytes: &[u8], at: usize) -> u64
    requires { at + 8 ≤ length bytes.now }
    ensures { result ≡ le_at 8 bytes.now at }
{
    records::word_at(&bytes[at..], 0)
}

// Words taken together, bit by bit: those at even places of their jobs, and those at odd ones, the last word in both where it is alone.
#[derive(Clone, Copy)]
struct Seen {
    even: u64,
    odd: u64,
}

// Adds the d words of 8 bytes each from a position to the first d of the lent words, in 64 bits; the words read, together. For all that the compiler
// knows the two lists could overlap, and it may not read past a store: so two words are read before either is stored, and seen apart, which lets it
// add the two by one instruction. The last of an odd number is seen with both, so that neither is taken out of the pair for it.
// It counts by hand: a `for` over pairs would have the same two places in each turn, and the last word apart as well.
fn add_words(bytes: &[u8], at: usize, d: usize, running: &mut [u64]) -> Seen
    requires { (at + 8 * d ≤ length bytes.now) × (d ≤ length running.old) }
    ensures { ((k : ℕ) → in_width k (bit_or result.even result.odd) ≡ all_in_width k (words_from 8 bytes.now d at))
        × (running.new ≡ added_to 64 running.old (words_from 8 bytes.now d at)) }
{
    let mut even: u64 = 0;
    let mut odd: u64 = 0;
    let mut here = at;
    let mut j: usize = 0;
    while j + 1 < d {
        let v = load_word(bytes, here);
        let w = load_word(bytes, here + records::WORD_SIZE);
        running[j] = words::add(64, running[j], v);
        running[j + 1] = words::add(64, running[j + 1], w);
        even |= v;
        odd |= w;
        here += 2 * records::WORD_SIZE;
        j += 2;
    }
    if j < d {
        let w = load_word(bytes, here);
        running[j] = words::add(64, running[j], w);
        return Seen {
            even: even | w,
            odd: odd | w,
        };
    }
    Seen { even, odd }
}

// Adds `count` jobs of d words: the first job's words stand at `at`, and each job's `size` bytes after those of the job before. What is required is
// that the last job's words are within the bytes. The lowest k bits of each word are then those of the sum in words of k bits, for every k.
fn add_jobs_by(
    bytes: &[u8],
    at: usize,
    size: usize,
    d: usize,
    count: usize,
    running: &mut [u64],
) -> u64
    requires { (size ≤ 62) × (at + count * size + 8 * d ≤ length bytes.now + size) × (d ≤ length running.old) }
    ensures { ((k : ℕ) → in_width k result ≡ every (λ i. all_in_width k (words_from 8 bytes.now d (at + i * size))) count)
        × ((k : ℕ) → k ≤ 64 → reduce k (take d running.new)
        ≡ sum k running.old (sum_to k d (λ i. words_from 8 bytes.now d (at + i * size)) count))
        × (drop d running.new ≡ drop d running.old) }
{
    let mut even: u64 = 0;
    let mut odd: u64 = 0;
    let mut here = at;
    for _ in 0..count {
        let seen = add_words(bytes, here, d, running);
        even |= seen.even;
        odd |= seen.odd;
        here += size;
    }
    even | odd
}

// The same, with code for each d.
fn add_jobs(
    bytes: &[u8],
    at: usize,
    size: usize,
    d: usize,
    count: usize,
    running: &mut [u64],
) -> u64
    requires { ((2 ≤ d) × (d ≤ 6)) × (size ≤ 62) × (at + count * size + 8 * d ≤ length bytes.now + size) × (d ≤ length running.old) }
    ensures { ((k : ℕ) → in_width k result ≡ every (λ i. all_in_width k (words_from 8 bytes.now d (at + i * size))) count)
        × ((k : ℕ) → k ≤ 64 → reduce k (take d running.new)
        ≡ sum k running.old (sum_to k d (λ i. words_from 8 bytes.now d (at + i * size)) count))
        × (drop d running.new ≡ drop d running.old) }
{
    words::specialized!(d, add_jobs_by(bytes, at, size, d, count, running))
}

// The lowest k bits of each of the first d words.
fn cut_words(k: u64, d: usize, running: &mut [u64])
    requires { ((1 ≤ k) × (k ≤ 64)) × (d ≤ length running.old) }
    ensures { running.new ≡ reduce k (take d running.old) ++ drop d running.old }
{
    for w in &mut running[..d] {
        *w = words::low_bits(*w, k);
    }
}

// Adds the places a to b - 1 of file f of an accepted bundle to the first d of the lent words; the words of the run, together.
pub fn add_run(bundle: &Bundle, f: usize, a: usize, b: usize, running: &mut [u64]) -> u64
    requires { (f < bundle.now.files) × (a ≤ b) × (b ≤ bundle.now.heading.jobs)
        × (bundle.now.heading.params.d ≤ length running.old) }
    ensures { (in_width bundle.now.heading.params.k result ≡ run_in_width bundle.now.bytes.now f a (b - a))
        × (running.new ≡ added_to bundle.now.heading.params.k running.old (run_total bundle.now.bytes.now f a (b - a))) }
{
    let bytes = bundle.bytes;
    let h = bundle.heading;
    let at = fetch::job_at(h, f, a) + records::PREFIX_SIZE + records::NUMBER_SIZE;
    let size = records::LENGTH_SIZE + records::job_length(h);
    let seen = add_jobs(bytes, at, size, h.params.d, b - a, running);
    cut_words(h.params.k, h.params.d, running);
    seen
}

// Each word's negative.
fn negate(k: u64, running: &mut [u64])
    requires { (1 ≤ k) × (k ≤ 64) }
    ensures { running.new ≡ difference k (zero_e (length running.old)) running.old }
{
    for w in running.iter_mut() {
        *w = words::sub(k, 0, *w);
    }
}

// Takes the places a to b - 1 off a lent element, by the pass that adds: the negative, with the run added, is the negative of what is left.
fn take_run(bundle: &Bundle, f: usize, a: usize, b: usize, running: &mut [u64])
    requires { (f < bundle.now.files) × (a ≤ b) × (b ≤ bundle.now.heading.jobs)
        × (length running.old ≡ bundle.now.heading.params.d) }
    ensures { running.new ≡ difference bundle.now.heading.params.k running.old (run_total bundle.now.bytes.now f a (b - a)) }
{
    let k = bundle.heading.params.k;
    negate(k, running);
    let _ = add_run(bundle, f, a, b, running);
    negate(k, running);
}

// A bundle, and the file in it that a call is asked of.
#[derive(Clone, Copy)]
struct Located<'a> {
    bundle: Bundle<'a>,
    file: usize,
}

// The file of a holder, in a bundle that has the places a to b - 1.
#[tactic(auto, using(words::proofs::Refusals::refusals), unfolding(crate::specs::Total::asked_fault))]
fn locate(bytes: &[u8], holder: usize, a: usize, b: usize, out: usize) -> Result<Located, Refusal>
    ensures fault { fault_in result ≡ asked_fault bytes.now holder a b out }
    ensures found { IfOk result (λ l. (l.bundle.bytes.now ≡ bytes.now) × (l.file ≡ file_of bytes.now holder)
        × (l.file < l.bundle.files) × (out ≡ l.bundle.heading.params.d) × (a ≤ b) × (b ≤ l.bundle.heading.jobs)) }
{
    let bundle = bundle::accept(bytes)?;
    let file = fetch::find_file(&bundle, holder)?;
    words::check_length(bundle.heading.params.d, out)?;
    fetch::check_run(bundle.heading, a, b)?;
    Ok(Located { bundle, file })
}

// The total of a holder's file over the places a to b - 1.
#[tactic(auto, using(words::proofs::Refusals::refusals), unfolding(crate::specs::Total::total_fault, crate::specs::Total::total_words))]
pub fn total(
    bytes: &[u8],
    holder: usize,
    a: usize,
    b: usize,
    out: &mut [u64],
) -> Result<(), Refusal>
    ensures { (fault_in result ≡ total_fault bytes.now holder a b (length out.old))
        × (out.new ≡ total_words bytes.now holder a b out.old) }
{
    let Located { bundle, file } = locate(bytes, holder, a, b, out.len())?;
    let p = bundle.heading.params;
    let mut sum = [0u64; 6];
    let seen = add_run(&bundle, file, a, b, &mut sum);
    words::unless(words::in_width(p.k, seen), Refusal::WideWord)?;
    ring::store(p.d, out, 0, sum);
    Ok(())
}

// The same total, added to the lent element. The pass adds before all words of the run are seen: where one is wide, the run is taken off again.
#[tactic(auto, using(words::proofs::Refusals::refusals), unfolding(crate::specs::Total::add_total_fault, crate::specs::Total::add_total_words))]
pub fn add_total(
    bytes: &[u8],
    holder: usize,
    a: usize,
    b: usize,
    running: &mut [u64],
) -> Result<(), Refusal>
    ensures { (fault_in result ≡ add_total_fault bytes.now holder a b running.old)
        × (running.new ≡ add_total_words bytes.now holder a b running.old) }
{
    let Located { bundle, file } = locate(bytes, holder, a, b, running.len())?;
    let k = bundle.heading.params.k;
    words::check_width(k, running)?;
    let seen = add_run(&bundle, file, a, b, running);
    if !words::in_width(k, seen) {
        take_run(&bundle, file, a, b, running);
        return Err(Refusal::WideWord);
    }
    Ok(())
}
