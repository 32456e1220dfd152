// Dealing a job to n holders, and opening it from lent shares. Shares are added, and multiplied by one element, by ring's calls add and
// multiply.
#![tactic(auto)]

ghost use Rattle.std.specs.Prelude.{◌≡◌, true, ◌∷◌, ◌*◌, ◌≤◌, eqb, length, take};
ghost use Rattle.words.specs.Refusal.{fault_in, kept};
ghost use Rattle.galois.specs.Element.{held, point};
ghost use Rattle.polynomial.specs.Polynomial.{value};
ghost use Rattle.polynomial.specs.Rows.{coefs};
ghost use Rattle.codewords.specs.Opening.{fault_of, secret_into, wrong_into, lowest_into};
ghost use Rattle.sharing.specs.Dealing.{elements_of, dealt, deal_fault};
ghost use Rattle.sharing.specs.Opening.{lent, rising_to, lent_fault, opening};

use words::Refusal;

// Tests what is lent to a dealing into an output of length n. Words are read only where there are as many as there should be.
#[tactic(auto, using(words::proofs::Refusals::refusals), unfolding(crate::specs::Dealing::deal_fault))]
fn check_deal(
    p: words::Params,
    secret: &[u64],
    coefficients: &[u64],
    n: usize,
) -> Result<(), Refusal>
    ensures { fault_in result ≡ deal_fault p secret.now coefficients.now n }
{
    words::check_params(p)?;
    words::check_length(p.d, secret.len())?;
    words::check_length(p.t * p.d, coefficients.len())?;
    words::check_length(p.n * p.d, n)?;
    words::check_width(p.k, secret)?;
    words::check_width(p.k, coefficients)
}

// The value at holder x's point, in words of 64 bits, of the polynomial with the secret for its free term and the t coefficients after it, by
// Horner's rule.
fn share_by(d: usize, secret: &[u64], coefficients: &[u64], t: usize, x: u64) -> [u64; 6]
    requires { ((2 ≤ d) × (d ≤ 6)) × (t ≤ 63) × (length secret.now ≡ d) × (length coefficients.now ≡ t * d) }
    ensures { result ≡ held d (value 64 d (secret.now ∷ elements_of d t coefficients.now) (point d x)) }
{
    let mut r = [0u64; 6];
    for i in (0..t).rev() {
        let s = ring::sum(64, r, ring::load(d, coefficients, i * d));
        r = ring::product_by_point(64, d, s, x);
    }
    ring::sum(64, r, ring::load(d, secret, 0))
}

// The same for d 4, in a function of its own: the compiler takes the tests of the holder's bits out of a loop only in a function that has few loops.
fn share_of_four(secret: &[u64], coefficients: &[u64], t: usize, x: u64) -> [u64; 6]
    requires { (t ≤ 63) × (length secret.now ≡ 4) × (length coefficients.now ≡ t * 4) }
    ensures { result ≡ held 4 (value 64 4 (secret.now ∷ elements_of 4 t coefficients.now) (point 4 x)) }
{
    share_by(4, secret, coefficients, t, x)
}

// The same, with code for each d.
fn share_at(d: usize, secret: &[u64], coefficients: &[u64], t: usize, x: u64) -> [u64; 6]
    requires { ((2 ≤ d) × (d ≤ 6)) × (t ≤ 63) × (length secret.now ≡ d) × (length coefficients.now ≡ t * d) }
    ensures { result ≡ held d (value 64 d (secret.now ∷ elements_of d t coefficients.now) (point d x)) }
{
    if d == 4 {
        return share_of_four(secret, coefficients, t, x);
    }
    words::specialized!(d, share_by(d, secret, coefficients, t, x))
}

// The shares of holders 1 to n: words of 64 bits, reduced once at the end. The loop counts holders: of a count from 0 the
// compiler would make a holder's number anew for each of its bits that is tested.
fn write_shares(p: words::Params, secret: &[u64], coefficients: &[u64], out: &mut [u64])
    requires { ((1 ≤ p.k) × (p.k ≤ 64)) × ((2 ≤ p.d) × (p.d ≤ 6)) × ((p.n ≤ 63) × (p.t ≤ 63)) × (length secret.now ≡ p.d)
        × (length coefficients.now ≡ p.t * p.d) × (length out.old ≡ p.n * p.d) }
    ensures { out.new ≡ dealt p secret.now coefficients.now }
{
    for x in 1..p.n + 1 {
        let e = share_at(p.d, secret, coefficients, p.t, x as u64);
        ring::store(p.d, out, (x - 1) * p.d, ring::reduce(p.k, e));
    }
}

// A job, the secret, dealt to n holders with t further coefficients, which the caller draws at random: the shares one after another.
#[tactic(auto, using(words::proofs::Refusals::refusals))]
pub fn deal(
    p: words::Params,
    secret: &[u64],
    coefficients: &[u64],
    out: &mut [u64],
) -> Result<(), Refusal>
    ensures { (fault_in result ≡ deal_fault p secret.now coefficients.now (length out.old))
        × (out.new ≡ kept (deal_fault p secret.now coefficients.now (length out.old))
        out.old (dealt p secret.now coefficients.now)) }
{
    check_deal(p, secret, coefficients, out.len())?;
    write_shares(p, secret, coefficients, out);
    Ok(())
}

// Whether holders are from 1 to n and strictly rise.
fn rising(n: usize, holders: &[u64]) -> bool
    ensures { result ≡ rising_to n 0 holders.now }
{
    let mut prev: u64 = 0;
    for &h in holders {
        if h <= prev || (n as u64) < h {
            return false;
        }
        prev = h;
    }
    true
}

// Whether n words are m elements of d words: by division, since the product may be too large.
fn elements_ok(m: usize, d: usize, n: usize) -> bool
    requires { 1 ≤ d }
    ensures { result ≡ eqb n (m * d) }
{
    n % d == 0 && n / d == m
}

// Tests lent shares, ahead of whether they are enough, for outputs of n and of w words and of l bytes.
#[tactic(auto, using(words::proofs::Refusals::refusals), unfolding(crate::specs::Opening::lent_fault, words::specs::Faults::length_fault))]
fn check_lent(
    p: words::Params,
    holders: &[u64],
    shares: &[u64],
    n: usize,
    w: usize,
    l: usize,
) -> Result<(), Refusal>
    ensures { fault_in result ≡ lent_fault p holders.now shares.now n w l }
{
    words::check_params(p)?;
    words::unless(
        elements_ok(holders.len(), p.d, shares.len()),
        Refusal::Length,
    )?;
    words::check_length(p.d, n)?;
    words::check_length(1, w)?;
    words::check_length(64, l)?;
    words::unless(rising(p.n, holders), Refusal::Holder)
}

// Lent holders, in an array.
fn load_holders(holders: &[u64]) -> [u64; 63]
    requires { length holders.now ≤ 63 }
    ensures { take (length holders.now) result ≡ holders.now }
{
    let mut r = [0u64; 63];
    r[..holders.len()].copy_from_slice(holders);
    r
}

// The words of m lent shares, a row for each.
fn load_shares(d: usize, m: usize, shares: &[u64]) -> [[u64; 6]; 63]
    requires { ((2 ≤ d) × (d ≤ 6)) × (m ≤ 63) × (length shares.now ≡ m * d) }
    ensures { coefs d m result ≡ elements_of d m shares.now }
{
    let mut r = [[0u64; 6]; 63];
    for i in 0..m {
        r[i] = ring::load(d, shares, i * d);
    }
    r
}

// A job opened from lent shares: d words for each lent holder, and at most e of the shares wrong, as those with a wide word are. The job's words
// go to an output of d words, the set of the wrong holders, bit i - 1 for holder i, to one of one word, and the lowest bits at which their shares
// differ, entry i - 1 for holder i, to one of 64 bytes.
pub fn open_shares(
    p: words::Params,
    holders: &[u64],
    shares: &[u64],
    e: u64,
    out: &mut [u64],
    wrong: &mut [u64],
    lowest: &mut [u8],
) -> Result<(), Refusal>
    ensures fault { fault_in result ≡ fault_of (opening p holders.now shares.now e (length out.old)
        (length wrong.old) (length lowest.old)) }
    ensures out { out.new ≡ secret_into out.old (opening p holders.now shares.now e
        (length out.old) (length wrong.old) (length lowest.old)) }
    ensures wrong { wrong.new ≡ wrong_into p.k p.d (lent p.d holders.now shares.now)
        wrong.old (opening p holders.now shares.now e (length out.old)
        (length wrong.old) (length lowest.old)) }
    ensures lowest { lowest.new ≡ lowest_into p.k p.d (lent p.d holders.now shares.now)
        lowest.old (opening p holders.now shares.now e (length out.old)
        (length wrong.old) (length lowest.old)) }
{
    check_lent(p, holders, shares, out.len(), wrong.len(), lowest.len())?;
    let m = holders.len();
    let hs = load_holders(holders);
    let ys = load_shares(p.d, m, shares);
    let mut rows = [[0u64; 6]; 64];
    let narrow = words::all_in_width(p.k, shares);
    let opened = decoder::decode(p, m, &hs, &ys, narrow, e, &mut rows);
    decoder::hand_out(p, m, &hs, &ys, opened, &rows, out, wrong, lowest)
}
