// Decoding: the polynomial of degree at most t that differs from e shares or fewer, if there is one, and the set of the holders whose shares
// differ from it. A search by rounds: one that ends it has the polynomial or none; any other names shares that differ from every codeword; they are
// dropped, and the search goes on among the others with as much less to allow. Shares with a wide word differ from every polynomial, and are dropped
// first. The caller's shares stay as they are: it is from copies that any are dropped, and where none has to be nothing is copied.
#![tactic(auto)]

ghost use Rattle.std.specs.Prelude.{◌≡◌, true, [], ◌∷◌, ℕ, suc, ◌+◌, ◌*◌, ◌≤◌, ◌<◌, length, take, get_or, replicate, IfOk};
ghost use Rattle.polynomial.specs.Rows.{Shaped, coefs};
ghost use Rattle.comparison.specs.Comparison.{position_of};
ghost use Rattle.codewords.specs.Codeword.{wide_set, error_set, comparison, positions, codeword};
ghost use Rattle.codewords.specs.Opening.{wrong_of, lowest_room, from_codeword, answer_to, opening_in};
ghost use Rattle.codewords.specs.Residue.{without};
ghost use Rattle.codewords.specs.WellFormed.{InWidth, Rising, Holders};
ghost use Rattle.level.specs.Shares.{share, shares_of, Sized};
ghost use Rattle.words.specs.Params.{params_ok};
ghost use Rattle.words.specs.Refusal.{fault_in, kept};
ghost use Rattle.decoder.specs.Decoded.{Ordered, wrong_in};
ghost use Rattle.decoder.specs.LeftOut.{LeftOut};

use words::Refusal;

// Drops the shares of the holders in w; the others move up, in order. Each share is written to the next place, which counts only if the
// share is kept. Returns how many are.
fn drop_wrong(w: u64, m: usize, hs: &mut [u64; 63], ys: &mut [[u64; 6]; 63]) -> usize
    requires { (m ≤ 63) × (length hs.old ≡ 63) × (length ys.old ≡ 63)
        × ((i : ℕ) → i < m → (1 ≤ get_or hs.old i 0) × (get_or hs.old i 0 ≤ 63)) }
    ensures { ((d : ℕ) → shares_of d result hs.new ys.new ≡ without w (shares_of d m hs.old ys.old))
        × (result ≤ m) × (length hs.new ≡ 63) × (length ys.new ≡ 63) }
{
    let mut j = 0;
    for i in 0..m {
        let x = hs[i];
        hs[j] = x;
        ys[j] = ys[i];
        j += 1 - ((w >> (x - 1)) % 2) as usize;
    }
    j
}

// The same out of place: the shares of the other holders, in order, go to the front of the second arrays. Returns how many they are.
fn copy_others(
    w: u64,
    m: usize,
    hs: &[u64; 63],
    ys: &[[u64; 6]; 63],
    holders: &mut [u64; 63],
    shares: &mut [[u64; 6]; 63],
) -> usize
    requires { (m ≤ 63) × (length hs.now ≡ 63) × (length ys.now ≡ 63) × (length holders.old ≡ 63) × (length shares.old ≡ 63)
        × ((i : ℕ) → i < m → (1 ≤ get_or hs.now i 0) × (get_or hs.now i 0 ≤ 63)) }
    ensures { ((d : ℕ) → shares_of d result holders.new shares.new
        ≡ without w (shares_of d m hs.now ys.now))
        × (result ≤ m) × (length holders.new ≡ 63) × (length shares.new ≡ 63) }
{
    let mut j = 0;
    for i in 0..m {
        let x = hs[i];
        holders[j] = x;
        shares[j] = ys[i];
        j += 1 - ((w >> (x - 1)) % 2) as usize;
    }
    j
}

// The search: `count` shares are still in, of which `bound` may differ; those of the holders in `wrong` are out, and the others move up in the
// lent arrays. The rows are room for interpolation, and then for what the polynomial leaves of the shares; at the end they hold the codeword.
fn search(
    k: u64,
    d: usize,
    t: usize,
    m: usize,
    hs: &mut [u64; 63],
    ys: &mut [[u64; 6]; 63],
    e: u64,
    rows: &mut [[u64; 6]; 64],
) -> Result<u64, Refusal>
    requires { ((1 ≤ k) × (k ≤ 64)) × ((2 ≤ d) × (d ≤ 6)) × (t ≤ 62) × (m ≤ 63) × (suc t + 2 * e ≤ m)
        × Holders d (shares_of d m hs.old ys.old) × Rising (shares_of d m hs.old ys.old) × InWidth k d (shares_of d m hs.old ys.old)
        × (length hs.old ≡ 63) × (length ys.old ≡ 63) × Shaped rows.old }
    ensures opening { opening_in d t (fault_in result) rows.new
        ≡ from_codeword (codeword k d t e (shares_of d m hs.old ys.old)) }
    ensures wrong { wrong_in result ≡ wrong_of k d (shares_of d m hs.old ys.old)
        (from_codeword (codeword k d t e (shares_of d m hs.old ys.old))) }
    ensures shaped { Shaped rows.new }
    ensures room { (length hs.new ≡ 63) × (length ys.new ≡ 63) }
{
    let mut wrong: u64 = 0;
    let mut bound = e;
    let mut count = m;
    loop {
        let found = rounds::round(k, d, t, count, hs, ys, bound, rows).ok_or(Refusal::NoCodeword)?;
        wrong += found.wrong;
        if found.all {
            return Ok(wrong);
        }
        let errors = u64::count_ones(found.wrong) as u64;
        bound -= errors;
        count = drop_wrong(found.wrong, count, hs, ys);
    }
}

// The search without the shares of the holders in u, which are wrong for sure and use up the bound; what it gives is the answer for all shares.
// They are dropped from copies: the lent arrays stay as they are, so that callers can compare the shares with the polynomial.
fn search_without(
    k: u64,
    d: usize,
    t: usize,
    m: usize,
    hs: &[u64; 63],
    ys: &[[u64; 6]; 63],
    u: u64,
    e: u64,
    rows: &mut [[u64; 6]; 64],
) -> Result<u64, Refusal>
    requires { ((1 ≤ k) × (k ≤ 64)) × ((2 ≤ d) × (d ≤ 6)) × (t ≤ 62) × (m ≤ 63)
        × Holders d (shares_of d m hs.now ys.now) × Rising (shares_of d m hs.now ys.now)
        × LeftOut k d t e (shares_of d m hs.now ys.now) u
        × (length hs.now ≡ 63) × (length ys.now ≡ 63) × Shaped rows.old }
    ensures opening { opening_in d t (fault_in result) rows.new
        ≡ from_codeword (codeword k d t e (shares_of d m hs.now ys.now)) }
    ensures wrong { wrong_in result ≡ wrong_of k d (shares_of d m hs.now ys.now)
        (from_codeword (codeword k d t e (shares_of d m hs.now ys.now))) }
    ensures shaped { Shaped rows.new }
{
    let mut holders = [0u64; 63];
    let mut shares = [[0u64; 6]; 63];
    let errors = u64::count_ones(u) as u64;
    let count = copy_others(u, m, hs, ys, &mut holders, &mut shares);
    let found = search(k, d, t, count, &mut holders, &mut shares, e - errors, rows)?;
    Ok(u + found)
}

// The search among shares with no wide word. The first round reads the lent arrays themselves; only if it drops shares and the search goes on
// are they copied. So an opening that ends with this round, as one without a wrong share does, does not pay for copies.
fn search_lent(
    k: u64,
    d: usize,
    t: usize,
    m: usize,
    hs: &[u64; 63],
    ys: &[[u64; 6]; 63],
    e: u64,
    rows: &mut [[u64; 6]; 64],
) -> Result<u64, Refusal>
    requires { ((1 ≤ k) × (k ≤ 64)) × ((2 ≤ d) × (d ≤ 6)) × (t ≤ 62) × (m ≤ 63) × (suc t + 2 * e ≤ m)
        × Holders d (shares_of d m hs.now ys.now) × Rising (shares_of d m hs.now ys.now) × InWidth k d (shares_of d m hs.now ys.now)
        × (length hs.now ≡ 63) × (length ys.now ≡ 63) × Shaped rows.old }
    ensures opening { opening_in d t (fault_in result) rows.new
        ≡ from_codeword (codeword k d t e (shares_of d m hs.now ys.now)) }
    ensures wrong { wrong_in result ≡ wrong_of k d (shares_of d m hs.now ys.now)
        (from_codeword (codeword k d t e (shares_of d m hs.now ys.now))) }
    ensures shaped { Shaped rows.new }
{
    let found = rounds::round(k, d, t, m, hs, ys, e, rows).ok_or(Refusal::NoCodeword)?;
    if found.all {
        return Ok(found.wrong);
    }
    search_without(k, d, t, m, hs, ys, found.wrong, e, rows)
}

// The holders whose shares have a wide word.
fn wide_by(k: u64, d: usize, m: usize, hs: &[u64; 63], ys: &[[u64; 6]; 63]) -> u64
    requires { (d ≤ 6) × (m ≤ 63) × Holders d (shares_of d m hs.now ys.now) × Sized d (shares_of d m hs.now ys.now)
        × (length ys.now ≡ 63) }
    ensures { result ≡ wide_set k (shares_of d m hs.now ys.now) }
{
    let mut set: u64 = 0;
    for i in (0..m).rev() {
        let u = ring::keep(d, ys[i]);
        if !words::in_width(k, u[0] | (u[1] | (u[2] | (u[3] | (u[4] | u[5]))))) {
            set |= 1u64 << (hs[i] - 1);
        }
    }
    set
}

// The same, with code for each d.
fn wide_holders(k: u64, d: usize, m: usize, hs: &[u64; 63], ys: &[[u64; 6]; 63]) -> u64
    requires { ((2 ≤ d) × (d ≤ 6)) × (m ≤ 63) × Holders d (shares_of d m hs.now ys.now) × Sized d (shares_of d m hs.now ys.now)
        × (length ys.now ≡ 63) }
    ensures { result ≡ wide_set k (shares_of d m hs.now ys.now) }
{
    words::specialized!(d, wide_by(k, d, m, hs, ys))
}

// The search among shares of any words. Those with a wide word differ from every polynomial, so they are left out from the start.
fn search_in_width(
    k: u64,
    d: usize,
    t: usize,
    m: usize,
    hs: &[u64; 63],
    ys: &[[u64; 6]; 63],
    e: u64,
    rows: &mut [[u64; 6]; 64],
) -> Result<u64, Refusal>
    requires { ((1 ≤ k) × (k ≤ 64)) × ((2 ≤ d) × (d ≤ 6)) × (t ≤ 62) × (m ≤ 63) × (suc t + 2 * e ≤ m)
        × Holders d (shares_of d m hs.now ys.now) × Rising (shares_of d m hs.now ys.now) × Sized d (shares_of d m hs.now ys.now)
        × (length hs.now ≡ 63) × (length ys.now ≡ 63) × Shaped rows.old }
    ensures opening { opening_in d t (fault_in result) rows.new
        ≡ from_codeword (codeword k d t e (shares_of d m hs.now ys.now)) }
    ensures wrong { wrong_in result ≡ wrong_of k d (shares_of d m hs.now ys.now)
        (from_codeword (codeword k d t e (shares_of d m hs.now ys.now))) }
    ensures shaped { Shaped rows.new }
{
    let wide = wide_holders(k, d, m, hs, ys);
    let errors = u64::count_ones(wide) as u64;
    words::unless(errors <= e, Refusal::NoCodeword)?;
    search_without(k, d, t, m, hs, ys, wide, e, rows)
}

// What m shares under rising holders open to with the error bound e, of any size: the polynomial in `rows`, if there is no fault. `narrow` tells
// that no word is wide, which saves looking. The holders and shares stay as they are, so that a caller can compare them with the polynomial.
pub fn decode(
    p: words::Params,
    m: usize,
    holders: &[u64; 63],
    shares: &[[u64; 6]; 63],
    narrow: bool,
    e: u64,
    rows: &mut [[u64; 6]; 64],
) -> Result<u64, Refusal>
    requires { (params_ok p ≡ true) × (m ≤ 63) × Ordered p.n (shares_of p.d m holders.now shares.now)
        × Sized p.d (shares_of p.d m holders.now shares.now)
        × (narrow ≡ true → InWidth p.k p.d (shares_of p.d m holders.now shares.now))
        × (length holders.now ≡ 63) × (length shares.now ≡ 63) × Shaped rows.old }
    ensures opening { opening_in p.d p.t (fault_in result) rows.new
        ≡ answer_to p e (shares_of p.d m holders.now shares.now) }
    ensures wrong { wrong_in result ≡ wrong_of p.k p.d (shares_of p.d m holders.now shares.now)
        (answer_to p e (shares_of p.d m holders.now shares.now)) }
    ensures shaped { Shaped rows.new }
{
    words::unless(p.t < m, Refusal::TooFewShares)?;
    words::unless(e <= ((m - p.t - 1) / 2) as u64, Refusal::TooFewShares)?;
    if narrow {
        return search_lent(p.k, p.d, p.t, m, holders, shares, e, rows);
    }
    search_in_width(p.k, p.d, p.t, m, holders, shares, e, rows)
}

// Nobody has a position yet.
fn clear_positions(lowest: &mut [u8])
    requires { length lowest.old ≡ lowest_room }
    ensures { lowest.new ≡ replicate lowest_room 255 }
{
    lowest.fill(comparison::NONE);
}

// The position of holder x's share: where it differs from the value of the polynomial in the rows, of degree at most t.
fn position_by(k: u64, d: usize, t: usize, rows: &[[u64; 6]; 64], x: u64, words: [u64; 6]) -> u8
    requires { ((1 ≤ k) × (k ≤ 64)) × ((2 ≤ d) × (d ≤ 6)) × (t ≤ 62) × Shaped rows.now }
    ensures { result ≡ position_of (comparison k d (coefs d (suc t) rows.now) (share x (take d words))) }
{
    let value = polynomial::eval_lent(k, d, rows, t + 1, x);
    comparison::position(comparison::compare(ring::keep(d, words), value))
}

// The same, with code for each d.
fn position_of(k: u64, d: usize, t: usize, rows: &[[u64; 6]; 64], x: u64, words: [u64; 6]) -> u8
    requires { ((1 ≤ k) × (k ≤ 64)) × ((2 ≤ d) × (d ≤ 6)) × (t ≤ 62) × Shaped rows.now }
    ensures { result ≡ position_of (comparison k d (coefs d (suc t) rows.now) (share x (take d words))) }
{
    words::specialized!(d, position_by(k, d, t, rows, x, words))
}

// The positions of the wrong holders: entry i - 1 of the output for holder i.
pub fn lowest_bits(
    p: words::Params,
    m: usize,
    holders: &[u64; 63],
    shares: &[[u64; 6]; 63],
    rows: &[[u64; 6]; 64],
    wrong: u64,
    lowest: &mut [u8],
)
    requires { (params_ok p ≡ true) × (m ≤ 63) × Ordered p.n (shares_of p.d m holders.now shares.now)
        × Shaped rows.now × (length lowest.old ≡ lowest_room)
        × (wrong ≡ error_set p.k p.d (coefs p.d (suc p.t) rows.now) (shares_of p.d m holders.now shares.now)) }
    ensures { lowest.new ≡ positions p.k p.d (coefs p.d (suc p.t) rows.now)
        (shares_of p.d m holders.now shares.now) }
{
    clear_positions(lowest);
    if wrong == 0 {
        return;
    }
    for i in (0..m).rev() {
        let x = holders[i];
        if (wrong >> (x - 1)) % 2 == 1 {
            lowest[(x - 1) as usize] = position_of(p.k, p.d, p.t, rows, x, shares[i]);
        }
    }
}

// Hands out what is opened from m shares: the job's words, which are the free term's, into an output of d words, the wrong holders into one of one
// word, their positions into one of 64 bytes; the outputs stay where it is refused.
#[tactic(auto, using(words::proofs::Refusals::refusals))]
pub fn hand_out(
    p: words::Params,
    m: usize,
    holders: &[u64; 63],
    shares: &[[u64; 6]; 63],
    opened: Result<u64, Refusal>,
    rows: &[[u64; 6]; 64],
    out: &mut [u64],
    wrong: &mut [u64],
    lowest: &mut [u8],
) -> Result<(), Refusal>
    requires { (params_ok p ≡ true) × (m ≤ 63) × Ordered p.n (shares_of p.d m holders.now shares.now)
        × Shaped rows.now × (length out.old ≡ p.d) × (length wrong.old ≡ 1) × (length lowest.old ≡ lowest_room)
        × IfOk opened (λ w. w ≡ error_set p.k p.d (coefs p.d (suc p.t) rows.now) (shares_of p.d m holders.now shares.now)) }
    ensures fault { fault_in result ≡ fault_in opened }
    ensures out { out.new ≡ kept (fault_in opened) out.old (take p.d (get_or rows.now 0 [])) }
    ensures wrong { wrong.new ≡ kept (fault_in opened) wrong.old (wrong_in opened ∷ []) }
    ensures lowest { lowest.new ≡ kept (fault_in opened) lowest.old
        (positions p.k p.d (coefs p.d (suc p.t) rows.now)
        (shares_of p.d m holders.now shares.now)) }
{
    let found = opened?;
    ring::store(p.d, out, 0, rows[0]);
    wrong[0] = found;
    lowest_bits(p, m, holders, shares, rows, found, lowest);
    Ok(())
}
