// One round of the search for a codeword: the polynomial through the first t + 1 shares is the one if few enough of the others differ from it. If
// not, one decoding over the field, at the lowest bit at which any share differs from it, names shares that differ from every codeword.
#![tactic(auto)]

ghost use Rattle.std.specs.Prelude.{◌≡◌, [], suc, ◌+◌, ◌*◌, ◌≤◌, take, replicate};
ghost use Rattle.polynomial.specs.Rows.{Shaped, coefs, reduce_rows};
ghost use Rattle.codewords.specs.Codeword.{error_set};
ghost use Rattle.codewords.specs.WellFormed.{InWidth, Holders};
ghost use Rattle.level.specs.Shares.{shares_of};
ghost use Rattle.rounds.specs.Found.{level_found, found_fault, round_fault};
ghost use Rattle.rounds.specs.Residues.{Through, bits_of_all};

// The shares that differ from a polynomial: the set of their holders, and every bit at which a word of one of them differs.
#[derive(Clone, Copy)]
struct Differing {
    set: u64,
    bits: u64,
}

// The holders whose shares one level finds wrong, and whether they are all that differ from the polynomial, which is then the codeword.
#[derive(Clone, Copy)]
pub struct Found {
    pub wrong: u64,
    pub all: bool,
}

// The first n rows set to zero.
fn clear_rows(n: usize, p: &mut [[u64; 6]; 64])
    requires { (n ≤ 64) × Shaped p.old }
    ensures { (take n p.new ≡ replicate n (replicate 6 0)) × Shaped p.new }
{
    for row in p[..n].iter_mut() {
        *row = [0; 6];
    }
}

// The first n rows of q, copied.
fn copy_rows(n: usize, q: &[[u64; 6]; 64], p: &mut [[u64; 6]; 64])
    requires { (n ≤ 64) × Shaped q.now × Shaped p.old }
    ensures { (take n p.new ≡ take n q.now) × Shaped p.new }
{
    p[..n].copy_from_slice(&q[..n]);
}

// The lowest k bits of the words of the first t + 1 rows.
fn reduce_rows(k: u64, t: usize, q: &mut [[u64; 6]; 64])
    requires { ((1 ≤ k) × (k ≤ 64)) × (t ≤ 62) × Shaped q.old }
    ensures { (take (suc t) q.new ≡ reduce_rows k (take (suc t) q.old)) × Shaped q.new }
{
    for row in q[..t + 1].iter_mut() {
        *row = ring::reduce(k, *row);
    }
}

// The polynomial through the first t + 1 shares, in q, whose first t + 2 rows are zero; nodal is room to work in.
fn interpolate(
    k: u64,
    d: usize,
    t: usize,
    hs: &[u64; 63],
    ys: &[[u64; 6]; 63],
    q: &mut [[u64; 6]; 64],
    nodal: &mut [[u64; 6]; 64],
)
    requires { ((1 ≤ k) × (k ≤ 64)) × ((2 ≤ d) × (d ≤ 6)) × (t ≤ 62)
        × Holders d (shares_of d (suc t) hs.now ys.now) × InWidth k d (shares_of d (suc t) hs.now ys.now)
        × Shaped q.old × (take (t + 2) q.old ≡ replicate (t + 2) (replicate 6 0)) × Shaped nodal.old }
    ensures { Through k d t (shares_of d (suc t) hs.now ys.now) q.new
        × Shaped q.new × Shaped nodal.new }
{
    // Interpolation starts from zero, which q is, and one: the first t + 2 rows of each, all that it looks at.
    clear_rows(t + 2, nodal);
    nodal[0] = [1, 0, 0, 0, 0, 0];
    for i in (0..t + 1).rev() {
        polynomial::extend(k, d, q, nodal, t - i, hs[i], ys[i]);
    }
    reduce_rows(k, t, q);
}

// The shares of which something is left: those that differ from zero, the polynomial with no coefficients. Nothing is left of the first n, which
// are not looked at.
fn compare(n: usize, m: usize, hs: &[u64; 63], rest: &[[u64; 6]; 64]) -> Differing
    requires { (n ≤ m) × (m ≤ 63) × Holders 6 (shares_of 6 m hs.now rest.now) × Shaped rest.now
        × (take n rest.now ≡ replicate n (replicate 6 0)) }
    ensures { (result.set ≡ error_set 64 6 [] (shares_of 6 m hs.now rest.now))
        × (result.bits ≡ bits_of_all (shares_of 6 m hs.now rest.now)) }
{
    let mut set: u64 = 0;
    let mut bits: u64 = 0;
    for i in (n..m).rev() {
        let b = comparison::gap(rest[i], [0; 6]);
        bits |= b;
        if b != 0 {
            set |= 1u64 << (hs[i] - 1);
        }
    }
    Differing { set, bits }
}

// One level, if there is a codeword within the error bound: what the polynomial p, which goes through the first t + 1 shares, leaves of the others;
// if more of them than e differ from it, the field decoder at the lowest bit at which any does. The first t + 1 rows of `rest` are zero: nothing is
// left of the shares that p goes through.
fn decode_level(
    k: u64,
    d: usize,
    p: [[u64; 6]; 64],
    t: usize,
    m: usize,
    hs: &[u64; 63],
    ys: &[[u64; 6]; 63],
    rest: &mut [[u64; 6]; 64],
    e: u64,
) -> Option<Found>
    requires { ((1 ≤ k) × (k ≤ 64)) × ((2 ≤ d) × (d ≤ 6)) × (t ≤ 62) × (m ≤ 63) × (suc t + 2 * e ≤ m)
        × Holders d (shares_of d m hs.now ys.now) × InWidth k d (shares_of d m hs.now ys.now)
        × Through k d t (shares_of d (suc t) hs.now ys.now) p
        × Shaped rest.old × (take (suc t) rest.old ≡ replicate (suc t) (replicate 6 0)) }
    ensures found { (result ≡ level_found k d t e (coefs d (suc t) p) (shares_of d m hs.now ys.now))
        × (found_fault result ≡ round_fault k d t e (coefs d (suc t) p) (shares_of d m hs.now ys.now)) }
    ensures rest { Shaped rest.new }
{
    level::residues(k, d, p, t, m, hs, ys, rest);
    let c = compare(t + 1, m, hs, rest);
    if u64::count_ones(c.set) as u64 <= e {
        return Some(Found {
            wrong: c.set,
            all: true,
        });
    }
    let v = u64::trailing_zeros(c.bits) as u64;
    let wrong = level::decide(d, v, t, m, hs, rest, e)?;
    Some(Found { wrong, all: false })
}

// One round: the polynomial through the first t + 1 shares, and what one level gives for it. The rows are room for interpolation and for what the
// polynomial leaves of the shares, and then hold the polynomial. It is made in an array of the round's own: with a lent one an opening took 2 to 3 %
// more instructions.
pub fn round(
    k: u64,
    d: usize,
    t: usize,
    m: usize,
    hs: &[u64; 63],
    ys: &[[u64; 6]; 63],
    e: u64,
    rows: &mut [[u64; 6]; 64],
) -> Option<Found>
    requires { ((1 ≤ k) × (k ≤ 64)) × ((2 ≤ d) × (d ≤ 6)) × (t ≤ 62) × (m ≤ 63) × (suc t + 2 * e ≤ m)
        × Holders d (shares_of d m hs.now ys.now) × InWidth k d (shares_of d m hs.now ys.now) × Shaped rows.old }
    ensures through { Through k d t (shares_of d (suc t) hs.now ys.now) rows.new }
    ensures found { result ≡ level_found k d t e (coefs d (suc t) rows.new) (shares_of d m hs.now ys.now) }
    ensures shaped { Shaped rows.new }
{
    let mut q = [[0u64; 6]; 64];
    interpolate(k, d, t, hs, ys, &mut q, rows);
    clear_rows(t + 1, rows);
    let found = decode_level(k, d, q, t, m, hs, ys, rows, e);
    copy_rows(t + 1, &q, rows);
    found
}
