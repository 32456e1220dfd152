// What a polynomial leaves of shares, and the field decoder: which shares differ from the codeword of one bit of them.
//
// Shares are two arrays, of holders and of elements, of which the first m count. No polynomial over the field is formed: of each the values
// at the shares' points are kept, those of all shares at once, in bit slices, lane i for share i. The key equation of Welch and Berlekamp is
// solved share by share: two pairs of polynomials (a, b) with a(x) + b(x) y zero at each share taken in. Minus is plus. Slices are lent, and
// changed in place by one operation, `turn`, for the key equation and the interpolation alike.
#![tactic(auto)]

ghost use Rattle.std.specs.Prelude.{◌≡◌, map, suc, ◌+◌, ◌*◌, ◌≤◌, ◌<◌, leb, length, take};
ghost use Rattle.algebra.specs.KeyEquation.{pivot};
ghost use Rattle.galois.specs.Element.{held};
ghost use Rattle.polynomial.specs.Rows.{coefs};
ghost use Rattle.codewords.specs.Codeword.{codeword};
ghost use Rattle.codewords.specs.Opening.{fault_of, from_codeword};
ghost use Rattle.codewords.specs.Residue.{residue, bit_share};
ghost use Rattle.codewords.specs.WellFormed.{Holders};
ghost use Rattle.sliced.specs.Lane.{times_lanes, spread_lane, support_of};
ghost use Rattle.level.specs.Level.{level_of, level_fault};
ghost use Rattle.level.specs.Shares.{share, shares_of, Sized, Numbered, holder_set, residue_rows};
ghost use Rattle.level.specs.KeyEquation.{pairs_of, lead_of, zero_at, mix_lanes, root_lanes, step_lanes, start_lanes, run_lanes};
ghost use Rattle.level.specs.Interpolation.{newton_of, trust_lanes, start_newton, gather_lanes};

// The degrees of the key equation's two pairs.
#[derive(Clone, Copy)]
struct Degrees {
    first: usize,
    second: usize,
}

// Which pair is multiplied.
#[derive(Clone, Copy)]
enum Lead {
    Neither,
    First,
    Second,
}

// What the polynomial p leaves of holder x's share y.
fn residue(k: u64, d: usize, p: [[u64; 6]; 64], t: usize, x: u64, y: [u64; 6]) -> [u64; 6]
    requires { ((1 ≤ k) × (k ≤ 64)) × ((2 ≤ d) × (d ≤ 6)) × (t ≤ 62) }
    ensures { result ≡ held d (residue k d (coefs d (suc t) p) (share x (take d y))) }
{
    let v = polynomial::eval(k, d, p, t + 1, x);
    ring::keep(d, ring::difference(k, y, v))
}

// The same of the shares after the first t + 1, each in its row of `rest`: p goes through the first t + 1, and of these nothing is left.
pub fn residues(
    k: u64,
    d: usize,
    p: [[u64; 6]; 64],
    t: usize,
    m: usize,
    hs: &[u64; 63],
    ys: &[[u64; 6]; 63],
    rest: &mut [[u64; 6]; 64],
)
    requires { ((1 ≤ k) × (k ≤ 64)) × ((2 ≤ d) × (d ≤ 6)) × (t ≤ 62) × (m ≤ 63) × (suc t ≤ m)
        × (length rest.old ≡ 64) }
    ensures { rest.new ≡ residue_rows k d (coefs d (suc t) p) (suc t) (shares_of d m hs.now ys.now)
        rest.old }
{
    for i in t + 1..m {
        rest[i] = residue(k, d, p, t, hs[i], ys[i]);
    }
}

// Whether lane i is zero.
fn zero_at(d: usize, a: [u64; 6], i: u64) -> bool
    requires { ((2 ≤ d) × (d ≤ 6)) × (i < 64) }
    ensures { result ≡ zero_at d a i }
{
    (sliced::support(d, a) >> i) % 2 == 0
}

// p becomes w p, and o becomes c o - e p. With w zero at a share, and c and e the values of p and o there, both are zero there.
fn turn_by(d: usize, w: [u64; 6], c: [u64; 6], e: [u64; 6], p: &mut [u64; 6], o: &mut [u64; 6])
    requires { (2 ≤ d) × (d ≤ 6) }
    ensures { (p.new ≡ times_lanes d w p.old) × (o.new ≡ mix_lanes d c o.old e p.old) }
{
    let a = *p;
    let b = *o;
    *p = sliced::times(d, w, a);
    *o = sliced::plus(sliced::times(d, c, b), sliced::times(d, e, a));
}

// The same, with code for each d.
fn turn(d: usize, w: [u64; 6], c: [u64; 6], e: [u64; 6], p: &mut [u64; 6], o: &mut [u64; 6])
    requires { (2 ≤ d) × (d ≤ 6) }
    ensures { (p.new ≡ times_lanes d w p.old) × (o.new ≡ mix_lanes d c o.old e p.old) }
{
    words::specialized!(d, turn_by(d, w, c, e, p, o))
}

// The pair of the lower degree is multiplied, if its gap is not zero.
fn choose(z0: bool, z1: bool, d0: usize, d1: usize) -> Lead
    ensures { result ≡ lead_of (pivot z0 z1 (leb d0 d1)) }
{
    if z0 {
        if z1 {
            return Lead::Neither;
        }
        return Lead::Second;
    }
    if z1 {
        return Lead::First;
    }
    if d0 <= d1 {
        return Lead::First;
    }
    Lead::Second
}

// The pair of vp and bp is multiplied by Z - x, x being share i's point, and a multiple of it is taken off that of vo and bo: then both are
// zero there.
fn raise(
    d: usize,
    xs: [u64; 6],
    i: u64,
    vp: &mut [u64; 6],
    bp: &mut [u64; 6],
    vo: &mut [u64; 6],
    bo: &mut [u64; 6],
)
    requires { ((2 ≤ d) × (d ≤ 6)) × (i < 64) }
    ensures { (vp.new ≡ times_lanes d (root_lanes xs i) vp.old)
        × (bp.new ≡ times_lanes d (root_lanes xs i) bp.old)
        × (vo.new ≡ mix_lanes d (spread_lane vp.old i) vo.old (spread_lane vo.old i) vp.old)
        × (bo.new ≡ mix_lanes d (spread_lane vp.old i) bo.old (spread_lane vo.old i) bp.old) }
{
    let w = sliced::plus(xs, sliced::spread(xs, i));
    let c = sliced::spread(*vp, i);
    let e = sliced::spread(*vo, i);
    turn(d, w, c, e, vp, vo);
    turn(d, w, c, e, bp, bo);
}

// Takes share i into the key equation's pairs, whose slices and degrees are those of `Pairs` in specs/KeyEquation.
fn step(
    d: usize,
    xs: [u64; 6],
    i: u64,
    g: Degrees,
    v0: &mut [u64; 6],
    b0: &mut [u64; 6],
    v1: &mut [u64; 6],
    b1: &mut [u64; 6],
) -> Degrees
    requires { ((2 ≤ d) × (d ≤ 6)) × (i < 64) × (g.first ≤ 125) × (g.second ≤ 125) }
    ensures { pairs_of result v0.new b0.new v1.new b1.new
        ≡ step_lanes d xs i (pairs_of g v0.old b0.old v1.old b1.old) }
{
    let l = choose(zero_at(d, *v0, i), zero_at(d, *v1, i), g.first, g.second);
    match l {
        Lead::Neither => g,
        Lead::First => {
            raise(d, xs, i, v0, b0, v1, b1);
            Degrees {
                first: g.first + 1,
                second: g.second,
            }
        }
        Lead::Second => {
            raise(d, xs, i, v1, b1, v0, b0);
            Degrees {
                first: g.first,
                second: g.second + 1,
            }
        }
    }
}

// The shares at which the error locator, the second pair's b, is not zero once all are taken in: those that are trusted.
fn locate(d: usize, xs: [u64; 6], ys: [u64; 6], t: usize, m: usize) -> u64
    requires { ((2 ≤ d) × (d ≤ 6)) × (t ≤ 62) × (m ≤ 63) }
    ensures { result ≡ support_of d (run_lanes d xs (start_lanes ys t) m m).b1 }
{
    let mut v0 = sliced::spread([1, 0, 0, 0, 0, 0], 0);
    let mut b0 = [0u64; 6];
    let mut v1 = ys;
    let mut b1 = sliced::spread([1, 0, 0, 0, 0, 0], 0);
    let mut g = Degrees {
        first: 0,
        second: t,
    };
    for i in (0..m as u64).rev() {
        g = step(d, xs, i, g, &mut v0, &mut b0, &mut v1, &mut b1);
    }
    sliced::support(d, b1)
}

// Takes share i into the interpolation if it is trusted, unless t + 1 are in. The slices are those of `Newton` in specs/Interpolation; n
// shares are in, and what is returned is how many are in then.
fn trust(
    d: usize,
    xs: [u64; 6],
    t: usize,
    trusted: u64,
    i: u64,
    n: usize,
    gap: &mut [u64; 6],
    nodal: &mut [u64; 6],
) -> usize
    requires { ((2 ≤ d) × (d ≤ 6)) × (t ≤ 62) × (i < 64) }
    ensures { newton_of result gap.new nodal.new
        ≡ trust_lanes d xs t trusted i (newton_of n gap.old nodal.old) }
{
    if t < n {
        return n;
    }
    if (trusted >> i) % 2 == 0 {
        return n;
    }
    let w = sliced::plus(xs, sliced::spread(xs, i));
    let c = sliced::spread(*nodal, i);
    let e = sliced::spread(*gap, i);
    turn(d, w, c, e, nodal, gap);
    n + 1
}

// Interpolates through t + 1 trusted shares, or all of those if there are fewer, and returns how many they are. `gap` has the shares' values
// before, and their gaps after.
fn gather(d: usize, xs: [u64; 6], t: usize, m: usize, trusted: u64, gap: &mut [u64; 6]) -> usize
    requires { ((2 ≤ d) × (d ≤ 6)) × (t ≤ 62) × (m ≤ 63) }
    ensures { (result ≡ (gather_lanes d xs t trusted (start_newton gap.old) m m).n)
        × (gap.new ≡ (gather_lanes d xs t trusted (start_newton gap.old) m m).gap) }
{
    let mut nodal = sliced::spread([1, 0, 0, 0, 0, 0], 0);
    let mut n = 0;
    for i in (0..m as u64).rev() {
        n = trust(d, xs, t, trusted, i, n, gap, &mut nodal);
    }
    n
}

// The set of the holders of the shares in a set of lanes, bit h - 1 for holder h.
fn holder_set(lanes: u64, m: usize, hs: &[u64; 63]) -> u64
    requires { (m ≤ 63) × Numbered m hs.now }
    ensures { result ≡ holder_set lanes hs.now 0 m }
{
    let mut w: u64 = 0;
    for i in (0..m).rev() {
        if (lanes >> i) % 2 == 1 {
            w |= 1u64 << (hs[i] - 1);
        }
    }
    w
}

// The field decoder at bit v of the shares: the set of the holders whose shares differ from the codeword, if there is one within the error bound.
pub fn decide(
    d: usize,
    v: u64,
    t: usize,
    m: usize,
    hs: &[u64; 63],
    rest: &[[u64; 6]; 64],
    e: u64,
) -> Option<u64>
    requires { ((2 ≤ d) × (d ≤ 6)) × (v < 64) × (t ≤ 62) × (m ≤ 63)
        × Holders d (shares_of d m hs.now rest.now) × Sized d (shares_of d m hs.now rest.now) × (suc t + 2 * e ≤ m) }
    ensures level { result ≡ level_of d (map (bit_share v) (shares_of d m hs.now rest.now))
        (codeword 1 d t e (map (bit_share v) (shares_of d m hs.now rest.now))) }
    ensures number { level_fault result
        ≡ fault_of (from_codeword (codeword 1 d t e (map (bit_share v) (shares_of d m hs.now rest.now)))) }
{
    let y = sliced::slice(v, m, rest);
    let x = sliced::points(m, hs);
    let trusted = locate(d, x, y, t, m);
    let mut gap = y;
    let n = gather(d, x, t, m, trusted, &mut gap);
    if n <= t {
        return None;
    }
    let wrong = holder_set(sliced::support(d, gap), m, hs);
    if u64::count_ones(wrong) as u64 <= e {
        return Some(wrong);
    }
    None
}
