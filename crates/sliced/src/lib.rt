// Elements of the field of 2^d elements, the ring at k = 1, 64 at a time in bit slices: six words, whose lane i is the element with bit i of
// word j for its word j. Lanes are read from the first d words.
#![tactic(auto)]

ghost use Rattle.std.specs.Prelude.{◌≡◌, true, ◌∷◌, ◌-◌, ◌*◌, ◌/◌, ◌%◌, ◌^◌, ◌≤◌, ◌<◌, length, get_or};
ghost use Rattle.words.specs.Word.{all_in_width};
ghost use Rattle.galois.specs.Element.{zip, held, lower, point};
ghost use Rattle.sliced.specs.Lane.{lane, plus_lanes, down_lane, plus_lane, times_lanes, spread_lane, support_of, under, slice_of, points_of};

// Every lane.
const ALL: u64 = 0xffff_ffff_ffff_ffff;

// The sum lane by lane.
pub fn plus(a: [u64; 6], b: [u64; 6]) -> [u64; 6]
    ensures { result ≡ plus_lanes a b }
{
    ring::each_word(|j| a[j] ^ b[j])
}

// One word of X times a slice: x, from the place below, plus the top word where the modulus has a coefficient m, 0 or 1.
fn down(top: u64, x: u64, m: u64) -> u64
    requires { m ≤ 1 }
    ensures { result ≡ down_lane top x m }
{
    x ^ (top & (m * ALL))
}

// X times r, over six words. What stands at d and above never comes down.
fn shift(d: usize, low: [u64; 6], r: [u64; 6]) -> [u64; 6]
    requires { ((2 ≤ d) × (d ≤ 6)) × (low ≡ held d (lower d)) }
    ensures { result ≡ zip (down_lane (get_or r (d - 1) 0)) (0 ∷ r) low }
{
    let top = r[d - 1];
    let up = [0, r[0], r[1], r[2], r[3], r[4]];
    ring::each_word(|j| down(top, up[j], low[j]))
}

// s plus the word c times b.
fn add_scaled(c: u64, s: [u64; 6], b: [u64; 6]) -> [u64; 6]
    ensures { result ≡ zip (plus_lane c) s b }
{
    ring::each_word(|j| s[j] ^ (c & b[j]))
}

// The product lane by lane, by Horner's rule over the words of a from the top.
fn times_by(d: usize, low: [u64; 6], a: [u64; 6], b: [u64; 6]) -> [u64; 6]
    requires { ((2 ≤ d) × (d ≤ 6)) × (low ≡ held d (lower d)) }
    ensures { result ≡ times_lanes d a b }
{
    let mut r = [0u64; 6];
    for i in (0..d).rev() {
        let s = shift(d, low, r);
        r = add_scaled(a[i], s, b);
    }
    ring::keep(d, r)
}

// The same. In each arm d and its row are constants, from which the compiler can make code for that d, with no loop and no tests.
pub fn times(d: usize, a: [u64; 6], b: [u64; 6]) -> [u64; 6]
    requires { (2 ≤ d) × (d ≤ 6) }
    ensures { result ≡ times_lanes d a b }
{
    words::specialized!(d, times_by(d, ring::lower_of(d), a, b))
}

// Bit i of w in every lane.
fn fill(w: u64, i: u64) -> u64
    requires { i < 64 }
    ensures { result ≡ w / 2 ^ i % 2 * (2 ^ 64 - 1) }
{
    (w >> i) % 2 * ALL
}

// Lane i in every lane.
pub fn spread(a: [u64; 6], i: u64) -> [u64; 6]
    requires { i < 64 }
    ensures { result ≡ spread_lane a i }
{
    ring::each_word(|j| fill(a[j], i))
}

// The set of the lanes that are not zero.
fn support_by(d: usize, a: [u64; 6]) -> u64
    requires { d ≤ 6 }
    ensures { result ≡ support_of d a }
{
    let w = ring::keep(d, a);
    w[0] | (w[1] | (w[2] | (w[3] | (w[4] | w[5]))))
}

// The same, with code for each d.
pub fn support(d: usize, a: [u64; 6]) -> u64
    requires { (2 ≤ d) × (d ≤ 6) }
    ensures { result ≡ support_of d a }
{
    words::specialized!(d, support_by(d, a))
}

// The bit x under the word w, whose bits move up one lane.
fn push(x: u64, w: u64) -> u64
    requires { (x ≤ 1) × (w < 2 ^ 63) }
    ensures { result ≡ under x w }
{
    x + 2 * w
}

// The element e in lane 0, and the elements of r each one lane up.
fn prepend(e: [u64; 6], r: [u64; 6]) -> [u64; 6]
    requires { (all_in_width 1 e ≡ true) × (all_in_width 63 r ≡ true) }
    ensures { (result ≡ zip under e r) × (length result ≡ 6) }
{
    ring::each_word(|j| push(e[j], r[j]))
}

// Bit v of each word.
fn bits_of(y: [u64; 6], v: u64) -> [u64; 6]
    requires { v < 64 }
    ensures { result ≡ lane 6 y v }
{
    ring::each_word(|j| (y[j] >> v) % 2)
}

// Bit v of the words of ys[i] in lane i, for each i below m; the lanes from m on are zero. That the slice has six words tells the caller that
// each row has.
pub fn slice(v: u64, m: usize, ys: &[[u64; 6]; 64]) -> [u64; 6]
    requires { (v < 64) × (m ≤ 63) × (m ≤ length ys.now) }
    ensures { (result ≡ slice_of v m ys.now) × (length result ≡ 6) }
{
    let mut r = [0u64; 6];
    for i in (0..m).rev() {
        let s = prepend(bits_of(ys[i], v), r);
        r = s;
    }
    r
}

// The point of holder i: word j is bit j of i.
fn point(i: u64) -> [u64; 6]
    ensures { result ≡ point 6 i }
{
    ring::each_word(|j| (i >> j) % 2)
}

// The point of holder hs[i] in lane i, for each i below m; the lanes from m on are zero.
pub fn points(m: usize, hs: &[u64; 63]) -> [u64; 6]
    requires { (m ≤ 63) × (m ≤ length hs.now) }
    ensures { result ≡ points_of m hs.now }
{
    let mut r = [0u64; 6];
    for i in (0..m).rev() {
        let s = prepend(point(hs[i]), r);
        r = s;
    }
    r
}
