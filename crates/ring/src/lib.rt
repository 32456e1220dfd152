// Elements of the Galois ring: d words of k bits, 2 to 6, in arrays of six with zeros after the d words.
#![tactic(auto)]

ghost use Rattle.std.specs.Prelude.{◌≡◌, cond, ◌∷◌, ◌++◌, ℕ, ◌+◌, ◌-◌, ◌^◌, ◌≤◌, ◌<◌, ltb, length, take, drop, get_or, slice_index};
ghost use Rattle.galois.specs.Element.{zip, sum, difference, held, lower, down_w, plus_w, add_scaled, product, point, reduce, inverse};
ghost use Rattle.galois.specs.Inversion.{fermat, newtons};

// The lower coefficients of the modulus by d, constant first. No modulus has fewer than two.
const LOWER: [[u64; 6]; 7] = [
    [0, 0, 0, 0, 0, 0],
    [0, 0, 0, 0, 0, 0],
    [1, 1, 0, 0, 0, 0],
    [1, 1, 0, 0, 0, 0],
    [1, 1, 0, 0, 0, 0],
    [1, 0, 1, 0, 0, 0],
    [1, 1, 0, 0, 0, 0],
];

// The row of d. A table is built anew wherever it is read, so its row is read once and handed on.
pub fn lower_of(d: usize) -> [u64; 6]
    requires { (2 ≤ d) × (d ≤ 6) }
    ensures { result ≡ held d (lower d) }
{
    LOWER[d]
}

// Six words, by the place of each.
#[inline(always)]
pub fn each_word<F: Fn(usize) -> u64>(word: F) -> [u64; 6]
    requires { (j : ℕ) → j < 6 → F.pre word j }
    ensures each { (j : ℕ) → j < 6 → F.post word j (slice_index result j) }
    ensures six { length result ≡ 6 }
{
    [word(0), word(1), word(2), word(3), word(4), word(5)]
}

// The sum, word by word, of all six.
pub fn sum(k: u64, a: [u64; 6], b: [u64; 6]) -> [u64; 6]
    requires { (1 ≤ k) × (k ≤ 64) }
    ensures { result ≡ sum k a b }
{
    each_word(|j| words::add(k, a[j], b[j]))
}

// The difference, word by word, of all six.
pub fn difference(k: u64, a: [u64; 6], b: [u64; 6]) -> [u64; 6]
    requires { (1 ≤ k) × (k ≤ 64) }
    ensures { result ≡ difference k a b }
{
    each_word(|j| words::sub(k, a[j], b[j]))
}

// X times r in words of 64 bits, over six words. What stands at d and above never comes down, and is not cleared here. Two of the modulus's
// lower coefficients are 1 and the others 0: the constant, and that of X, or of X squared where X has none.
fn shift(d: usize, low: [u64; 6], r: [u64; 6]) -> [u64; 6]
    requires { ((2 ≤ d) × (d ≤ 6)) × (low ≡ held d (lower d)) }
    ensures { result ≡ zip (down_w 64 (get_or r (d - 1) 0)) (0 ∷ r) low }
{
    let top = r[d - 1];
    let constant = words::sub(64, 0, top);
    if low[1] == 0 {
        let second = words::sub(64, r[1], top);
        return [constant, r[0], second, r[2], r[3], r[4]];
    }
    let first = words::sub(64, r[0], top);
    [constant, first, r[1], r[2], r[3], r[4]]
}

// w at a place j below d, and zero from there on.
fn below(d: usize, j: usize, w: u64) -> u64
    ensures { result ≡ cond (ltb j d) w 0 }
{
    if j < d {
        return w;
    }
    0
}

// The first d words, and zeros after them.
pub fn keep(d: usize, a: [u64; 6]) -> [u64; 6]
    requires { d ≤ 6 }
    ensures { result ≡ held d a }
{
    each_word(|j| below(d, j, a[j]))
}

// The lowest k bits of each word.
pub fn reduce(k: u64, a: [u64; 6]) -> [u64; 6]
    requires { (1 ≤ k) × (k ≤ 64) }
    ensures { result ≡ reduce k a }
{
    each_word(|j| words::low_bits(a[j], k))
}

// One word of a sum with a multiple, in 64 bits: x plus c times y.
fn plus(c: u64, x: u64, y: u64) -> u64
    ensures { result ≡ plus_w 64 c x y }
{
    words::add(64, x, words::mul(64, c, y))
}

// s plus the word c times b, in 64 bits.
fn add_scaled(c: u64, s: [u64; 6], b: [u64; 6]) -> [u64; 6]
    ensures { result ≡ add_scaled 64 c s b }
{
    each_word(|j| plus(c, s[j], b[j]))
}

// The same for c 0 or 1, with no product.
fn add_picked(c: u64, s: [u64; 6], b: [u64; 6]) -> [u64; 6]
    requires { c ≤ 1 }
    ensures { result ≡ add_scaled 64 c s b }
{
    if c == 0 {
        return s;
    }
    sum(64, s, b)
}

// a times b in words of 64 bits, by Horner's rule over the words of a from the top.
fn horner_by_words(d: usize, low: [u64; 6], a: [u64; 6], b: [u64; 6]) -> [u64; 6]
    requires { ((2 ≤ d) × (d ≤ 6)) × (low ≡ held d (lower d)) }
    ensures { result ≡ held d (product 64 (lower d) (take d a) (take d b)) }
{
    let mut r = [0u64; 6];
    for i in (0..d).rev() {
        let s = shift(d, low, r);
        r = add_scaled(a[i], s, b);
    }
    keep(d, r)
}

// The same. In each arm d and its row are constants, from which the compiler can make code for that d, with no loop and no tests.
fn product64(d: usize, a: [u64; 6], b: [u64; 6]) -> [u64; 6]
    requires { (2 ≤ d) × (d ≤ 6) }
    ensures { result ≡ held d (product 64 (lower d) (take d a) (take d b)) }
{
    words::specialized!(d, horner_by_words(d, lower_of(d), a, b))
}

// a times b: words of 64 bits, reduced once at the end.
pub fn product(k: u64, d: usize, a: [u64; 6], b: [u64; 6]) -> [u64; 6]
    requires { ((1 ≤ k) × (k ≤ 64)) × ((2 ≤ d) × (d ≤ 6)) }
    ensures { result ≡ held d (product k (lower d) (take d a) (take d b)) }
{
    reduce(k, product64(d, a, b))
}

// The point of holder i times a in words of 64 bits: a sum of those X^j a for which i has bit j. The first of them is taken by a product with
// the bit, which costs no test.
fn sum_by_bits(d: usize, low: [u64; 6], a: [u64; 6], i: u64) -> [u64; 6]
    requires { ((2 ≤ d) × (d ≤ 6)) × (low ≡ held d (lower d)) }
    ensures { result ≡ held d (product 64 (lower d) (point d i) (take d a)) }
{
    let mut r = add_scaled(i % 2, [0; 6], a);
    let mut p = a;
    for j in 1..d {
        let q = shift(d, low, p);
        p = q;
        let s = add_picked((i >> j) % 2, r, p);
        r = s;
    }
    keep(d, r)
}

// The same, with code for each d.
fn product64_by_point(d: usize, a: [u64; 6], i: u64) -> [u64; 6]
    requires { (2 ≤ d) × (d ≤ 6) }
    ensures { result ≡ held d (product 64 (lower d) (point d i) (take d a)) }
{
    words::specialized!(d, sum_by_bits(d, lower_of(d), a, i))
}

// The point of holder i times a.
pub fn product_by_point(k: u64, d: usize, a: [u64; 6], i: u64) -> [u64; 6]
    requires { ((1 ≤ k) × (k ≤ 64)) × ((2 ≤ d) × (d ≤ 6)) }
    ensures { result ≡ held d (product k (lower d) (point d i) (take d a)) }
{
    reduce(k, product64_by_point(d, a, i))
}

// a^(2^d - 2) in words of 64 bits, which modulo two is the inverse of what has one there.
fn fermat_by(d: usize, a: [u64; 6]) -> [u64; 6]
    requires { (2 ≤ d) × (d ≤ 6) }
    ensures { reduce 1 result ≡ held d (fermat d (take d a) (d - 2)) }
{
    let mut y = product64(d, a, a);
    for _ in 2..d {
        let z = product64(d, y, a);
        y = product64(d, z, z);
    }
    y
}

// The same, with code for each d.
fn fermat64(d: usize, a: [u64; 6]) -> [u64; 6]
    requires { (2 ≤ d) × (d ≤ 6) }
    ensures { reduce 1 result ≡ held d (fermat d (take d a) (d - 2)) }
{
    words::specialized!(d, fermat_by(d, a))
}

// Newton's steps, each of which doubles the bits of the inverse that are right, from 1 to k at least; in words of 64 bits. The first factor
// of a product is used word by word and then done with: with q there, fewer words have to be kept on the stack.
fn newton_by(k: u64, d: usize, a: [u64; 6], start: [u64; 6]) -> [u64; 6]
    requires { (k ≤ 64) × ((2 ≤ d) × (d ≤ 6)) × (start ≡ held d start) }
    ensures { (n : ℕ) × ((k ≤ 2 ^ n) × (result ≡ held d (newtons 64 d (take d a) (take d start) n))) }
{
    let mut y = start;
    let mut w = 1;
    while w < k {
        let q = difference(64, [2, 0, 0, 0, 0, 0], product64(d, a, y));
        let z = product64(d, q, y);
        y = z;
        w += w;
    }
    y
}

// The same, with code for each d.
fn newton64(k: u64, d: usize, a: [u64; 6], start: [u64; 6]) -> [u64; 6]
    requires { (k ≤ 64) × ((2 ≤ d) × (d ≤ 6)) × (start ≡ held d start) }
    ensures { (n : ℕ) × ((k ≤ 2 ^ n) × (result ≡ held d (newtons 64 d (take d a) (take d start) n))) }
{
    words::specialized!(d, newton_by(k, d, a, start))
}

// The inverse, or zero for what is zero modulo two: words of 64 bits, reduced at the end.
pub fn inverse_of(k: u64, d: usize, a: [u64; 6]) -> [u64; 6]
    requires { ((1 ≤ k) × (k ≤ 64)) × ((2 ≤ d) × (d ≤ 6)) }
    ensures { result ≡ held d (inverse k d (take d a)) }
{
    reduce(k, newton64(k, d, a, reduce(1, fermat64(d, a))))
}

// An element read from a lent list, from `at` on.
fn load_by(d: usize, s: &[u64], at: usize) -> [u64; 6]
    requires { (d ≤ 6) × (at + d ≤ length s.now) }
    ensures { result ≡ held d (drop at s.now) }
{
    let mut r = [0u64; 6];
    r[..d].copy_from_slice(&s[at..at + d]);
    r
}

// The same, with code for each d.
pub fn load(d: usize, s: &[u64], at: usize) -> [u64; 6]
    requires { ((2 ≤ d) × (d ≤ 6)) × (at + d ≤ length s.now) }
    ensures { result ≡ held d (drop at s.now) }
{
    words::specialized!(d, load_by(d, s, at))
}

// The d words of an element, into a lent list from `at` on.
fn store_by(d: usize, out: &mut [u64], at: usize, e: [u64; 6])
    requires { (d ≤ 6) × (at + d ≤ length out.old) }
    ensures { out.new ≡ take at out.old ++ take d e ++ drop (at + d) out.old }
{
    out[at..at + d].copy_from_slice(&e[..d]);
}

// The same, with code for each d.
pub fn store(d: usize, out: &mut [u64], at: usize, e: [u64; 6])
    requires { ((2 ≤ d) × (d ≤ 6)) × (at + d ≤ length out.old) }
    ensures { out.new ≡ take at out.old ++ take d e ++ drop (at + d) out.old }
{
    words::specialized!(d, store_by(d, out, at, e))
}
