// Polynomials of elements in arrays of 64 rows, free term first; a row is an element in an array of six.
#![tactic(auto)]

ghost use Rattle.std.specs.Prelude.{◌≡◌, ◌+◌, ◌≤◌, take};
ghost use Rattle.galois.specs.Element.{held, point};
ghost use Rattle.polynomial.specs.Polynomial.{value};
ghost use Rattle.polynomial.specs.Rows.{Shaped, coefs, subtract_rows, root_rows, extend_rows, reduce_rows};

// The value at holder x's point of the polynomial of the first len rows, in words of 64 bits: Horner's rule
// from the last row down, shifts and sums only.
fn horner(d: usize, p: &[[u64; 6]; 64], len: usize, x: u64) -> [u64; 6]
    requires { ((2 ≤ d) × (d ≤ 6)) × (len ≤ 64) × Shaped p.now }
    ensures { result ≡ held d (value 64 d (coefs d len p.now) (point d x)) }
{
    if len == 0 {
        return [0; 6];
    }
    let last = len - 1;
    let mut r = p[last];
    for i in (0..last).rev() {
        let s = ring::product_by_point(64, d, r, x);
        r = ring::sum(64, p[i], s);
    }
    ring::keep(d, r)
}

// The same for d 4, in a function of its own: the compiler takes the tests of the holder's bits out of a loop only in a function that has few loops.
fn horner_of_four(p: &[[u64; 6]; 64], len: usize, x: u64) -> [u64; 6]
    requires { (len ≤ 64) × Shaped p.now }
    ensures { result ≡ held 4 (value 64 4 (coefs 4 len p.now) (point 4 x)) }
{
    horner(4, p, len, x)
}

// The same, with a loop for each d.
fn eval64(d: usize, p: &[[u64; 6]; 64], len: usize, x: u64) -> [u64; 6]
    requires { ((2 ≤ d) × (d ≤ 6)) × (len ≤ 64) × Shaped p.now }
    ensures { result ≡ held d (value 64 d (coefs d len p.now) (point d x)) }
{
    if d == 4 {
        return horner_of_four(p, len, x);
    }
    words::specialized!(d, horner(d, p, len, x))
}

// The value at holder x's point of the polynomial of the first len rows.
pub fn eval(k: u64, d: usize, p: [[u64; 6]; 64], len: usize, x: u64) -> [u64; 6]
    requires { ((1 ≤ k) × (k ≤ 64)) × ((2 ≤ d) × (d ≤ 6)) × (len ≤ 64) }
    ensures { result ≡ held d (value k d (coefs d len p) (point d x)) }
{
    eval_lent(k, d, &p, len, x)
}

// The same of a polynomial in lent rows: words of 64 bits, reduced once at the end.
pub fn eval_lent(k: u64, d: usize, p: &[[u64; 6]; 64], len: usize, x: u64) -> [u64; 6]
    requires { ((1 ≤ k) × (k ≤ 64)) × ((2 ≤ d) × (d ≤ 6)) × (len ≤ 64) × Shaped p.now }
    ensures { result ≡ held d (value k d (coefs d len p.now) (point d x)) }
{
    ring::reduce(k, eval64(d, p, len, x))
}

// p := p - e q in words of 64 bits, in the first len rows.
fn subtract_by(d: usize, p: &mut [[u64; 6]; 64], e: [u64; 6], q: &[[u64; 6]; 64], len: usize)
    requires { ((2 ≤ d) × (d ≤ 6)) × (len ≤ 64) × Shaped p.old × Shaped q.now }
    ensures { p.new ≡ subtract_rows 64 d len p.old (take d e) q.now }
{
    for i in 0..len {
        let v = ring::product(64, d, e, q[i]);
        p[i] = ring::keep(d, ring::difference(64, p[i], v));
    }
}

// The same, with code for each d.
fn subtract_multiple(d: usize, p: &mut [[u64; 6]; 64], e: [u64; 6], q: &[[u64; 6]; 64], len: usize)
    requires { ((2 ≤ d) × (d ≤ 6)) × (len ≤ 64) × Shaped p.old × Shaped q.now }
    ensures { p.new ≡ subtract_rows 64 d len p.old (take d e) q.now }
{
    words::specialized!(d, subtract_by(d, p, e, q, len))
}

// p := (Z - x) p in words of 64 bits, in the first len rows, x being holder x's point.
fn root_by(d: usize, p: &mut [[u64; 6]; 64], x: u64, len: usize)
    requires { ((2 ≤ d) × (d ≤ 6)) × (len ≤ 64) × Shaped p.old }
    ensures { p.new ≡ root_rows 64 d len (point d x) p.old }
{
    let mut below = [0u64; 6];
    for i in 0..len {
        let c = p[i];
        let v = ring::product_by_point(64, d, c, x);
        p[i] = ring::keep(d, ring::difference(64, below, v));
        below = c;
    }
}

// The same, with code for each d.
fn root(d: usize, p: &mut [[u64; 6]; 64], x: u64, len: usize)
    requires { ((2 ≤ d) × (d ≤ 6)) × (len ≤ 64) × Shaped p.old }
    ensures { p.new ≡ root_rows 64 d len (point d x) p.old }
{
    words::specialized!(d, root_by(d, p, x, len))
}

// One share more in Newton's interpolation: q goes through len shares, and nodal is the product of the Z - x over their points. After it
// both have holder x's share y too. Words of 64 bits, of which the lowest k count; only the inverse is taken at k bits.
pub fn extend(
    k: u64,
    d: usize,
    q: &mut [[u64; 6]; 64],
    nodal: &mut [[u64; 6]; 64],
    len: usize,
    x: u64,
    y: [u64; 6],
)
    requires { ((1 ≤ k) × (k ≤ 64)) × ((2 ≤ d) × (d ≤ 6)) × (len ≤ 62) × Shaped q.old × Shaped nodal.old }
    ensures { (reduce_rows k q.new
        ≡ extend_rows k d len (reduce_rows k q.old) (reduce_rows k nodal.old) (point d x) (take d y))
        × (reduce_rows k nodal.new ≡ root_rows k d (len + 2) (point d x) (reduce_rows k nodal.old))
        × Shaped q.new × Shaped nodal.new }
{
    let v = eval64(d, q, len, x);
    let w = eval64(d, nodal, len + 1, x);
    let i = ring::inverse_of(k, d, w);
    let c = ring::product(64, d, ring::difference(64, v, y), i);
    subtract_multiple(d, q, c, nodal, len + 1);
    root(d, nodal, x, len + 2);
}
