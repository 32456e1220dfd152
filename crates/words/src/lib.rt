// Words of k bits, 1 to 64, held in a u64; the parameters of an archive; refusals.
#![tactic(auto)]

ghost use Rattle.std.specs.Prelude.{◌≡◌, ◌+◌, ◌*◌, ◌%◌, ◌^◌, ◌<◌, ◌≤◌, [], ◌∷◌, length, true, OnOk};
ghost use Rattle.words.specs.Word.{add_w, sub_w, mul_w, in_width, all_in_width};
ghost use Rattle.words.specs.Params.{params_ok};
ghost use Rattle.words.specs.Refusal.{number_of, fault_in, unless, kept};
ghost use Rattle.words.specs.Faults.{params_fault, length_fault, width_fault, bits_ok, signed_fault};
ghost use Rattle.words.specs.Signed.{signed_of, twos_complement};

// Why a call declines.
#[derive(Clone, Copy, Debug, PartialEq, Eq)]
pub enum Refusal {
    Parameters,
    Length,
    WideWord,
    Holder,
    TooFewShares,
    NoCodeword,
    Malformed,
    Mismatched,
    OutOfRange,
    DeskClosed,
    Text,
}

impl Refusal {
    // Its number in C and in what the programs print.
    pub fn number(self) -> u8
        ensures { result ≡ number_of self }
    {
        match self {
            Refusal::Parameters => 1,
            Refusal::Length => 2,
            Refusal::WideWord => 3,
            Refusal::Holder => 4,
            Refusal::TooFewShares => 5,
            Refusal::NoCodeword => 6,
            Refusal::Malformed => 7,
            Refusal::Mismatched => 8,
            Refusal::OutOfRange => 9,
            Refusal::DeskClosed => 10,
            Refusal::Text => 11,
        }
    }
}

// The parameters of an archive (paper 01: a book): bits of a word, words of an element, holders, degree.
#[derive(Clone, Copy, Debug, PartialEq, Eq)]
pub struct Params {
    pub k: u64,
    pub d: usize,
    pub n: usize,
    pub t: usize,
}

// A word as sign and magnitude.
#[derive(Clone, Copy)]
pub struct Signed {
    pub negative: bool,
    pub magnitude: u64,
}

// What the expression gives, whose d is 2 to 6. In each arm d is a constant, from which the compiler can make code for that d, with no loop over d
// and no tests. A function that takes a closure stood here too: a closure with a loop is not copied into the arms, and a product took twice the
// instructions.
#[macro_export]
macro_rules! specialized {
    ($d:ident, $code:expr) => {
        match $d {
            2 => {
                let $d = 2;
                $code
            }
            3 => {
                let $d = 3;
                $code
            }
            4 => {
                let $d = 4;
                $code
            }
            5 => {
                let $d = 5;
                $code
            }
            _ => {
                let $d = 6;
                $code
            }
        }
    };
}

// Whether parameters are in their ranges.
#[tactic(auto, unfolding(crate::specs::Params::params_ok))]
pub fn params_ok(p: Params) -> bool
    ensures { result ≡ params_ok p }
{
    1 <= p.k && p.k <= 64 && 2 <= p.d && p.d <= 6 && 1 <= p.n && p.n < 1 << p.d && p.t < p.n
}

// The product modulo 2^64, from halves of 32 bits: what the upper halves give together is lost.
pub fn mul64(a: u64, b: u64) -> u64
    ensures { result ≡ (a * b) % 2 ^ 64 }
{
    let al = a & 0xffff_ffff;
    let ah = a >> 32;
    let bl = b & 0xffff_ffff;
    let bh = b >> 32;
    let mid = std::num::wrapping_add_u64(al * bh, ah * bl);
    std::num::wrapping_add_u64(mid << 32, al * bl)
}

// The lowest k bits.
pub fn low_bits(x: u64, k: u64) -> u64
    requires { (1 ≤ k) × (k ≤ 64) }
    ensures { result ≡ x % 2 ^ k }
{
    let s = 64 - k;
    (x << s) >> s
}

pub fn add(k: u64, a: u64, b: u64) -> u64
    requires { (1 ≤ k) × (k ≤ 64) }
    ensures { result ≡ add_w k a b }
{
    low_bits(std::num::wrapping_add_u64(a, b), k)
}

pub fn sub(k: u64, a: u64, b: u64) -> u64
    requires { (1 ≤ k) × (k ≤ 64) }
    ensures { result ≡ sub_w k a b }
{
    low_bits(std::num::wrapping_sub_u64(a, b), k)
}

pub fn mul(k: u64, a: u64, b: u64) -> u64
    requires { (1 ≤ k) × (k ≤ 64) }
    ensures { result ≡ mul_w k a b }
{
    low_bits(mul64(a, b), k)
}

// Whether a word is below 2^k, for every k.
pub fn in_width(k: u64, w: u64) -> bool
    ensures { result ≡ in_width k w }
{
    64 <= k || w >> k == 0
}

// Whether all words of a list are: all of them together are, bit by bit.
pub fn all_in_width(k: u64, s: &[u64]) -> bool
    ensures { result ≡ all_in_width k s.now }
{
    let mut seen: u64 = 0;
    for w in s {
        seen |= *w;
    }
    in_width(k, seen)
}

// The signed reading of a word: its top bit is the sign.
pub fn read_signed(k: u64, w: u64) -> Signed
    requires { ((1 ≤ k) × (k ≤ 64)) × (w < 2 ^ k) }
    ensures { result ≡ signed_of k w }
{
    if w >> (k - 1) == 0 {
        return Signed {
            negative: false,
            magnitude: w,
        };
    }
    Signed {
        negative: true,
        magnitude: sub(k, 0, w),
    }
}

// ---- refusals: each test that a call makes gives its own, and `?` hands out the first

// The number of a call that may decline: 0 where it does not.
pub fn fault_number<T: Copy>(outcome: Result<T, Refusal>) -> u8
    ensures { result ≡ fault_in outcome }
{
    match outcome {
        Ok(_) => 0,
        Err(refusal) => refusal.number(),
    }
}

// A refusal unless a test holds.
pub fn unless(holds: bool, refusal: Refusal) -> Result<(), Refusal>
    ensures fault { fault_in result ≡ unless holds (number_of refusal) }
    ensures ok { OnOk result (holds ≡ true) }
{
    if holds { Ok(()) } else { Err(refusal) }
}

#[tactic(auto, unfolding(crate::specs::Faults::params_fault))]
pub fn check_params(p: Params) -> Result<(), Refusal>
    ensures fault { fault_in result ≡ params_fault p }
    ensures ok { OnOk result (params_ok p ≡ true) }
{
    unless(params_ok(p), Refusal::Parameters)
}

// A lent list or output of n words, or bytes, where a call needs so many.
#[tactic(auto, unfolding(crate::specs::Faults::length_fault))]
pub fn check_length(needed: usize, n: usize) -> Result<(), Refusal>
    ensures fault { fault_in result ≡ length_fault needed n }
    ensures ok { OnOk result (n ≡ needed) }
{
    unless(n == needed, Refusal::Length)
}

#[tactic(auto, unfolding(crate::specs::Faults::width_fault))]
pub fn check_width(k: u64, s: &[u64]) -> Result<(), Refusal>
    ensures fault { fault_in result ≡ width_fault k s.now }
    ensures ok { OnOk result (all_in_width k s.now ≡ true) }
{
    unless(all_in_width(k, s), Refusal::WideWord)
}

// ---- the call that reads a word as a signed number

// Whether words may have so many bits.
#[tactic(auto, unfolding(crate::specs::Faults::bits_ok))]
fn bits_ok(k: u64) -> bool
    ensures { result ≡ bits_ok k }
{
    1 <= k && k <= 64
}

// The signed reading of a word in width, in two's complement.
fn twos_complement(k: u64, w: u64) -> u64
    requires { ((1 ≤ k) × (k ≤ 64)) × (w < 2 ^ k) }
    ensures { result ≡ twos_complement (signed_of k w) }
{
    let s = read_signed(k, w);
    if s.negative {
        return 0xffff_ffff_ffff_ffff - (s.magnitude - 1);
    }
    s.magnitude
}

// The signed reading of a word, in two's complement, into an output of one word.
#[tactic(auto, using(crate::proofs::Refusals::refusals), unfolding(crate::specs::Faults::signed_fault, crate::specs::Faults::bits_ok))]
pub fn signed_into(k: u64, w: u64, out: &mut [u64]) -> Result<(), Refusal>
    ensures { (fault_in result ≡ signed_fault k w (length out.old))
        × (out.new ≡ kept (signed_fault k w (length out.old)) out.old (twos_complement (signed_of k w) ∷ [])) }
{
    unless(bits_ok(k), Refusal::Parameters)?;
    check_length(1, out.len())?;
    unless(in_width(k, w), Refusal::WideWord)?;
    out[0] = twos_complement(k, w);
    Ok(())
}
