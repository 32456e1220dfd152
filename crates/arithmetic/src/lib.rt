// The calls on lent elements: sum, product and inverse.
#![tactic(auto)]

ghost use Rattle.std.specs.Prelude.{◌≡◌, ◌≤◌, true, length, OnOk};
ghost use Rattle.words.specs.Params.{params_ok};
ghost use Rattle.words.specs.Refusal.{fault_in, kept};
ghost use Rattle.galois.specs.Element.{sum, lower, product, inverse};
ghost use Rattle.arithmetic.specs.Calls.{operand_fault, operands_fault};

use words::{Params, Refusal};

// Tests what is lent to a call with two operands and an output of n words. Words are read only where there are as many as there should be.
#[tactic(auto, using(words::proofs::Refusals::refusals), unfolding(crate::specs::Calls::operands_fault))]
fn check_operands(p: Params, a: &[u64], b: &[u64], n: usize) -> Result<(), Refusal>
    ensures fault { fault_in result ≡ operands_fault p a.now b.now n }
    ensures ok { OnOk result ((params_ok p ≡ true) × (length a.now ≡ p.d) × (length b.now ≡ p.d) × (n ≡ p.d)) }
{
    words::check_params(p)?;
    words::check_length(p.d, a.len())?;
    words::check_length(p.d, b.len())?;
    words::check_length(p.d, n)?;
    words::check_width(p.k, a)?;
    words::check_width(p.k, b)
}

// The sum of two lent elements.
#[tactic(auto, using(words::proofs::Refusals::refusals))]
pub fn add(p: Params, a: &[u64], b: &[u64], out: &mut [u64]) -> Result<(), Refusal>
    ensures { (fault_in result ≡ operands_fault p a.now b.now (length out.old))
        × (out.new ≡ kept (operands_fault p a.now b.now (length out.old))
        out.old (sum p.k a.now b.now)) }
{
    check_operands(p, a, b, out.len())?;
    let x = ring::load(p.d, a, 0);
    let y = ring::load(p.d, b, 0);
    ring::store(p.d, out, 0, ring::sum(p.k, x, y));
    Ok(())
}

// The product of two elements of d words, into a list of as many.
fn store_product_by(k: u64, d: usize, a: &[u64], b: &[u64], out: &mut [u64])
    requires { ((1 ≤ k) × (k ≤ 64)) × ((2 ≤ d) × (d ≤ 6)) × (length a.now ≡ d) × (length b.now ≡ d) × (length out.old ≡ d) }
    ensures { out.new ≡ product k (lower d) a.now b.now }
{
    let x = ring::load(d, a, 0);
    let y = ring::load(d, b, 0);
    ring::store(d, out, 0, ring::product(k, d, x, y));
}

// The same, with code for each d: one choice for loading, product and storing, so that no element has to stand in memory between them.
fn store_product(k: u64, d: usize, a: &[u64], b: &[u64], out: &mut [u64])
    requires { ((1 ≤ k) × (k ≤ 64)) × ((2 ≤ d) × (d ≤ 6)) × (length a.now ≡ d) × (length b.now ≡ d) × (length out.old ≡ d) }
    ensures { out.new ≡ product k (lower d) a.now b.now }
{
    words::specialized!(d, store_product_by(k, d, a, b, out))
}

// The product of two lent elements.
#[tactic(auto, using(words::proofs::Refusals::refusals))]
pub fn multiply(p: Params, a: &[u64], b: &[u64], out: &mut [u64]) -> Result<(), Refusal>
    ensures { (fault_in result ≡ operands_fault p a.now b.now (length out.old))
        × (out.new ≡ kept (operands_fault p a.now b.now (length out.old))
        out.old (product p.k (lower p.d) a.now b.now)) }
{
    check_operands(p, a, b, out.len())?;
    store_product(p.k, p.d, a, b, out);
    Ok(())
}

// The inverse of a lent element, or zero where it has none.
#[tactic(auto, using(words::proofs::Refusals::refusals))]
pub fn invert(p: Params, a: &[u64], out: &mut [u64]) -> Result<(), Refusal>
    ensures { (fault_in result ≡ operand_fault p a.now (length out.old))
        × (out.new ≡ kept (operand_fault p a.now (length out.old))
        out.old (inverse p.k p.d a.now)) }
{
    check_operands(p, a, a, out.len())?;
    let x = ring::load(p.d, a, 0);
    ring::store(p.d, out, 0, ring::inverse_of(p.k, p.d, x));
    Ok(())
}
