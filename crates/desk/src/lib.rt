// A desk that limits openings of one job by its place (paper 02, K5). Functions over numbers and slices decide everything; those over a lent record
// read it, make one call, and store what that gave.
#![tactic(auto)]

ghost use Rattle.std.specs.Prelude.{◌≡◌, [], ◌∷◌, ◌+◌, length, IfOk, MatchResult};
ghost use Rattle.words.specs.Refusal.{fault_in, first, kept};
ghost use Rattle.codewords.specs.Opening.{fault_of, secret_into, wrong_into, lowest_into};
ghost use Rattle.bundle.specs.Bundle.{params_of};
ghost use Rattle.archive.specs.Archive.{shares_at};
ghost use Rattle.desk.specs.Desk.{allowance_fault, closed_fault, count_after, desk_opening, desk_after, start_after};
ghost use Rattle.desk.specs.Lent.{lent_opening, record_into, lent_start_fault};

use words::Refusal;

// The most openings that a month may be allowed.
pub const LARGEST_ALLOWANCE: u64 = 1000;

// How many openings are allowed, and how many gave words since the start.
#[derive(Clone, Copy)]
pub struct Desk {
    pub allowance: u64,
    pub count: u64,
}

// An allowance in its range.
#[tactic(auto, unfolding(crate::specs::Desk::allowance_fault))]
fn check_allowance(q: u64) -> Result<(), Refusal>
    ensures { fault_in result ≡ allowance_fault q }
{
    words::unless(q <= LARGEST_ALLOWANCE, Refusal::Parameters)
}

// One step of a desk, at the outcome that the opening has so far: that refusal, or that of a desk that is closed, or the count after one opening more.
#[tactic(auto, using(words::proofs::Refusals::refusals), unfolding(crate::specs::Desk::closed_fault))]
pub fn step<T: Copy>(limit: u64, count: u64, ahead: Result<T, Refusal>) -> Result<u64, Refusal>
    ensures fault { fault_in result ≡ first (fault_in ahead) (closed_fault limit count) }
    ensures count { MatchResult result (λ n. n ≡ count + 1)
        (λ _. count ≡ kept (first (fault_in ahead) (closed_fault limit count)) count (count + 1)) }
{
    ahead?;
    words::unless(count < limit, Refusal::DeskClosed)?;
    Ok(count + 1)
}

// Opens the job at a place through a desk whose two numbers are given; the count after it. Where it declines the count stays.
#[tactic(auto, using(words::proofs::Refusals::refusals, archive::proofs::Calls::opened, crate::proofs::Laws::counted), unfolding(crate::specs::Desk::desk_opening, crate::specs::Desk::desk_fault))]
pub fn open_by(
    allowance: u64,
    count: u64,
    bytes: &[u8],
    place: usize,
    out: &mut [u64],
    wrong: &mut [u64],
    lowest: &mut [u8],
) -> Result<u64, Refusal>
    ensures fault { fault_in result ≡ fault_of (desk_opening allowance count bytes.now place
        (length out.old) (length wrong.old) (length lowest.old)) }
    ensures count { MatchResult result (λ n. n ≡ count_after count (desk_opening allowance count bytes.now place
        (length out.old) (length wrong.old) (length lowest.old)))
        (λ _. count ≡ count_after count (desk_opening allowance count bytes.now place
        (length out.old) (length wrong.old) (length lowest.old))) }
    ensures out { out.new ≡ secret_into out.old (desk_opening allowance count bytes.now place
        (length out.old) (length wrong.old) (length lowest.old)) }
    ensures wrong { wrong.new ≡ wrong_into (params_of bytes.now).k (params_of bytes.now).d (shares_at bytes.now place)
        wrong.old (desk_opening allowance count bytes.now place
        (length out.old) (length wrong.old) (length lowest.old)) }
    ensures lowest { lowest.new ≡ lowest_into (params_of bytes.now).k (params_of bytes.now).d (shares_at bytes.now place)
        lowest.old (desk_opening allowance count bytes.now place
        (length out.old) (length wrong.old) (length lowest.old)) }
{
    check_allowance(allowance)?;
    let accepted = archive::accept_place(bytes, place, out.len(), wrong.len(), lowest.len());
    let after = step(allowance, count, accepted)?;
    archive::open_accepted(&accepted?, place, out, wrong, lowest)?;
    Ok(after)
}

// The same through a lent desk.
#[tactic(auto, using(words::proofs::Refusals::refusals, crate::proofs::Laws::counted))]
pub fn open_at(
    desk: &mut Desk,
    bytes: &[u8],
    place: usize,
    out: &mut [u64],
    wrong: &mut [u64],
    lowest: &mut [u8],
) -> Result<(), Refusal>
    ensures fault { fault_in result ≡ fault_of (desk_opening desk.old.allowance desk.old.count
        bytes.now place (length out.old) (length wrong.old) (length lowest.old)) }
    ensures desk { desk.new ≡ desk_after desk.old (desk_opening desk.old.allowance desk.old.count
        bytes.now place (length out.old) (length wrong.old) (length lowest.old)) }
    ensures out { out.new ≡ secret_into out.old (desk_opening desk.old.allowance desk.old.count
        bytes.now place (length out.old) (length wrong.old) (length lowest.old)) }
    ensures wrong { wrong.new ≡ wrong_into (params_of bytes.now).k (params_of bytes.now).d (shares_at bytes.now place)
        wrong.old (desk_opening desk.old.allowance desk.old.count
        bytes.now place (length out.old) (length wrong.old) (length lowest.old)) }
    ensures lowest { lowest.new ≡ lowest_into (params_of bytes.now).k (params_of bytes.now).d (shares_at bytes.now place)
        lowest.old (desk_opening desk.old.allowance desk.old.count
        bytes.now place (length out.old) (length wrong.old) (length lowest.old)) }
{
    desk.count = open_by(desk.allowance, desk.count, bytes, place, out, wrong, lowest)?;
    Ok(())
}

// The desk after a month begins with the allowance q. Where that is declined the desk before stays.
#[tactic(auto, using(words::proofs::Refusals::refusals))]
pub fn start_by(before: Desk, q: u64) -> Result<Desk, Refusal>
    ensures fault { fault_in result ≡ allowance_fault q }
    ensures desk { IfOk result (λ d. (d.allowance ≡ q) × (d.count ≡ 0)) }
    ensures after { MatchResult result (λ d. d ≡ start_after before q) (λ _. before ≡ start_after before q) }
{
    check_allowance(q)?;
    let mut after = before;
    after.allowance = q;
    after.count = 0;
    Ok(after)
}

// The same at a lent desk, which stays where the allowance is declined.
#[tactic(auto, using(words::proofs::Refusals::refusals))]
pub fn start_at(desk: &mut Desk, q: u64) -> Result<(), Refusal>
    ensures { (fault_in result ≡ allowance_fault q) × (desk.new ≡ start_after desk.old q) }
{
    *desk = start_by(*desk, q)?;
    Ok(())
}

// Opens the job at a place through a record of two lent words, allowance and count.
#[tactic(auto, using(words::proofs::Refusals::refusals, archive::proofs::Calls::opened, crate::proofs::Laws::counted), unfolding(crate::specs::Lent::lent_opening))]
pub fn open_lent(
    desk: &mut [u64],
    bytes: &[u8],
    place: usize,
    out: &mut [u64],
    wrong: &mut [u64],
    lowest: &mut [u8],
) -> Result<(), Refusal>
    ensures fault { fault_in result ≡ fault_of (lent_opening desk.old bytes.now place (length out.old)
        (length wrong.old) (length lowest.old)) }
    ensures desk { desk.new ≡ record_into desk.old (lent_opening desk.old bytes.now place
        (length out.old) (length wrong.old) (length lowest.old)) }
    ensures out { out.new ≡ secret_into out.old (lent_opening desk.old bytes.now place
        (length out.old) (length wrong.old) (length lowest.old)) }
    ensures wrong { wrong.new ≡ wrong_into (params_of bytes.now).k (params_of bytes.now).d
        (shares_at bytes.now place) wrong.old (lent_opening desk.old bytes.now place
        (length out.old) (length wrong.old) (length lowest.old)) }
    ensures lowest { lowest.new ≡ lowest_into (params_of bytes.now).k (params_of bytes.now).d
        (shares_at bytes.now place) lowest.old (lent_opening desk.old bytes.now place
        (length out.old) (length wrong.old) (length lowest.old)) }
{
    words::check_length(2, desk.len())?;
    desk[1] = open_by(desk[0], desk[1], bytes, place, out, wrong, lowest)?;
    Ok(())
}

// A month begins with the allowance q, for a record of two lent words.
#[tactic(auto, using(words::proofs::Refusals::refusals, crate::proofs::Laws::start_set), unfolding(crate::specs::Lent::lent_start_fault))]
pub fn start_lent(desk: &mut [u64], q: u64) -> Result<(), Refusal>
    ensures { (fault_in result ≡ lent_start_fault desk.old q)
        × (desk.new ≡ kept (lent_start_fault desk.old q) desk.old (q ∷ 0 ∷ [])) }
{
    words::check_length(2, desk.len())?;
    let before = Desk {
        allowance: desk[0],
        count: desk[1],
    };
    let started = start_by(before, q)?;
    desk[0] = started.allowance;
    desk[1] = started.count;
    Ok(())
}
