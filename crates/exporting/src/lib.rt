// What the program `jobtext` prints, a place at a time: the text of every job of a bundle that opens.
#![tactic(auto)]

ghost use Rattle.std.specs.Prelude.{◌≡◌, ◌≤◌, ◌<◌, length};
ghost use Rattle.decimal.specs.Decimal.{written};
ghost use Rattle.text.specs.Text.{report_room};
ghost use Rattle.listing.specs.Pieces.{Accepts};
ghost use Rattle.exporting.specs.Export.{export_at, export_fault, export_piece, export_pieces};

use bundle::Bundle;
use decimal::Text;
use words::Refusal;

// Accepts an input of the program: only books with d 4 have this text.
#[tactic(auto, using(words::proofs::Refusals::refusals), unfolding(crate::specs::Export::export_fault))]
pub fn accept(bytes: &[u8]) -> Result<Bundle, Refusal>
    ensures { Accepts result (export_fault bytes.now) bytes.now }
{
    let bundle = listing::accept_input(bytes)?;
    words::unless(bundle.heading.params.d == 4, Refusal::Parameters)?;
    Ok(bundle)
}

// Writes the text of the job at a place of a bundle, or why it does not open, from the start of a lent buffer, and gives its length.
fn put_place(bundle: &Bundle, place: usize, out: &mut [u8]) -> usize
    requires { (bundle.now.heading.params.d ≡ 4) × (place < bundle.now.heading.jobs) × (report_room ≤ length out.old) }
    ensures { (out.new ≡ written 0 (export_at bundle.now.bytes.now place) out.old)
        × (result ≡ length (export_at bundle.now.bytes.now place)) × (result ≤ report_room) }
{
    let number = fetch::job_number(bundle, place);
    let holders = archive::load_holders(bundle);
    let mut shares = [[0u64; 6]; 63];
    let mut rows = [[0u64; 6]; 64];
    match archive::place_opening(bundle, place, &holders, &mut shares, &mut rows) {
        Ok(_) => {
            let words = rows[0];
            let job = labelled::lens_job(bundle.heading.params.k, number, &words[..4]);
            let mut text = Text::new(out);
            labelled::put_job(&mut text, job);
            text.len()
        }
        Err(refusal) => {
            let mut text = Text::new(out);
            text::put_kept(&mut text, number, refusal.number());
            text.len()
        }
    }
}

// Writes piece i of what is printed for an input from the start of a lent buffer, and gives its size. The input is there for the contract alone.
pub fn put_piece(
    bytes: &[u8],
    accepted: &Result<Bundle, Refusal>,
    i: usize,
    out: &mut [u8],
) -> usize
    requires { Accepts accepted.now (export_fault bytes.now) bytes.now × (i < export_pieces bytes.now)
        × (report_room ≤ length out.old) }
    ensures { (out.new ≡ written 0 (export_piece bytes.now i) out.old)
        × (result ≡ length (export_piece bytes.now i)) × (result ≤ report_room) }
{
    match accepted {
        Ok(bundle) => put_place(bundle, i, out),
        Err(refusal) => {
            let mut text = Text::new(out);
            text::put_refused(&mut text, refusal.number());
            text.len()
        }
    }
}
