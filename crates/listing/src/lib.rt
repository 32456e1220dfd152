// The listing of a bundle, a line at a time.
#![tactic(auto)]

ghost use Rattle.std.specs.Prelude.{◌≡◌, [], ◌∷◌, ◌+◌, ◌≤◌, ◌<◌, length, MatchResult, MatchOption};
ghost use Rattle.words.specs.Refusal.{fault_in, kept};
ghost use Rattle.decimal.specs.Decimal.{written};
ghost use Rattle.text.specs.Text.{line_room};
ghost use Rattle.listing.specs.Listing.{line_of, line_fault, input_fault};
ghost use Rattle.listing.specs.Pieces.{piece, pieces_in, Accepts};

use bundle::Bundle;
use decimal::Text;
use records::Heading;
use words::Refusal;

// The most bytes of an input: the definition's most_input.
pub const MOST_INPUT: usize = 65536;

// Writes the line of the job at a place of a bundle from the start of a lent buffer, and gives its length.
pub fn put_line(bundle: &Bundle, place: usize, out: &mut [u8]) -> usize
    requires { (place < bundle.now.heading.jobs) × (line_room ≤ length out.old) }
    ensures { (out.new ≡ written 0 (line_of bundle.now.bytes.now place) out.old)
        × (result ≡ length (line_of bundle.now.bytes.now place)) × (result ≤ line_room) }
{
    let number = fetch::job_number(bundle, place);
    let holders = archive::load_holders(bundle);
    let mut shares = [[0u64; 6]; 63];
    let mut rows = [[0u64; 6]; 64];
    match archive::place_opening(bundle, place, &holders, &mut shares, &mut rows) {
        Ok(wrong) => {
            let p = bundle.heading.params;
            let mut lowest = [0u8; 64];
            decoder::lowest_bits(
                p,
                bundle.files,
                &holders,
                &shares,
                &rows,
                wrong,
                &mut lowest,
            );
            let mut text = Text::new(out);
            text::put_open_line(&mut text, number, wrong, &lowest, p.k, p.d, rows[0]);
            text.len()
        }
        Err(refusal) => {
            let mut text = Text::new(out);
            text::put_declined_line(&mut text, number, refusal.number());
            text.len()
        }
    }
}

// One line of a bundle, from the start of a lent buffer that is long enough for every line, and its length into an output of one word.
#[tactic(auto, using(words::proofs::Refusals::refusals, words::proofs::Fill::set_single), unfolding(crate::specs::Listing::line_fault))]
pub fn list_line(
    bytes: &[u8],
    place: usize,
    line: &mut [u8],
    size: &mut [u64],
) -> Result<(), Refusal>
    ensures fault { fault_in result ≡ line_fault bytes.now place (length line.old) (length size.old) }
    ensures line { line.new
        ≡ kept (line_fault bytes.now place (length line.old) (length size.old)) line.old
        (written 0 (line_of bytes.now place) line.old) }
    ensures size { size.new
        ≡ kept (line_fault bytes.now place (length line.old) (length size.old)) size.old
        (length (line_of bytes.now place) ∷ []) }
{
    let bundle = bundle::accept(bytes)?;
    words::check_length(1, size.len())?;
    words::unless(text::LINE <= line.len(), Refusal::Length)?;
    fetch::check_place(bundle.heading, place)?;
    size[0] = put_line(&bundle, place, line) as u64;
    Ok(())
}

// Accepts an input. One that is too long is refused before any record is looked at.
#[tactic(auto, using(words::proofs::Refusals::refusals), unfolding(crate::specs::Listing::input_fault))]
pub fn accept_input(bytes: &[u8]) -> Result<Bundle, Refusal>
    ensures { Accepts result (input_fault bytes.now) bytes.now }
{
    words::unless(bytes.len() <= MOST_INPUT, Refusal::Length)?;
    bundle::accept(bytes)
}

// How many pieces a text has with one for each place of a heading, or one for a refusal.
pub fn count_pieces(accepted: Result<Heading, Refusal>) -> usize
    ensures { MatchResult accepted (λ h. result ≡ h.jobs) (λ _. result ≡ 1) }
{
    match accepted {
        Ok(heading) => heading.jobs,
        Err(_) => 1,
    }
}

// What printing keeps of an input: its bytes, what accepting them gave, and which piece of its text is next, which may be any.
#[derive(Clone, Copy)]
pub struct Printer<'a> {
    pub bytes: &'a [u8],
    pub accepted: Result<Bundle<'a>, Refusal>,
    pub next: usize,
    pub ghost own: { Accepts accepted (input_fault bytes.now) bytes.now },
}

impl<'a> Printer<'a> {
    // The printer of an input's text.
    pub fn start(bytes: &'a [u8]) -> Printer<'a>
        ensures { (result.bytes.now ≡ bytes.now) × (result.next ≡ 0) }
    {
        let accepted = accept_input(bytes);
        Printer {
            bytes,
            accepted,
            next: 0,
        }
    }

    // Writes the piece that is next from the start of a lent buffer, and gives its size: none past the last.
    fn put_piece(&self, line: &mut [u8]) -> Option<usize>
        requires { line_room ≤ length line.old }
        ensures line { line.new ≡ written 0 (piece self.now.bytes.now self.now.next) line.old }
        ensures size { MatchOption result (pieces_in self.now.bytes.now ≤ self.now.next)
            (λ n. (n ≡ length (piece self.now.bytes.now self.now.next)) × (n ≤ line_room)
            × (self.now.next < pieces_in self.now.bytes.now)) }
    {
        let i = self.next;
        match &self.accepted {
            Ok(bundle) => {
                if i == 0 {
                    let mut text = Text::new(line);
                    text::put_head(&mut text);
                    return Some(text.len());
                }
                if bundle.heading.jobs < i {
                    return None;
                }
                Some(put_line(bundle, i - 1, line))
            }
            Err(refusal) => {
                if i == 0 {
                    let mut text = Text::new(line);
                    text::put_refused(&mut text, refusal.number());
                    return Some(text.len());
                }
                None
            }
        }
    }

    // Writes the next piece into a lent buffer, and gives its size; none says that the text has ended.
    pub fn next(&mut self, line: &mut [u8]) -> Option<usize>
        requires { line_room ≤ length line.old }
        ensures line { line.new ≡ written 0 (piece self.old.bytes.now self.old.next) line.old }
        ensures size { MatchOption result ((pieces_in self.old.bytes.now ≤ self.old.next) × (self.new.next ≡ self.old.next))
            (λ n. (n ≡ length (piece self.old.bytes.now self.old.next)) × (n ≤ line_room)
            × (self.old.next < pieces_in self.old.bytes.now) × (self.new.next ≡ self.old.next + 1)) }
        ensures bytes { self.new.bytes.now ≡ self.old.bytes.now }
    {
        let size = self.put_piece(line)?;
        self.next += 1;
        Some(size)
    }
}
