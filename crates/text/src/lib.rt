// The text of the listing and of the report of `mend`: each function puts its text behind what is there.
#![tactic(auto)]

ghost use Rattle.std.specs.Prelude.{◌≡◌, true, ◌+◌, ◌≤◌, length, take};
ghost use Rattle.words.specs.Word.{all_in_width};
ghost use Rattle.decimal.specs.Puts.{HasRoom, Puts};
ghost use Rattle.text.specs.Text.{holder_text, holders_text, words_text, readings};
ghost use Rattle.text.specs.Text.{line_room, head_line, refused_line, open_line, declined_line};
ghost use Rattle.text.specs.Text.{holders, report_room, changed_line, changed_lines, kept_line};

use decimal::Text;

// Every line fits into so many bytes: the definition's line_room.
pub const LINE: usize = 1024;

// The lines of a job in the report of `mend` fit into so many: the definition's report_room.
pub const REPORT: usize = 2048;

// A holder, a slash and the position of the lowest bit at which its share differs.
#[tactic(auto, using(decimal::proofs::Puts::texts), unfolding(crate::specs::Text::holder_text))]
fn put_holder(text: &mut Text, holder: u64, lowest: &[u8])
    requires { ((1 ≤ holder) × (holder ≤ length lowest.now)) × HasRoom text.old (holder_text lowest.now holder) }
    ensures { Puts text.old text.new (holder_text lowest.now holder) }
{
    text.decimal(holder);
    text.byte(b'/');
    text.decimal(lowest[(holder - 1) as usize] as u64);
}

// The holders of a set with their positions, rising, joined by commas: each turn writes the lowest one and takes it off.
pub fn put_holders(text: &mut Text, set: u64, lowest: &[u8])
    requires { (length lowest.now ≡ 64) × HasRoom text.old (holders_text lowest.now set) }
    ensures { Puts text.old text.new (holders_text lowest.now set) }
{
    if set == 0 {
        text.byte(b'-');
        return;
    }
    let mut w = set;
    let mut i: u64 = 0;
    loop {
        let z = u64::trailing_zeros(w) as u64;
        i = i + z + 1;
        w = (w >> z) >> 1;
        put_holder(text, i, lowest);
        if w == 0 {
            return;
        }
        text.byte(b',');
    }
}

// The first d words, each in its signed reading, joined by commas.
pub fn put_words(text: &mut Text, k: u64, d: usize, words: [u64; 6])
    requires { ((1 ≤ k) × (k ≤ 64)) × ((1 ≤ d) × (d ≤ 6)) × (all_in_width k (take d words) ≡ true)
        × HasRoom text.old (words_text (readings k d words)) }
    ensures { Puts text.old text.new (words_text (readings k d words)) }
{
    text.signed(words::read_signed(k, words[0]));
    for i in 1..d {
        text.byte(b',');
        text.signed(words::read_signed(k, words[i]));
    }
}

// The first line of a listing.
pub fn put_head(text: &mut Text)
    requires { HasRoom text.old head_line }
    ensures { Puts text.old text.new head_line }
{
    text.bytes(b"job state wrong words\n");
}

// The one line of a declined bundle. Here and below the number of a refusal may be any byte: the contract has promised so from the first.
#[tactic(auto, using(decimal::proofs::Puts::texts), unfolding(crate::specs::Text::refused_line))]
pub fn put_refused(text: &mut Text, n: u8)
    requires { HasRoom text.old (refused_line n) }
    ensures { Puts text.old text.new (refused_line n) }
{
    text.bytes(b"refused ");
    text.decimal(u64::from(n));
    text.byte(b'\n');
}

// The line of a job that opened.
pub fn put_open_line(
    text: &mut Text,
    number: u64,
    wrong: u64,
    lowest: &[u8],
    k: u64,
    d: usize,
    words: [u64; 6],
)
    requires { ((1 ≤ k) × (k ≤ 64)) × ((1 ≤ d) × (d ≤ 6)) × (all_in_width k (take d words) ≡ true)
        × (length lowest.now ≡ 64) × HasRoom text.old (open_line number wrong lowest.now (readings k d words)) }
    ensures { Puts text.old text.new (open_line number wrong lowest.now (readings k d words)) }
{
    text.decimal(number);
    text.bytes(b" open ");
    put_holders(text, wrong, lowest);
    text.byte(b' ');
    put_words(text, k, d, words);
    text.byte(b'\n');
}

// The line of a job that did not open, with the number that says why.
pub fn put_declined_line(text: &mut Text, number: u64, state: u8)
    requires { HasRoom text.old (declined_line number state) }
    ensures { Puts text.old text.new (declined_line number state) }
{
    text.decimal(number);
    text.byte(b' ');
    text.decimal(u64::from(state));
    text.bytes(b" - -\n");
}

// The line of a changed place.
#[tactic(auto, using(decimal::proofs::Puts::texts), unfolding(crate::specs::Text::changed_line))]
fn put_changed(text: &mut Text, number: u64, holder: u64)
    requires { HasRoom text.old (changed_line number holder) }
    ensures { Puts text.old text.new (changed_line number holder) }
{
    text.decimal(number);
    text.bytes(b" holder ");
    text.decimal(holder);
    text.byte(b'\n');
}

// The lines of a job's changed places, holders rising: each turn writes the line of the lowest one and takes it off.
pub fn put_changes(text: &mut Text, number: u64, set: u64)
    requires { HasRoom text.old (changed_lines number (holders set)) }
    ensures { Puts text.old text.new (changed_lines number (holders set)) }
{
    let mut w = set;
    let mut i: u64 = 0;
    while w != 0 {
        let z = u64::trailing_zeros(w) as u64;
        i = i + z + 1;
        w = (w >> z) >> 1;
        put_changed(text, number, i);
    }
}

// The line of a job that keeps its bytes, with the number that says why.
#[tactic(auto, using(decimal::proofs::Puts::texts), unfolding(crate::specs::Text::kept_line))]
pub fn put_kept(text: &mut Text, number: u64, n: u8)
    requires { HasRoom text.old (kept_line number n) }
    ensures { Puts text.old text.new (kept_line number n) }
{
    text.decimal(number);
    text.byte(b' ');
    put_refused(text, n);
}
