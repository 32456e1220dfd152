// Numbers as text, written one after another at the front of a lent buffer.
#![tactic(auto)]

ghost use Rattle.std.specs.Prelude.{◌≡◌, [], ◌∷◌, ◌+◌, ◌≤◌, length};
ghost use Rattle.decimal.specs.Decimal.{written, decimal};

use words::Signed;

fn put_byte(out: &mut [u8], at: usize, b: u8) -> usize
    requires { at + 1 ≤ length out.old }
    ensures { (out.new ≡ written at (b ∷ []) out.old) × (result ≡ at + 1) }
{
    out[at] = b;
    at + 1
}

// A number's digits from a position on, and the position after them: those before the last one are those of a tenth of the number. It hands on
// positions, and no text, whose length would be loaded and stored for each digit: the text of a job took a third more instructions so.
fn put_decimal(out: &mut [u8], at: usize, x: u64) -> usize
    requires { at + length (decimal x) ≤ length out.old }
    ensures { (out.new ≡ written at (decimal x) out.old) × (result ≡ at + length (decimal x)) }
{
    if x < 10 {
        return put_byte(out, at, 48 + x as u8);
    }
    let p = put_decimal(out, at, x / 10);
    put_byte(out, p, 48 + (x % 10) as u8)
}

// A text so far, at the front of a lent buffer.
#[derive(Drop)]
pub struct Text<'a> {
    pub buffer: &'a mut [u8],
    pub len: usize,
    ghost within: { len ≤ length buffer.now },
}

impl<'a> Text<'a> {
    ghost use Rattle.decimal.specs.Decimal.{sign, signed_text, hundredths_text};
    ghost use Rattle.decimal.specs.Puts.{HasRoom, Puts};

    pub fn new(buffer: &'a mut [u8]) -> Text<'a>
        ensures empty { (result.len ≡ 0) × (result.buffer.now ≡ buffer.old) }
        ensures same { result.buffer.ghost_name ≡ buffer.entry.ghost_name }
    {
        Text { buffer, len: 0 }
    }

    // How many bytes it has.
    pub fn len(&self) -> usize
        ensures { result ≡ self.now.len }
    {
        self.len
    }

    pub fn byte(&mut self, b: u8)
        requires { HasRoom self.old (b ∷ []) }
        ensures { Puts self.old self.new (b ∷ []) }
    {
        self.buffer[self.len] = b;
        self.len += 1;
    }

    pub fn bytes(&mut self, s: &[u8])
        requires { HasRoom self.old s.now }
        ensures { Puts self.old self.new s.now }
    {
        let end = self.len + s.len();
        self.buffer[self.len..end].copy_from_slice(s);
        self.len = end;
    }

    pub fn decimal(&mut self, x: u64)
        requires { HasRoom self.old (decimal x) }
        ensures { Puts self.old self.new (decimal x) }
    {
        self.len = put_decimal(self.buffer, self.len, x);
    }

    #[tactic(auto, using(crate::proofs::Puts::texts), unfolding(crate::specs::Decimal::sign))]
    fn sign(&mut self, negative: bool)
        requires { HasRoom self.old (sign negative) }
        ensures { Puts self.old self.new (sign negative) }
    {
        if negative {
            self.byte(b'-');
        }
    }

    #[tactic(auto, using(crate::proofs::Puts::texts), unfolding(crate::specs::Decimal::signed_text))]
    pub fn signed(&mut self, s: Signed)
        requires { HasRoom self.old (signed_text s) }
        ensures { Puts self.old self.new (signed_text s) }
    {
        self.sign(s.negative);
        self.decimal(s.magnitude);
    }

    // A number of hundredths, with two decimals.
    #[tactic(auto, using(crate::proofs::Puts::texts), unfolding(crate::specs::Decimal::hundredths_text))]
    pub fn hundredths(&mut self, h: Signed)
        requires { HasRoom self.old (hundredths_text h) }
        ensures { Puts self.old self.new (hundredths_text h) }
    {
        self.sign(h.negative);
        self.decimal(h.magnitude / 100);
        self.byte(b'.');
        self.byte(48 + (h.magnitude / 10 % 10) as u8);
        self.byte(48 + (h.magnitude % 10) as u8);
    }
}
