// A share compared with a value: each an element in an array of six, of words as they stand.
#![tactic(auto)]

ghost use Rattle.std.specs.Prelude.{◌≡◌};
ghost use Rattle.comparison.specs.Comparison.{gap, compared, position_of};

// What stands for none in an output: the definition's position_of.
pub const NONE: u8 = 255;

// The bits at which any of the words differs.
pub fn gap(share: [u64; 6], value: [u64; 6]) -> u64
    ensures { result ≡ gap share value }
{
    (share[0] ^ value[0])
        | ((share[1] ^ value[1])
            | ((share[2] ^ value[2])
                | ((share[3] ^ value[3]) | ((share[4] ^ value[4]) | (share[5] ^ value[5])))))
}

// The lowest bit position at which any of the words differs, or that none does.
pub fn compare(share: [u64; 6], value: [u64; 6]) -> Option<u8>
    ensures { result ≡ compared share value }
{
    let bits = gap(share, value);
    if bits == 0 {
        return None;
    }
    Some(u64::trailing_zeros(bits) as u8)
}

// Its number in an output.
pub fn position(lowest: Option<u8>) -> u8
    ensures { result ≡ position_of lowest }
{
    lowest.unwrap_or(NONE)
}
