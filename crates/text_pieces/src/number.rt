ghost use Rattle.std.specs.Prelude.{◌≡◌, ◌<◌, ◌-◌, ◌^◌, min, option_map, IsTrue};
ghost use Rattle.std.specs.List.{list_all};
ghost use Rattle.text_pieces.specs.Numbers.{is_digit, is_number, number_in, number_between, value_after};

fn are_digits(text: &[u8]) -> bool
    ensures { result ≡ list_all is_digit text.now }
{
    text.iter().all(|byte| *byte >= b'0' && *byte <= b'9')
}

/// Is the text a number: decimal digits without a sign, and without a leading zero, except for `0` itself?
pub fn is_number(text: &[u8]) -> bool
    ensures { result ≡ is_number text.now }
{
    !text.is_empty() && are_digits(text) && (text[0] != b'0' || text.len() == 1)
}

/// The number of the digits, or the greatest `u128` if it is greater.
fn value_of(digits: &[u8]) -> u128
    requires { IsTrue (list_all is_digit digits.now) }
    ensures { result ≡ min (value_after 0 digits.now) (2 ^ 128 - 1) }
{
    let mut value = 0u128;
    for digit in digits {
        value = value
            .saturating_mul(10)
            .saturating_add((*digit).saturating_sub(b'0') as u128);
    }
    value
}

/// The number of the text, if it is a number in the range.
pub fn number_between(text: &[u8], least: u64, most: u64) -> Option<u64>
    ensures { result ≡ number_between least most text.now }
{
    if !is_number(text) {
        return None;
    }
    let value = value_of(text);
    if value < least as u128 || value > most as u128 {
        return None;
    }
    Some(value as u64)
}
