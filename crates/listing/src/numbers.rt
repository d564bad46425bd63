// Numbers in a line: decimals, and words of hexadecimal digits.
ghost use Rattle.std.specs.Prelude.{◌≡◌, ◌≤◌, length};
ghost use Rattle.listing.specs.Terms.{as_u32, decimal_of, option_of};
ghost use Rattle.listing_spec.specs.Listing.{decimals, hex_word, separator};
ghost use Rattle.listing_spec.specs.Text.{digit_value, is_digit, is_hex_digit, value_of};
ghost use Rattle.std.specs.List.{list_all, take_while};

// The digits of a word.
const WORD_DIGITS: usize = 8;

// Parses a line of N decimals.
pub fn parse_decimals<const N: usize>(line: &[u8]) -> Option<[u32; N]>
    ensures { option_of result ≡ decimals N line.now }
{
    let mut numbers = [0; N];
    let mut rest = line;
    for (i, number) in numbers.iter_mut().enumerate() {
        let (digits, after) = rest.split_at(digits_count(rest));
        *number = decimal_value(digits)?;
        let (end, next) = after.split_first()?;
        if *end != separator_after(N - (i + 1)) {
            return None;
        }
        rest = next;
    }
    if rest.is_empty() { Some(numbers) } else { None }
}

// Parses a line of eight hexadecimal digits.
pub fn parse_word(line: &[u8]) -> Option<u32>
    ensures { option_of result ≡ hex_word line.now }
{
    if line.len() != WORD_DIGITS + 1 || line[WORD_DIGITS] != b'\n' {
        return None;
    }
    let digits = &line[..WORD_DIGITS];
    if !are_hex_digits(digits) {
        return None;
    }
    digits_value(digits, 16)
}

// The value of a decimal: at least one digit, no leading zero, a u32.
fn decimal_value(digits: &[u8]) -> Option<u32>
    ensures { option_of result ≡ decimal_of digits.now }
{
    if digits.is_empty() || digits[0] == b'0' && digits.len() > 1 {
        return None;
    }
    digits_value(digits, 10)
}

// The number of digits at the front of a text.
#[tactic(auto, unfolding(listing_spec::specs::Text::is_digit))]
fn digits_count(text: &[u8]) -> usize
    ensures { result ≡ length (take_while is_digit text.now) }
{
    text.iter().take_while(|c| c.is_ascii_digit()).count()
}

// The value of digits at a base.
fn digits_value(digits: &[u8], base: u32) -> Option<u32>
    requires { 1 ≤ base }
    ensures { option_of result ≡ as_u32 (value_of base digits.now) }
{
    let mut value: u32 = 0;
    for digit in digits {
        value = value.checked_mul(base)?.checked_add(digit_value(*digit))?;
    }
    Some(value)
}

// Whether all are hexadecimal digits.
fn are_hex_digits(digits: &[u8]) -> bool
    ensures { result ≡ list_all is_hex_digit digits.now }
{
    digits.iter().all(|c| is_hex_digit(*c))
}

// The value of a digit. By the definition every byte has a value; `to_digit` gives one to digits alone.
#[tactic(auto, unfolding(listing_spec::specs::Text::is_digit, listing_spec::specs::Text::digit_value))]
fn digit_value(c: u8) -> u32
    ensures { result ≡ digit_value c }
{
    let zero = if c.is_ascii_digit() { b'0' } else { b'a' - 10 };
    u32::from(c.saturating_sub(zero))
}

// Whether a byte is a digit, 0 to 9 or a to f. (`is_ascii_hexdigit` takes A to F too.)
#[tactic(auto, unfolding(listing_spec::specs::Text::is_digit, listing_spec::specs::Text::is_hex_digit))]
fn is_hex_digit(c: u8) -> bool
    ensures { result ≡ is_hex_digit c }
{
    matches!(c, b'0'..=b'9' | b'a'..=b'f')
}

// The byte after a number, by how many numbers are still to come.
#[tactic(auto, unfolding(listing_spec::specs::Listing::separator))]
fn separator_after(left: usize) -> u8
    ensures { result ≡ separator left }
{
    if left == 0 { b'\n' } else { b' ' }
}
