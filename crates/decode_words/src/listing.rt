// Words as text: eight lower-case hexadecimal digits and a newline each.

// The bytes of a word's line.
pub const LINE_BYTES: usize = 9;

// The word of a line, if it is in form. (`listing` has a `parse_word`, but this program uses only the layer of words, which is below that crate.
// Document 01: each crate relies on the one below.)
pub fn parse_line(line: &[u8]) -> Option<u32> {
    let digits = line.strip_suffix(b"\n")?.as_array::<8>()?;
    let mut word = 0u32;
    for digit in digits {
        word = word << 4 | hex_digit(*digit)?;
    }
    Some(word)
}

// The value of a lower-case hexadecimal digit. (`to_digit` takes A to F too.)
fn hex_digit(c: u8) -> Option<u32> {
    match c {
        b'0'..=b'9' => Some(u32::from(c - b'0')),
        b'a'..=b'f' => Some(u32::from(c - b'a' + 10)),
        _ => None,
    }
}
