// Lines of a text.
ghost use Rattle.std.specs.Prelude.{◌≡◌, ◌==◌, position};
ghost use Rattle.std.specs.Iterator.{YieldsFirstRef, item_count};
ghost use Rattle.listing.specs.Terms.{line_length};
ghost use Rattle.listing_spec.specs.Text.{lines, newline};

// The lines that are left of a text, each with its newline; the last has none where the end of the text cuts it.
#[derive(Drop)]
pub struct Lines<'a> {
    pub rest: &'a [u8],
}

impl<'a> Iterator for Lines<'a> {
    type Item = &'a [u8];

    ghost next_gives = { YieldsFirstRef (λ s. lines s.rest.now) };

    ghost remaining = { item_count (λ s. lines s.rest.now) };

    fn next(&mut self) -> Option<&'a [u8]> {
        if self.rest.is_empty() {
            return None;
        }
        let (line, rest) = self.rest.split_at(line_end(self.rest));
        self.rest = rest;
        Some(line)
    }
}

// Where the first line ends: past its newline, or with the text where it has none.
fn line_end(text: &[u8]) -> usize
    ensures { result ≡ line_length text.now }
{
    match newline(text) {
        Some(at) => at + 1,
        None => text.len(),
    }
}

// Where the first newline is.
fn newline(text: &[u8]) -> Option<usize>
    ensures { result ≡ position (λ c. c == newline) text.now }
{
    text.iter().position(|c| *c == b'\n')
}
