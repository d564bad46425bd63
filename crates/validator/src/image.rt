// An image that no refusal from 1 to 7 meets, with the roles of its words filled in.
ghost use Rattle.std.specs.Prelude.{◌≡◌, ◌+◌};
ghost use Rattle.validator.specs.Steps.{Filled};

// The image, and the warnings and errors that it came with.
#[derive(Clone, Copy)]
pub struct Image<'a> {
    pub table: &'a [u8],
    pub words: &'a [u8],
    pub roles: &'a [u8],
    pub warnings: u32,
    pub errors: u32,
    ghost filled: { Filled table.now words.now roles.now },
}

impl<'a> Image<'a> {
    // How many diagnostics came in.
    pub fn incoming(&self) -> u64
        ensures { result ≡ self.now.warnings + self.now.errors }
    {
        (self.warnings as u64) + (self.errors as u64)
    }
}
