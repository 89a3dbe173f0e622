ghost use Rattle.std.specs.Prelude.{◌≡◌, ◌≤◌};
ghost use Rattle.image.specs.Layout.{first_block};

/// A part of the image that fills eight blocks, by the number of its first.
#[derive(Clone, Copy, PartialEq, Eq, Debug)]
pub enum Part {
    /// The codes of the items.
    Items = 8,
    /// The codes that the items had at the opening.
    Opening = 16,
    /// The rows of the rights.
    Rows = 24,
}

impl Part {
    /// The number of its first block.
    pub fn first(self) -> u64
        ensures value { result ≡ first_block self }
        ensures low { 8 ≤ result }
        ensures high { result ≤ 24 }
    {
        self as u64
    }
}
