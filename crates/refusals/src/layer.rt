ghost use Rattle.std.specs.Prelude.{◌≡◌, Some};
ghost use Rattle.refusals.specs.Texts.{layer_name};

use std::fmt;

/// Which part of the system refuses.
#[derive(Clone, Copy, PartialEq, Eq, Debug)]
pub enum Layer {
    Note,
    House,
    Drive,
    Journal,
    Image,
    Book,
    Monitor,
}

impl Layer {
    /// The layer's name as it is printed.
    pub fn name(self) -> &'static str
        ensures value { result.now ≡ layer_name self }
    {
        match self {
            Layer::Note => "note",
            Layer::House => "house",
            Layer::Drive => "drive",
            Layer::Journal => "journal",
            Layer::Image => "image",
            Layer::Book => "book",
            Layer::Monitor => "monitor",
        }
    }
}

/// The layer's name.
impl fmt::Display for Layer {
    ghost output = { λ x. Some (layer_name x) };

    fn fmt<W: fmt::Write>(&self, f: &mut fmt::Formatter<W>) -> fmt::Result {
        f.write_str(self.name())
    }
}
