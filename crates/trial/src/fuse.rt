ghost use Rattle.std.specs.Prelude.{◌≡◌};

// An `Option` would say no plainer what none of them means.
/// When power fails next.
#[derive(Clone, Copy, PartialEq, Eq, Debug)]
pub enum Fuse {
    /// Not any more.
    Never,
    /// After so many writes and flushes that are done, in the next one. If that is a write, it
    /// lands or not.
    After { left: u16, lands: bool },
}

/// The fuse that a cut number sets. The number modulo 32,768 is how many writes and flushes are
/// done before the one that loses power; if that is a write, it lands exactly from 32,768 on.
impl From<u16> for Fuse {
    ghost use Rattle.trial.specs.Schedule.{fuse_of};

    ghost from_gives = { λ cut fuse. fuse ≡ fuse_of cut };

    fn from(cut: u16) -> Fuse {
        Fuse::After {
            left: cut % 32_768,
            lands: cut >= 32_768,
        }
    }
}
