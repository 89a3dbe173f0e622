/// What a day begins with.
#[derive(Clone, Copy, PartialEq, Eq, Debug)]
pub enum Start {
    /// The drive is new: it is formatted first, and then attached.
    Format,
    /// The drive stands, as an earlier day left it: it is attached as it stands.
    Attach,
}
