ghost use Rattle.std.specs.Prelude.{◌≡◌, false, MatchResult};
ghost use Rattle.rights.specs.Covers.{role_number, is_role};

/// What a user does in a posting, by the number that the rows hold.
#[derive(Clone, Copy, PartialEq, Eq, Debug)]
pub enum Role {
    /// Enters the note.
    Enter = 1,
    /// Countersigns the slip.
    Countersign = 2,
}

/// A number that is no role's.
#[derive(Clone, Copy, PartialEq, Eq, Debug)]
pub struct NoSuchRole;

/// The number that the rows hold.
impl From<Role> for u8 {
    ghost from_gives = { λ r n. n ≡ role_number r };

    fn from(role: Role) -> u8 {
        role as u8
    }
}

/// The role of a number, if it is one's.
impl TryFrom<u64> for Role {
    type Error = NoSuchRole;

    ghost try_from_gives = { λ n r.
        MatchResult r (λ x. role_number x ≡ n) (λ _. is_role n ≡ false) };

    fn try_from(number: u64) -> Result<Role, NoSuchRole> {
        match number {
            1 => Ok(Role::Enter),
            2 => Ok(Role::Countersign),
            _ => Err(NoSuchRole),
        }
    }
}
