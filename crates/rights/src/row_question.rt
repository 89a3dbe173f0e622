use crate::role::Role;

/// What is asked of the rows: may this user do this procedure in this role.
#[derive(Clone, Copy, PartialEq, Eq, Debug)]
pub struct RowQuestion {
    pub user: u64,
    pub procedure: u64,
    pub role: Role,
}
