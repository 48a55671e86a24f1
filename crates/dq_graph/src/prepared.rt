use dq_base::{Canons, List, Numbers, Role, Texts};

/// The roles of a batch's valid zones, in zone order.
pub type Roles = List<Role>;

/// A batch that is ready to be admitted.
#[derive(Drop)]
pub struct Prepared {
    /// The numbers of the valid zones, from 1, ascending.
    pub zones: Numbers,
    /// Their canonical queries.
    pub canons: Canons,
    /// How each is answered.
    pub roles: Roles,
    /// The body of each remote one's statement, in zone order.
    pub bodies: Texts,
}
