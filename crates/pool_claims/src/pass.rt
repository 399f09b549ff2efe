// A pass.

use crate::view::View;
use atomic_table::Seat;

/// What a thread claims with. It belongs to the claims that gave it when they were opened and that take it when they are closed.
#[derive(Drop)]
pub struct ClaimPass {
    pub(crate) ended: bool,
    pub(crate) seat: Seat<(), View>,
}
