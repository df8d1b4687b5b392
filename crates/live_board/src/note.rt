//! A note of what was published.

use crate::front::Front;

/// Knows the list that was published when it was made. Contracts see that list (`noted`) and whose history it is
/// (`note_book`). It may go to another thread.
#[derive(Drop)]
pub struct BoardNote {
    pub(crate) front: Front,
}
