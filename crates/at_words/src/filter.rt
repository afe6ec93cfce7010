//! Which jobs a listing shows.
use crate::Numbers;

/// Which of the jobs that the user may see a listing shows.
#[derive(Drop)]
pub enum Filter {
    All,
    /// Those that are shown with this letter, or with `=`.
    Queue(u8),
    /// Those of these numbers.
    Numbers(Numbers),
}
