//! The time that a submission names.
use host_calls::Text;

/// The time that a submission names, as it was written.
#[derive(Drop)]
pub enum When {
    /// A timespec: the operands with a space between each two.
    Spec(Text),
    /// The value of `-t`.
    Touch(Text),
}
