//! What a job takes over from its caller.
use crate::variables::Variables;
use host_calls::Text;

/// What a job takes over from its caller.
#[derive(Drop)]
pub struct Context {
    pub user: Text,
    pub directory: Text,
    pub umask: u16,
    pub environment: Variables,
}
