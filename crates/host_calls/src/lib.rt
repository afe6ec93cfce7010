//! Traits of the outside (directory of files, clock and load, inputs, sinks), their small types, and a session of a host.
//! Each call is specified at every moment inside it, also by what a crash leaves then.
//!
//! A session takes the lock, works and releases it, whatever the work does. The seconds and minutes that a clock may show are
//! those of the years 1970 to 9998; a second of the range has a minute of the range.
#![tactic(auto)]

mod bytes;
mod child;
mod clock_seconds;
mod damage;
mod fault;
mod host;
mod inputs;
mod name;
mod readings;
mod rest;
mod session;
mod session_ends;
mod sink;
mod store_fault;
mod text;
mod turn_end;

pub use bytes::Bytes;
pub use child::{Asked, Child, Ending, Handed};
pub use clock_seconds::{LAST_MINUTE, LAST_SECOND, is_clock_second, minute_at};
pub use damage::Damage;
pub use fault::{EnterFault, HostFault, InputFault, SinkFault, StartFault};
pub use host::Host;
pub use inputs::Inputs;
pub use name::Name;
pub use readings::Readings;
pub use rest::{LONGEST_REST, SHORT_REST};
pub use session::in_session;
pub use session_ends::end_of_session;
pub use sink::Sink;
pub use store_fault::StoreFault;
pub use text::Text;
pub use turn_end::TurnEnd;
