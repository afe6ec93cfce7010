//! The grammar of the times of `at`: what a list of tokens means. A time has one meaning; otherwise the first token
//! that does not fit is reported.
#![tactic(auto)]

mod clock;
mod date;
mod fault;
mod increment;
mod laws;
mod numbers;
mod numeric;
mod parser;
mod read;
mod steps;
mod timespec;

pub use clock::Clock;
pub use date::DatePart;
pub use fault::GrammarFault;
pub use increment::Increment;
pub use laws::viable_tokens_are_prefixes;
pub use parser::parse;
pub use timespec::Timespec;
