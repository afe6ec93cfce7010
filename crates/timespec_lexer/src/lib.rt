//! The tokens of a time: numbers, marks and keywords, each with its position. A text has one list of tokens, or an
//! error at an exact place.
#![tactic(auto)]

mod fault;
mod found;
mod keywords;
mod lexer;
mod number;
mod period;
mod placed;
mod token;
mod word;

pub use fault::LexFault;
pub use lexer::{MAX_TOKENS, tokens};
pub use period::Period;
pub use placed::Placed;
pub use token::Token;
