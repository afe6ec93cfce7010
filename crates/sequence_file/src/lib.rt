//! `.SEQ`, the last job number drawn: reading it and drawing the next. After a crash a number is drawn or not; Ok: it
//! is drawn in each image.
#![tactic(auto)]

mod draw_number;
mod fault;
mod last_number;
mod laws;
mod names;
mod text;

pub use draw_number::draw;
pub use fault::SequenceFault;
pub use last_number::last;
pub use laws::last_numbers_are_read;
pub use names::sequence_name;
pub use text::{read_sequence, sequence_file_text};
