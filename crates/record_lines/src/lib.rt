//! Files of text records, one a line: reader and writer for any kind of record. A file is one list of records or has a
//! first bad line, at an exact offset.
#![tactic(auto)]

mod keeper;
mod laws;
mod number;
mod reader;
mod record;
mod writer;

pub use keeper::Keeper;
pub use laws::{added_lines_read_back, files_have_one_reading, read_records_can_be_written};
pub use number::number_in;
pub use reader::{LinesFault, read_lines};
pub use record::LineRecord;
pub use writer::lines_text;
