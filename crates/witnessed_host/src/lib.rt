//! Wraps a host, inputs, sinks and clocks that expose nothing of their content. The clauses of the traits hold for what a
//! witness knows, or for what was recorded.
//!
//! A witness of a host or of inputs sees each call with its answer, and passes the answer on or disputes it; a disputed call
//! has failed. A sink or a clock records what was written and returned; the record is exact, has no bytes, and is read by
//! clauses alone.
#![tactic(auto)]

mod counts;
mod input_witness;
mod no_files;
mod noted_readings;
mod noted_sink;
mod put_log;
mod reading;
mod trace;
mod unchecked;
mod unmodelled;
mod witness;
mod witnessed;
mod witnessed_inputs;

pub use counts::FaultCounts;
pub use input_witness::InputWitness;
pub use no_files::NoFiles;
pub use noted_readings::NotedReadings;
pub use noted_sink::NotedSink;
pub use reading::Reading;
pub use trace::Trace;
pub use unchecked::Unchecked;
pub use unmodelled::{Unmodelled, UnmodelledInputs};
pub use witness::Witness;
pub use witnessed::Witnessed;
pub use witnessed_inputs::WitnessedInputs;
