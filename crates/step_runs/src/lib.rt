//! What a sequence of steps does to a spool, whole or cut off by a crash or a fault. Sequences compose, and an
//! undamaged directory stays undamaged.
//!
//! Its definitions are what a reader of these believes, and not what runs. In the order in which to read them:
//! 1. `WithoutScripts`: the job table as a store keeps it
//! 2. `Current`: what a store keeps of a directory, and when that is current (`IsCurrent`); `Codes` tells stores apart
//! 3. `Calls`: what a call of the store leaves, the table before it or after a prefix of its steps (`StoreCall`)
//! 4. `Hands`: what steps start, the script of each start
//! 5. `Runs`: what a crash leaves at each moment of steps, and what was started by then
//! 6. `Attempts`: a recovery, and then a run (`Attempts`, `Achieves`)
//! 7. `Made`: calls one after another, made to their end, or stopped, or cut off (`AreMade`, `AreStopped`, `AreCutOff`)
//! 8. `MadeLaws` and `Laws`: how these join; `Good`: that none of them brings a damage
#![tactic(auto)]

mod laws;
mod made;

pub use laws::{
    calls_are_runs, good_directories_stay_good, runs_go_on, runs_stand_after_recoveries,
    tables_without_scripts_step_alike,
};
pub use made::{
    calls_are_cut_off, calls_make_steps, made_steps_are_attempts, questions_make_no_step,
    starts_end, steps_join,
};
