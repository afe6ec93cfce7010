//! What the files of a spool mean: one job table or one damage. The meaning is a function of the files, equal to a
//! relation by names.
//!
//! Its definitions are what a reader of the store believes, and not what runs. In the order in which to read them:
//! 1. `JobFiles`: which files are of jobs and count, and where one is damaged
//! 2. `Shown`: the table or the damage of all files (`shown_by`, `Shows`); `Examples` has small directories
//! 3. `ByName` and `FirstDamage`: the same, said name by name, and by places; `DamageLaws` has that both agree
//! 4. `OldForm`: what is shown by names of the old form alone
//! 5. `Laws`: what holds of every directory, and of each change that a step makes to one
#![tactic(auto)]

mod laws;

pub use laws::{
    accepts_are_shown, compactions_are_shown, directories_are_shown_by_name,
    directories_show_their_first_damage, directories_without_sequence_show_no_entry,
    draws_are_shown, marks_are_shown, old_form_directories_show_the_same,
    other_files_count_for_nothing, rewrites_are_shown, shown_jobs_have_headers,
    shown_tables_are_sound, small_directories,
};
