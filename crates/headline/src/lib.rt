//! The effects of commands, turns and crashes, one after another, and the main theorem (the headline) over them. No
//! script starts twice; recovery shows all steps of what was acknowledged.
//!
//! Each image shows the table after their steps, no script is started twice, and none before its start survives
//! every crash.
//!
//! Its definitions are what a reader of the promise believes, and not what runs. In the order in which to read them:
//! 1. `Effects`: what one event does to a host (`Effect`, `TakesEffect`, `IsEffectOf`), one after another (`PassFrom`)
//! 2. `SpoolStates`: the state of the host between them (`IsInState`, `ArrivesAt`)
//! 3. `Headline`: what holds of all of them
//! 4. `Laws`: that it does (`EventsHandOnce`)
//! 5. `ShownEffects`: the same with no word of other files, for events that change some (`ShownEventsHandOnce`)
#![tactic(auto)]

mod laws;

pub use laws::{events_hand_once, events_pass_on, hosts_read_tables, shown_events_hand_once};
