//! What holds of all events, each law as the contract of a function.
ghost use Rattle.headline.specs.Laws.{AchievedStepsStand, EffectsAreShown, EventsHandOnce, EventsPassOn, LaterEventsLeave, SettledDirectoriesShowTheirTable, ShownEventsHandOnce, HostsReadTables, StillWorldsAreUnbegun};

/// Over all events no script is started twice, or before its start survives every crash, and the host is in the state
/// where the events leave it.
pub fn events_hand_once()
    ensures { EventsHandOnce }
{}

/// The same of events that change other files too, as far as images show it: each effect is one of these.
pub fn shown_events_hand_once()
    ensures events { ShownEventsHandOnce }
    ensures effects { EffectsAreShown }
{}

/// A host that is at a table finds no damage.
pub fn hosts_read_tables()
    ensures tables { HostsReadTables }
    ensures settled { SettledDirectoriesShowTheirTable }
    ensures achieved { AchievedStepsStand }
{}

/// Events pass one after another, and what leaves the world as it was has begun no step.
pub fn events_pass_on()
    ensures pass { EventsPassOn }
    ensures left { LaterEventsLeave }
    ensures still { StillWorldsAreUnbegun }
{}
