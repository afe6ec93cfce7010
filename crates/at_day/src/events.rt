//! A list of events.
ghost use Rattle.std.specs.Prelude.{◌≡◌, ◌++◌, [], ◌∷◌, OnOk, OnErr};

use crate::Event;
use std::alloc::{AllocError, Global};
use std::marker::Model;

/// Events, in their order. A contract sees them as a list.
#[derive(Drop)]
pub struct Events {
    inner: Vec<Event>,
}

impl Model for Events {
    ghost use Rattle.std.specs.Prelude.{List};
    ghost use Rattle.at_day.specs.declared.event.Event.{Event};

    ghost Value = { List Event };

    ghost view = { λ events. events.inner.items };
}

impl Events {
    /// No events.
    pub fn new(alloc: Global) -> Events
        ensures { result ≡ [] }
    {
        Events {
            inner: Vec::new(alloc),
        }
    }

    /// Adds an event after the others.
    pub fn push(&mut self, _alloc: Global, event: Event) -> Result<(), AllocError>
        ensures ok { OnOk result (self.new ≡ self.old ++ event ∷ []) }
        ensures err { OnErr result (self.new ≡ self.old) }
    {
        self.inner.push(event)?;
        Ok(())
    }

    /// The events, in order.
    pub fn as_slice(&self) -> &[Event]
        ensures { result.now ≡ self.now }
    {
        self.inner.as_slice()
    }
}
