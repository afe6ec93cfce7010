//! A spool directory in memory.
ghost use Rattle.std.specs.Prelude.{◌≡◌, ◌<◌, ◌++◌, length, option_to_list, vec_len, vec_capacity};
ghost use Rattle.memory_host.specs.inside.Faults.{AreFaultsPlanned};
ghost use Rattle.memory_host.specs.inside.Kin.{AreChildrenAsPlanned};

use crate::past::Past;
use crate::turn::Turn;
use crate::{Files, Plan};
use host_calls::{Asked, Child, Handed, Name};
use std::alloc::{AllocError, Global};

/// A spool directory in memory, its lock and its children. It fails and crashes as its plan says.
#[derive(Drop)]
pub struct MemoryHost {
    pub(crate) past: Past,
    pub(crate) asked: Vec<Asked>,
    pub(crate) children: Vec<Child>,
    /// How often the child of each start will still be asked before it has ended.
    pub(crate) waits: Vec<u32>,
    pub(crate) plan: Plan,
    pub(crate) fuse: Option<u64>,
    /// The fuses that reboots have set.
    pub(crate) fuses: Vec<u64>,
    pub(crate) turn: Turn,
    pub(crate) is_inside: bool,
    pub(crate) file_faults: u64,
    pub(crate) start_faults: u64,
    pub(crate) taken: u64,
    ghost faults: { AreFaultsPlanned
        (record {
          plan = plan;
          fuse = fuse;
          calls = turn.call;
          since_reboot = turn.since_reboot;
          starts = length waits.items;
        })
        fuses.items file_faults start_faults taken },
    ghost kin: { AreChildrenAsPlanned plan.children asked.items waits.items children.items },
}

impl MemoryHost {
    ghost use Rattle.std.specs.Prelude.{IfOk, OnOk, OnErr};
    ghost use Rattle.std.specs.FinMap as map;
    ghost use Rattle.std.specs.Option.{option_copied};
    ghost use Rattle.host_calls.specs.World.{reading};
    ghost use Rattle.memory_host.specs.Host.{IsNew, IsRebooted, IsUnchanged, calls_of, memory_world, reading_at};

    /// A host with these files, all of them durable, before its first call.
    pub fn make(alloc: Global, files: Files, plan: Plan) -> Result<MemoryHost, AllocError>
        ensures { IfOk result (IsNew files plan) }
    {
        Ok(MemoryHost {
            past: Past::open(alloc, files)?,
            asked: Vec::new(alloc),
            children: Vec::new(alloc),
            waits: Vec::new(alloc),
            fuse: plan.fuse,
            plan,
            fuses: Vec::new(alloc),
            turn: Turn {
                call: 0,
                since_reboot: 0,
            },
            is_inside: false,
            file_faults: 0,
            start_faults: 0,
            taken: 0,
        })
    }

    /// Crashes and comes up again with the image that the pick names, outside a session and with no
    /// child. From call number `fuse` on, counted anew, no call gets through.
    pub fn reboot(&mut self, alloc: Global, pick: u64, fuse: Option<u64>) -> Result<(), AllocError>
        ensures rebooted { OnOk result (IsRebooted pick fuse self.old self.new) }
        ensures unchanged { OnErr result (IsUnchanged self.old self.new) }
    {
        let _ = alloc;
        self.fuses.reserve(1)?;
        self.past.reboot(pick)?;
        add_fuse(&mut self.fuses, fuse);
        self.fuse = fuse;
        self.turn.since_reboot = 0;
        self.is_inside = false;
        self.children.clear();
        Ok(())
    }

    /// The bytes of a file as they read now.
    pub fn reading(&self, name: &Name) -> Option<&[u8]>
        ensures { option_copied result ≡ reading_at self.now name.now }
    {
        self.past.reading(name)
    }

    /// The names of the files as they read now, in byte order.
    pub fn names_now(&self, alloc: Global) -> Result<Vec<Name>, AllocError>
        ensures { IfOk result (λ names. names.items ≡ map.keys (reading (memory_world self.now))) }
    {
        self.past.names(alloc)
    }

    /// All scripts that were started.
    pub fn handed(&self) -> &[Handed]
        ensures { result.now ≡ (memory_world self.now).now.handed }
    {
        self.past.handed()
    }

    /// All questions to children, with their answers.
    pub fn asked(&self) -> &[Asked]
        ensures { result.now ≡ (memory_world self.now).asked }
    {
        &self.asked
    }

    /// How many calls there were, but for `leave`.
    pub fn calls(&self) -> u64
        ensures { result ≡ calls_of self.now }
    {
        self.turn.call
    }
}

// Adds the fuse, if there is one, for which there is room.
fn add_fuse(fuses: &mut Vec<u64>, fuse: Option<u64>)
    requires { vec_len fuses.old < vec_capacity fuses.old }
    ensures { fuses.new.items ≡ fuses.old.items ++ option_to_list fuse }
{
    if let Some(first) = fuse {
        fuses.push_reserved(first);
    }
}
