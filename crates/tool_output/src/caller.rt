//! Who calls, and from where.
use civil_minute::Zone;
use job_script::Context;

/// Who calls, and in which zone.
#[derive(Drop)]
pub struct Caller {
    pub context: Context,
    pub zone: Zone,
}
