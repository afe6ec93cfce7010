//! The place of the spool.
ghost use Rattle.std.specs.Prelude.{◌≡◌, IfOk};
ghost use Rattle.caller_environment.specs.SpoolPlace.{former_places, MeansHomeSpool, MeansSpool};

use crate::paths::joined_texts;
use host_calls::Text;
use std::alloc::{AllocError, Global};

/// What the place of the spool depends on.
#[derive(Drop)]
pub struct SpoolSources {
    /// The value of ATSPOOL; empty where it is absent.
    pub named: Text,
    /// Whether the caller's user number is 0.
    pub is_root: bool,
    /// The caller's name.
    pub user: Text,
    /// The caller's home directory, where it exists and is the caller's own.
    pub home: Option<Text>,
    /// The value of XDG_STATE_HOME; empty where it is absent.
    pub state: Text,
}

/// The spool that is meant.
#[derive(Drop)]
pub enum MeantSpool {
    /// This one: named by ATSPOOL, root's, or the one that the package makes for a user without a home directory.
    Fixed(Text),
    /// One below the caller's home directory: the usual place. A former place that has a directory of the caller's is used
    /// where the usual one has none, the first such. Where all are absent the usual one is made.
    Home { usual: Text, former: Vec<Text> },
}

/// The spool that is meant where no word names one.
pub fn meant_spool(alloc: Global, sources: &SpoolSources) -> Result<MeantSpool, AllocError>
    ensures { IfOk result (λ meant. MeansSpool sources.now meant) }
{
    if !sources.named.as_str().is_empty() {
        return Ok(MeantSpool::Fixed(Text::of(alloc, sources.named.as_str())?));
    }
    if sources.is_root {
        return Ok(MeantSpool::Fixed(Text::of(alloc, "/var/spool/atjobs")?));
    }
    match &sources.home {
        Some(home) => home_spool(alloc, home.as_str(), sources.state.as_str()),
        None => Ok(MeantSpool::Fixed(joined_texts(
            alloc,
            "/var/spool/coefhird/",
            sources.user.as_str(),
        )?)),
    }
}

// The spool below a home directory.
fn home_spool(alloc: Global, home: &str, state: &str) -> Result<MeantSpool, AllocError>
    ensures { IfOk result (MeansHomeSpool home.now state.now) }
{
    let former = former_places(alloc, home, state)?;
    let usual = joined_texts(alloc, home, "/.local/state/coefhird/jobs")?;
    Ok(MeantSpool::Home { usual, former })
}

// The places of before, below the directory of state that the variable names and below that of settings.
fn former_places(alloc: Global, home: &str, state: &str) -> Result<Vec<Text>, AllocError>
    ensures { IfOk result (λ places. places.items ≡ former_places home.now state.now) }
{
    let mut places = Vec::new(alloc);
    if !state.is_empty() {
        places.push(joined_texts(alloc, state, "/coefhird/jobs")?)?;
    }
    places.push(joined_texts(alloc, home, "/.config/coefhird/jobs")?)?;
    Ok(places)
}
