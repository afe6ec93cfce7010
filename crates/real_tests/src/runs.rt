//! What a real directory answers, compared with the model.
ghost use Rattle.std.specs.Prelude.{◌<◌};
ghost use Rattle.host_calls.specs.Session.{IsOutside};

use crate::commands::rounds;
use crate::spools::{KeptDirectory, clear, fresh_spool, kept_directory, line};
use crate::tally::Tally;
use host_calls::Host;
use std::test::Fail;

// How many of some rounds went well, and what the witness counted up to their end.
#[derive(Clone, Copy, Debug)]
struct Played {
    well: u32,
    tally: Tally,
}

// So many rounds over this directory, after so many others.
fn play(
    rt: &HostRuntime,
    before: u32,
    count: u32,
    directory: &mut KeptDirectory,
) -> Result<Played, Fail>
    requires outside { IsOutside (⟦<KeptDirectory as Host>⟧.session directory.old) }
    requires few { before < 1000000 }
    requires few_more { count < 1000 }
    ensures { IsOutside (⟦<KeptDirectory as Host>⟧.session directory.new) }
{
    let well = rounds(rt.alloc(), before, count, directory)?;
    let tally = directory.witness().tally();
    Ok(Played { well, tally })
}

// So many rounds over a directory of its own, and three more after a stranger put a file.
fn played_over(rt: &HostRuntime, path: &str, count: u32) -> Result<(Played, Played), Fail>
    requires { count < 1000 }
{
    let mut directory = kept_directory(rt, path)?;
    let alone = play(rt, 0, count, &mut directory)?;
    line(rt, "echo 1 >\"$1/stranger\"", path)?;
    let after = play(rt, count, 3, &mut directory)?;
    drop(directory);
    Ok((alone, after))
}

#[test]
fn no_answer_of_a_spool_is_disputed_but_of_a_file_of_a_stranger(
    rt: HostRuntime,
) -> Result<(), Fail> {
    let path = fresh_spool(&rt, "alone")?;
    let (alone, after) = played_over(&rt, path.as_str(), 30)?;
    clear(&rt, path.as_str())?;
    assert!(rt;
        alone.well == 30 && alone.tally.is_undisputed(5000),
        "{alone:?}"
    );
    assert!(rt; after.well == 0 && after.tally.disputes > 0, "{after:?}");
    Ok(())
}
