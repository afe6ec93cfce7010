//! Mail, over what the program is lent.
ghost use Rattle.std.specs.Prelude.{◌≡◌, ◌∷◌, [], IfOk, OnErr, codes, map, string_bytes};
ghost use Rattle.host_calls.specs.Session.{IsOutside};
ghost use Rattle.real_programs.specs.PostRuns.{IsPostAfterTrim, PostsUnless, is_damage, trim_words};
ghost use Rattle.real_programs.specs.Runs.{IsPostRun, IsTrimRun};

use crate::system::ProgramSystem;
use at_mail::{post_program, trim_program};
use host_calls::{Host, Readings, Sink};
use listing_text::{Cause, Status};
use std::alloc::{AllocError, Global};

/// Makes sessions of mail.
pub fn run_post<D: Host, C: Readings, I, O, E: Sink>(
    alloc: Global,
    words: &[String],
    system: &mut ProgramSystem<D, C, I, O, E>,
) -> Status
    requires { IsOutside (D.session system.old.directory) }
    ensures { IsPostRun D.Host C.Readings E.Sink (map string_bytes words.now) system.old system.new result }
{
    post_program(
        alloc,
        words,
        &mut system.directory,
        &mut system.clock,
        &mut system.errors,
    )
}

/// Makes one trim of the notes of mail.
pub fn run_trim<D: Host, C, I, O, E: Sink>(
    alloc: Global,
    words: &[String],
    system: &mut ProgramSystem<D, C, I, O, E>,
) -> Status
    requires { IsOutside (D.session system.old.directory) }
    ensures run { IsTrimRun D.Host E.Sink (map string_bytes words.now) system.old system.new result }
    ensures outside { IsOutside (D.session system.new.directory) }
{
    trim_program(alloc, words, &mut system.directory, &mut system.errors)
}

/// Makes one trim, and then sessions of mail. A trim that reports a damage ends the program, since each session would
/// report it again.
pub fn run_post_after_trim<D: Host, C: Readings, I, O, E: Sink>(
    alloc: Global,
    words: &[String],
    system: &mut ProgramSystem<D, C, I, O, E>,
) -> Result<Status, AllocError>
    requires { IsOutside (D.session system.old.directory) }
    ensures run { IfOk result (λ status. IsPostAfterTrim D.Host C.Readings E.Sink (map string_bytes words.now)
        system.old system.new status) }
    ensures unrun { OnErr result (system.new ≡ system.old) }
{
    let trim = trim_words(alloc)?;
    let trimmed = trim_by(alloc, &trim, system);
    Ok(post_unless(alloc, is_damage(&trimmed.cause), trimmed, words, system))
}

fn trim_words(alloc: Global) -> Result<Vec<String>, AllocError>
    ensures { IfOk result (λ words. map string_bytes words.items ≡ trim_words) }
{
    let program = String::from_str(alloc, "atpost")?;
    let option = String::from_str(alloc, "--trim")?;
    Ok(vec![in alloc; program, option]?)
}

// A trim by those words.
fn trim_by<D: Host, C, I, O, E: Sink>(
    alloc: Global,
    words: &[String],
    system: &mut ProgramSystem<D, C, I, O, E>,
) -> Status
    requires outside { IsOutside (D.session system.old.directory) }
    requires words { map string_bytes words.now ≡ trim_words }
    ensures run { IsTrimRun D.Host E.Sink trim_words system.old system.new result }
    ensures outside { IsOutside (D.session system.new.directory) }
{
    run_trim(alloc, words, system)
}

fn is_damage(cause: &Cause) -> bool
    ensures { result ≡ is_damage cause.now }
{
    matches!(cause, Cause::Damaged(_))
}

// The status of the trim where it stops the program; else that of the sessions.
fn post_unless<D: Host, C: Readings, I, O, E: Sink>(
    alloc: Global,
    is_stopped: bool,
    trimmed: Status,
    words: &[String],
    system: &mut ProgramSystem<D, C, I, O, E>,
) -> Status
    requires { IsOutside (D.session system.old.directory) }
    ensures { PostsUnless is_stopped D.Host C.Readings E.Sink (map string_bytes words.now) system.old trimmed
        system.new result }
{
    if is_stopped {
        return trimmed;
    }
    run_post(alloc, words, system)
}
