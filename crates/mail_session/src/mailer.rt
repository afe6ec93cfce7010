//! A post: it keeps the children that came of its notices, and makes sessions of mail.
ghost use Rattle.std.specs.Prelude.{◌≡◌, IfOk, IsTrue};
ghost use Rattle.at_words.specs.Numbers.{are_distinct};
ghost use Rattle.daemon_turn.specs.Kids.{AreChildren};
ghost use Rattle.host_calls.specs.Session.{IsOutside};
ghost use Rattle.mail_session.specs.SessionOutcome.{PostsTo};
ghost use Rattle.mail_session.specs.PostState.{may_be_program, new_post};

use crate::PostReport;
use crate::work::mail_session_body;
use at_words::Numbers;
use daemon_turn::{Kid, TurnEnd, end_of_session};
use host_calls::{Host, in_session};
use std::alloc::{AllocError, Global};
use std::marker::Model;

/// A post: its mail program, and its children, each the child of a notice.
#[derive(Drop)]
pub struct Post {
    program: Vec<u8>,
    kids: Vec<Kid>,
}

impl Model for Post {
    ghost use Rattle.mail_session.specs.PostState.{PostState, post_code};

    ghost Value = { PostState };

    ghost coded = { post_code };

    ghost view = { λ post. record { program = post.program.items; kids = post.kids.items } };
}

impl Post {
    /// A post without children, for this mail program: the path begins with a slash, and holds no zero byte.
    pub fn new(alloc: Global, program: &str) -> Result<Post, AllocError>
        requires { IsTrue (may_be_program program.now) }
        ensures { IfOk result (λ post. post ≡ new_post program.now) }
    {
        let mut bytes = Vec::new(alloc);
        bytes.extend_from_slice(program.as_bytes())?;
        Ok(Post {
            program: bytes,
            kids: Vec::new(alloc),
        })
    }

    /// The children, in the order in which they came.
    pub fn kids(&self) -> &[Kid]
        ensures { result.now ≡ self.now.kids }
    {
        self.kids.as_slice()
    }

    /// Makes one session: the jobs that are new are noted, the notice of each job that has ended is sent once its
    /// note stands, and files of notices that belong to no child are removed.
    pub fn session<H: Host>(&mut self, alloc: Global, host: &mut H) -> PostReport
        requires outside { IsOutside (H.session host.old) }
        requires children { AreChildren (H.session host.old).children self.old.kids }
        ensures { PostsTo H.tells H.alone
            (record { session = H.session host.old; world = H.world host.old; post = self.old })
            (record { session = H.session host.new; world = H.world host.new; post = self.new })
            result.end result.sent }
    {
        let program = self.program.as_slice();
        let kids = &mut self.kids;
        let mut sent = Vec::new(alloc);
        let worked = in_session(
            alloc,
            host,
            &mut |host| mail_session_body(alloc, host, program, kids, &mut sent),
        );
        mail_report(end_of_session(worked), sent)
    }
}

// The report of a session.
fn mail_report(end: TurnEnd, sent: Vec<u32>) -> PostReport
    requires { IsTrue (are_distinct sent.items) }
    ensures end { result.end ≡ end }
    ensures sent { result.sent ≡ sent.items }
{
    PostReport {
        end,
        sent: Numbers::of_distinct(sent),
    }
}
