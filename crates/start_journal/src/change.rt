//! Adding a mark, and compacting the journal.
ghost use Rattle.std.specs.Prelude.{◌≡◌, ◌≤◌, ◌+◌, ◌*◌, ◌^◌, [], IfOk, IsTrue, OnOk, length};
ghost use Rattle.host_calls.specs.Directory.{IsInNoImage};
ghost use Rattle.host_calls.specs.Session.{CallsInside, IsInside};
ghost use Rattle.whole_file.specs.Others.{ChangesFiles};
ghost use Rattle.start_journal.specs.JournalChange.{HoldsJournal, IsChanged, IsChanging, IsReplacing, added, compacted};
ghost use Rattle.whole_file.specs.Temporary.{temporary_file};
ghost use Rattle.start_journal.specs.Marks.{IsLegalAfter};
ghost use Rattle.start_journal.specs.Slots.{IsWritable};

use crate::kept_marks::kept_marks;
use crate::names::journal_name;
use crate::overwrite::overwrite;
use crate::slot::SLOT;
use crate::text::journal_text;
use crate::{Journal, Mark, mark_text};
use host_calls::{Host, HostFault};
use std::alloc::{AllocError, Global};
use whole_file::{place, temporary_name};

// How many slots are free after a compaction.
const FREE_SLOTS: u64 = 256;

impl Journal {
    /// Adds the mark. Once it is added it is in every image. A fault consumes the journal.
    pub fn add<H: Host>(self, alloc: Global, host: &mut H, mark: Mark) -> Result<Journal, HostFault>
        requires inside { IsInside (H.session host.old) }
        requires free { 1 ≤ self.free }
        requires writable { IsWritable mark }
        requires legal { IsLegalAfter self.marks mark }
        requires holds { IsTrue H.tells → HoldsJournal self (H.world host.old).now.directory }
        ensures inside { CallsInside HostFault.Failed (H.session host.old) (H.session host.new) result }
        ensures journal { IfOk result (λ journal. journal ≡ added self mark) }
        ensures files { IsTrue H.tells
            → ChangesFiles (IsChanging self (added self mark) (H.world host.old).now.directory)
            (H.world host.old) (H.world host.new) }
        ensures added { IsTrue H.tells → OnOk result (IsChanged (added self mark)
            (H.world host.old).now.directory (H.world host.new).now.directory) }
    {
        let name = journal_name();
        let offset = self.first_free();
        let journal = self.with_mark(mark)?;
        let slot = mark_text(&mark);
        // While its gate is closed, a slot counts for nothing: a crash leaves it free, whatever its bytes are.
        overwrite(alloc, host, &name, offset + 1, &slot[1..])?;
        // The other bytes are durable now: a gate that opens over others could show a mark that nobody made.
        overwrite(alloc, host, &name, offset, &slot[..1])?;
        Ok(journal)
    }

    /// Drops what no longer counts, and makes free slots. A fault consumes the journal.
    pub fn compact<H: Host>(self, alloc: Global, host: &mut H) -> Result<Journal, HostFault>
        requires inside { IsInside (H.session host.old) }
        requires holds { IsTrue H.tells → HoldsJournal self (H.world host.old).now.directory }
        ensures inside { CallsInside HostFault.Failed (H.session host.old) (H.session host.new) result }
        ensures journal { IfOk result (λ journal. journal ≡ compacted self) }
        ensures files { IsTrue H.tells
            → ChangesFiles (IsChanging self (compacted self) (H.world host.old).now.directory)
            (H.world host.old) (H.world host.new) }
        ensures compacted { IsTrue H.tells → OnOk result (IsChanged (compacted self)
            (H.world host.old).now.directory (H.world host.new).now.directory) }
    {
        let journal = self.kept(alloc)?;
        journal.replace(alloc, host)?;
        Ok(journal)
    }

    // The offset of the first free slot.
    fn first_free(&self) -> u64
        ensures offset { result ≡ 32 * length self.now.marks }
        ensures fits { result + 32 ≤ 2 ^ 64 }
    {
        SLOT as u64 * self.marks.as_slice().len() as u64
    }

    // This journal and the mark, in a slot that was free.
    fn with_mark(self, mark: Mark) -> Result<Journal, AllocError>
        requires free { 1 ≤ self.free }
        requires writable { IsWritable mark }
        requires legal { IsLegalAfter self.marks mark }
        ensures { IfOk result (λ journal. journal ≡ added self mark) }
    {
        let Journal { mut marks, free } = self;
        marks.push(mark)?;
        Ok(Journal {
            marks,
            free: free - 1,
        })
    }

    // What a compaction keeps of this journal, and free slots.
    fn kept(&self, alloc: Global) -> Result<Journal, AllocError>
        ensures { IfOk result (λ journal. journal ≡ compacted self.now) }
    {
        Ok(Journal {
            marks: kept_marks(alloc, self.marks.as_slice())?,
            free: FREE_SLOTS,
        })
    }

    // Puts this journal in place of the one that the directory has.
    fn replace<H: Host>(&self, alloc: Global, host: &mut H) -> Result<(), HostFault>
        requires inside { IsInside (H.session host.old) }
        requires no_temp { IsTrue H.tells → IsInNoImage (H.world host.old).now.directory temporary_file }
        ensures inside { CallsInside HostFault.Failed (H.session host.old) (H.session host.new) result }
        ensures files { IsTrue H.tells
            → ChangesFiles (IsReplacing self.now (H.world host.old).now.directory)
            (H.world host.old) (H.world host.new) }
        ensures replaced { IsTrue H.tells → OnOk result (IsChanged self.now
            (H.world host.old).now.directory (H.world host.new).now.directory) }
    {
        let text = journal_text(alloc, self.marks.as_slice(), self.free)?;
        place(
            alloc,
            host,
            &temporary_name(),
            &journal_name(),
            text.as_slice(),
        )
    }
}
