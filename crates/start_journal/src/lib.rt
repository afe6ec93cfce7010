//! `.JRN`, the journal of starts and ends: marks, slots, compaction, damage. A crash leaves the marks before or after a
//! call; an added mark is in each image.
//!
//! Each is one slot of the file `.JRN`.
#![tactic(auto)]

mod change;
mod compaction;
mod damage;
mod fault;
mod fields;
mod journal;
mod kept_marks;
mod laws;
mod life_map;
mod lifecycles;
mod mark;
mod names;
mod overwrite;
mod recall;
mod right_prefix;
mod slot;
mod stage;
mod take_marks;
mod text;

pub use compaction::COMPACTION_SLOTS;
pub use damage::{gate_damage, queue_damage};
pub use fault::JournalFault;
pub use fields::Fields;
pub use journal::Journal;
pub use kept_marks::last_batch;
pub use laws::{
    journals_are_damaged_at_their_first_fault, journals_read_back, kept_marks_are_legal,
    kept_marks_keep_what_counts, marks_have_one_spelling, numbers_live_once,
    right_prefixes_are_longest, slots_give_their_marks,
};
pub use lifecycles::{Lifecycle, Lifecycles};
pub use mark::Mark;
pub use names::journal_name;
pub use slot::{SLOT, mark_text, read_mark};
pub use stage::Stage;
pub use take_marks::{Taken, TakenMark, take};
pub use text::journal_text;
