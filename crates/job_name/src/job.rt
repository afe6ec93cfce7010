//! What the name of a job's file says.
ghost use Rattle.std.specs.Prelude.{◌≡◌, ◌≤◌, ◌<◌, ◌^◌, ◌↔◌, ℕ, IsTrue};
ghost use Rattle.std.specs.Char.{is_ascii_alphabetic};
ghost use Rattle.host_calls.specs.ClockRange.{IsClockMinute};
ghost use Rattle.spool_model.specs.Numbers.{number_digits};
ghost use Rattle.job_name.specs.JobName.{IsInRange};

use arrayvec::ArrayVec;
use host_calls::{LAST_MINUTE, Name};
use spool_model::number_digits;

/// How many bytes a job's name has in the new form.
pub const LENGTH: usize = 17;

/// The queue, number and minute of a job, as its file's name has them. The new form has eight digits of the number,
/// the old one has five.
#[derive(Clone, Copy, Debug, PartialEq, Eq)]
pub struct JobName {
    pub queue: u8,
    pub number: u32,
    pub minute: u32,
    pub new_form: bool,
    pub ghost letter: { IsTrue (is_ascii_alphabetic queue) },
    pub ghost drawn: { 1 ≤ number },
    pub ghost fits: { number < 16 ^ number_digits new_form },
    pub ghost in_calendar: { IsClockMinute minute },
}

impl JobName {
    ghost use Rattle.std.specs.Prelude.{Bool, IfSome, IsSomeAnd};
    ghost use Rattle.job_name.specs.JobName.{SpellsJobName};

    /// The job that these bytes name, if they are the name of one.
    pub fn read(bytes: &[u8]) -> Option<JobName>
        ensures spelled { IfSome result
            (λ job. SpellsJobName bytes.now job.queue job.number job.minute job.new_form) }
        ensures found { (queue number minute : ℕ) (new_form : Bool)
            → SpellsJobName bytes.now queue number minute new_form
            → IsSomeAnd result (λ job. (job.queue ≡ queue) × (job.number ≡ number) × (job.minute ≡ minute)
            × (job.new_form ≡ new_form)) }
    {
        JobName::read_as(bytes, bytes.len() == LENGTH)
    }

    // The job that these bytes name in this form, if they do.
    fn read_as(bytes: &[u8], new_form: bool) -> Option<JobName>
        ensures form { IfSome result (λ job. job.new_form ≡ new_form) }
        ensures spelled { IfSome result (λ job. SpellsJobName bytes.now job.queue job.number job.minute new_form) }
        ensures found { (queue number minute : ℕ) → SpellsJobName bytes.now queue number minute new_form
            → IsSomeAnd result (λ job. (job.queue ≡ queue) × (job.number ≡ number) × (job.minute ≡ minute)) }
    {
        let digits = number_digits(new_form);
        if bytes.len() != 9 + digits {
            return None;
        }
        let queue = bytes[0];
        let number = text_reader::read_hex(&bytes[1..1 + digits])? as u32;
        let minute = text_reader::read_hex(&bytes[1 + digits..9 + digits])? as u32;
        if !is_in_range(queue, number, minute) {
            return None;
        }
        Some(JobName {
            queue,
            number,
            minute,
            new_form,
        })
    }

    /// The bytes of the name: 17 in the new form, 14 in the old one.
    pub fn text(&self) -> ArrayVec<u8, LENGTH>
        ensures { SpellsJobName result.items self.now.queue self.now.number self.now.minute self.now.new_form }
    {
        let digits = number_digits(self.new_form);
        let mut bytes = [self.queue; LENGTH];
        text_reader::write_hex(&mut bytes[1..1 + digits], self.number as u64);
        text_reader::write_hex(&mut bytes[1 + digits..9 + digits], self.minute as u64);
        let mut text = ArrayVec::from(bytes);
        text.truncate(9 + digits);
        text
    }

    /// The name of the job's file.
    pub fn name(&self) -> Name
        ensures { SpellsJobName result self.now.queue self.now.number self.now.minute self.now.new_form }
    {
        Name::of(self.text().as_slice()).unwrap()
    }
}

fn is_in_range(queue: u8, number: u32, minute: u32) -> bool
    ensures { IsTrue result ↔ IsInRange queue number minute }
{
    queue.is_ascii_alphabetic() && number != 0 && minute <= LAST_MINUTE
}
