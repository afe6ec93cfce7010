//! The jobs that letters and numbers name.
ghost use Rattle.std.specs.Prelude.{◌≡◌};
ghost use Rattle.clap.specs.Walk.{texts};
ghost use Rattle.at_words.specs.Answers.{Answers, or_usage};
ghost use Rattle.at_words.specs.Asked.{filter_asked, letter_filter, some_numbers};
ghost use Rattle.at_words.specs.Numbers.{numbers_between, numbers_of};
ghost use Rattle.at_words.specs.Rows.{text_of};

use crate::{Filter, Numbers, WordsFault, digits, queue};
use std::alloc::Global;

/// The jobs of a letter, or of these numbers, or all.
pub fn filter(alloc: Global, queue: Option<&str>, operands: &[&str]) -> Result<Filter, WordsFault>
    ensures { Answers (filter_asked (text_of queue.entry) (texts operands.entry.now)) result }
{
    match queue {
        Some(text) if operands.is_empty() => queue_letter(text),
        Some(_) => Err(WordsFault::Usage),
        None if operands.is_empty() => Ok(Filter::All),
        None => Ok(Filter::Numbers(numbers(alloc, operands)?)),
    }
}

fn queue_letter(text: &str) -> Result<Filter, WordsFault>
    ensures { result ≡ letter_filter text.now }
{
    match queue::shown_letter(text) {
        Some(letter) => Ok(Filter::Queue(letter)),
        None => Err(WordsFault::BadQueue),
    }
}

/// The numbers that these operands spell, of which there is at least one.
pub fn one_or_more(alloc: Global, operands: &[&str]) -> Result<Numbers, WordsFault>
    ensures { Answers (some_numbers (texts operands.entry.now)) result }
{
    if operands.is_empty() {
        return Err(WordsFault::Usage);
    }
    numbers(alloc, operands)
}

fn numbers(alloc: Global, operands: &[&str]) -> Result<Numbers, WordsFault>
    ensures { Answers (or_usage (numbers_of (texts operands.entry.now))) result }
{
    numbers_between(alloc, operands, 1, u32::MAX)
}

/// The numbers from the least to the greatest that these operands spell, each once.
pub fn numbers_between(
    alloc: Global,
    operands: &[&str],
    least: u32,
    greatest: u32,
) -> Result<Numbers, WordsFault>
    ensures { Answers (or_usage (numbers_between least greatest (texts operands.entry.now))) result }
{
    let mut numbers = Numbers::new(alloc);
    for operand in operands {
        match digits::job(operand, least, greatest) {
            Some(number) => numbers.push(alloc, number)?,
            None => return Err(WordsFault::Usage),
        }
    }
    Ok(numbers)
}
