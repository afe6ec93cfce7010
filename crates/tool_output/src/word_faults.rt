//! The cause of words that request nothing.
ghost use Rattle.std.specs.Prelude.{◌≡◌};
ghost use Rattle.tool_output.specs.Causes.{words_cause};

use at_words::WordsFault;
use listing_text::{Cause, Refusal};

/// The cause of words that request nothing.
pub fn cause_of_words(fault: WordsFault) -> Cause
    ensures { result ≡ words_cause fault }
{
    match fault {
        WordsFault::Usage => Cause::Refused(Refusal::Usage),
        WordsFault::BadQueue => Cause::Refused(Refusal::BadQueue),
        WordsFault::Memory => Cause::Memory,
    }
}
