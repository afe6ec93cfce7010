//! The words of states.
ghost use Rattle.std.specs.Prelude.{◌≡◌};
ghost use Rattle.at_stat.specs.Lines.{state_word};

use spool_model::State;

// The word of a live job's state.
pub(crate) fn state_word(state: State) -> &'static str
    ensures { result.now ≡ state_word state }
{
    match state {
        State::Pending => "waiting",
        State::Running(_) => "running",
    }
}
