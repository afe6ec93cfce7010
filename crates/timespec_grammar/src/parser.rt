//! From tokens to a timespec.
ghost use Rattle.std.specs.Prelude.{◌≡◌, length, IfOk, IfErr, OnErr};
ghost use Rattle.timespec_grammar.specs.Grammar.{Spells, IsTimespecInRange, tokens_of};
ghost use Rattle.timespec_grammar.specs.Viable.{StopsAt};
ghost use Rattle.timespec_grammar.specs.declared.timespec.Timespec.{Timespec as Spec};

use crate::read::Read;
use crate::steps::{step, timespec_read};
use crate::{GrammarFault, Timespec};
use timespec_lexer::Placed;

/// The timespec that the tokens spell, or the first token that stops them.
pub fn parse(tokens: &[Placed]) -> Result<Timespec, GrammarFault>
    ensures spelled { IfOk result (λ spec. Spells (tokens_of tokens.now) spec) }
    ensures only { IfOk result (λ spec. (other : Spec) → Spells (tokens_of tokens.now) other → other ≡ spec) }
    ensures in_range { IfOk result IsTimespecInRange }
    ensures fault { IfErr result (λ fault. StopsAt (tokens_of tokens.now) fault.token) }
    ensures refused { OnErr result ((spec : Spec) → ¬ Spells (tokens_of tokens.now) spec) }
{
    let mut read = Read::Nothing;
    for (index, placed) in tokens.iter().enumerate() {
        let Some(more) = step(read, placed.token) else {
            return Err(GrammarFault { token: index });
        };
        read = more;
    }
    let Some(spec) = timespec_read(read) else {
        return Err(GrammarFault {
            token: tokens.len(),
        });
    };
    Ok(spec)
}
