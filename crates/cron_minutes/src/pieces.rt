//! The pieces of a command.
ghost use Rattle.std.specs.Prelude.{◌≡◌, ◌<◌, ◌∷◌, [], MatchOption, IfSome, length};
ghost use Rattle.cron_minutes.specs.Commands.{pieces};

/// A byte of a part, or a cut between two parts.
#[derive(Clone, Copy)]
pub(crate) enum Piece {
    Byte(u8),
    Cut,
}

/// The first piece of the command, and what comes after it.
#[tactic(auto, unfolding(crate::specs::Commands::pieces))]
pub(crate) fn next_piece(command: &[u8]) -> Option<(Piece, &[u8])>
    ensures piece { MatchOption result (pieces command.now ≡ [])
        (λ found. pieces command.now ≡ found.0 ∷ pieces found.1.now) }
    ensures shorter { IfSome result (λ found. length found.1.now < length command.now) }
{
    match command {
        [] => None,
        [b'\\', b'%', after @ ..] => Some((Piece::Byte(b'%'), after)),
        [b'%', after @ ..] => Some((Piece::Cut, after)),
        [byte, after @ ..] => Some((Piece::Byte(*byte), after)),
    }
}
