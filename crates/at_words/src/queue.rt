//! Letters of queues.
ghost use Rattle.std.specs.Prelude.{◌≡◌};
ghost use Rattle.at_words.specs.Queues.{queue_letter, shown_letter};

/// The queue of one letter.
pub fn queue_letter(text: &str) -> Option<u8>
    ensures { result ≡ queue_letter text.now }
{
    match text.as_bytes() {
        [byte] if byte.is_ascii_alphabetic() => Some(*byte),
        _ => None,
    }
}

/// The letter that a listing shows: that of a queue, or `=` for jobs that run.
pub fn shown_letter(text: &str) -> Option<u8>
    ensures { result ≡ shown_letter text.now }
{
    match text.as_bytes() {
        [byte] if byte.is_ascii_alphabetic() || *byte == b'=' => Some(*byte),
        _ => None,
    }
}
