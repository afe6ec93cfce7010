//! The value of an option, as the words give it.
ghost use Rattle.std.specs.Prelude.{◌≡◌, map, option_map, string_bytes};
ghost use Rattle.caller_rules.specs.OptionValues.{last_value, value_in_word};

/// The value that the words give an option, by the last word that has it: what is joined to its name there, or else the next
/// word.
pub fn last_value<'a>(words: &'a [String], name: &str, joined: &str) -> Option<&'a str>
    ensures { option_map (λ value. value.now) result ≡ last_value name.now joined.now (map string_bytes words.now) }
{
    match words {
        [] => None,
        [word, later @ ..] => match last_value(later, name, joined) {
            Some(value) => Some(value),
            None => value_in_word(word, later, name, joined),
        },
    }
}

// The value that this word gives, or else the next one.
fn value_in_word<'a>(
    word: &'a str,
    later: &'a [String],
    name: &str,
    joined: &str,
) -> Option<&'a str>
    ensures { option_map (λ value. value.now) result
        ≡ value_in_word name.now joined.now word.now (map string_bytes later.now) }
{
    if word == name {
        return later.first().map(|value| value.as_str());
    }
    word.strip_prefix(joined)
}
