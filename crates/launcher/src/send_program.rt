//! The program that notices are sent with. One that can't be executed loses each notice, so atpost doesn't begin with it.
ghost use Rattle.std.specs.Prelude.{◌≡◌, IfSome, Some, codes, map, string_bytes};
ghost use Rattle.caller_rules.specs.OptionValues.{last_value};

use caller_rules::last_value;
use std::fs;
use std::os::unix::fs::MetadataExt;

/// The program that the words of atpost name by `--send`, where it can't be executed.
pub fn unusable_program<'a>(rt: &HostRuntime, words: &'a [String]) -> Option<&'a str>
    ensures { IfSome result (λ path.
        last_value (codes "--send") (codes "--send=") (map string_bytes words.now) ≡ Some path.now) }
{
    last_value(words, "--send", "--send=").filter(|path| !can_execute(rt, path))
}

fn can_execute(rt: &HostRuntime, path: &str) -> bool {
    match fs::metadata(rt, path) {
        Ok(found) => found.is_file() && found.mode() & 0o111 != 0,
        Err(_) => false,
    }
}
