//! Texts and entries.
ghost use Rattle.std.specs.Prelude.{◌≡◌, ◌≤◌, ℕ, List, length};
ghost use Rattle.std.specs.List.{All};
ghost use Rattle.cron_text.specs.Crontab.{IsFirstBad, SpellsCrontab};
ghost use Rattle.cron_text.specs.declared.entry.CronEntry.{CronEntry};

/// A text spells the entries of one list at most, and then no line of it is bad and no command is
/// longer than the text; and one line at most is its first bad one.
pub fn crontabs_have_one_reading(text: &[u8])
    ensures entries { (one : List CronEntry) (two : List CronEntry)
        → SpellsCrontab text.now one → SpellsCrontab text.now two → one ≡ two }
    ensures good { (entries : List CronEntry) (line : ℕ)
        → SpellsCrontab text.now entries → ¬ IsFirstBad text.now line }
    ensures few { (entries : List CronEntry)
        → SpellsCrontab text.now entries → All (λ entry. length entry.command ≤ length text.now) entries }
    ensures line { (one : ℕ) (two : ℕ)
        → IsFirstBad text.now one → IsFirstBad text.now two → one ≡ two }
{
    let _ = text;
}
