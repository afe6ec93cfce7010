//! A time of `at -t` and its spelling.
ghost use Rattle.std.specs.Prelude.{◌≡◌, IfSome, Some};
ghost use Rattle.touch_time.specs.Touch.{SpellsTouch};

use crate::reader;

/// A time as it was spelled: the year where one was, and no seconds.
#[derive(Clone, Copy, Debug, PartialEq, Eq)]
pub struct TouchTime {
    pub year: Option<u16>,
    pub month: u8,
    pub day: u8,
    pub hour: u8,
    pub minute: u8,
}

/// The time that the text spells as `[[CC]YY]MMDDhhmm[.SS]`, if it spells one.
pub fn read_touch(text: &[u8]) -> Option<TouchTime>
    ensures spelled { IfSome result (SpellsTouch text.now) }
    ensures only { (time : TouchTime) → SpellsTouch text.now time → result ≡ Some time }
{
    reader::read_touch(text)
}
