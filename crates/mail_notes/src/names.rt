//! The names of the files of mail.
ghost use Rattle.std.specs.Prelude.{◌≡◌};
ghost use Rattle.mail_notes.specs.Names.{mail_file, mail_temp, notice_file, notice_number};

use host_calls::Name;
use text_reader::{digits_of, read_hex};

/// The name of the file of the notes.
pub fn mail_name() -> Name
    ensures { result ≡ mail_file }
{
    Name::of(b".MAIL").unwrap()
}

/// The name under which a file of mail is made.
pub fn mail_temp_name() -> Name
    ensures { result ≡ mail_temp }
{
    Name::of(b".MTMP").unwrap()
}

/// The name of the file of a notice, by the number of its job.
pub fn notice_name(number: u32) -> Name
    ensures { result ≡ notice_file number }
{
    let [a, b, c, d, e, f, g, h] = digits_of(number);
    Name::of(&[b'm', b'a', b'i', b'l', b'.', a, b, c, d, e, f, g, h]).unwrap()
}

/// The number of the job whose notice has this name. None where it is not that of a notice.
pub fn notice_number(name: &Name) -> Option<u32>
    ensures { result ≡ notice_number name.now }
{
    let bytes = name.as_bytes();
    if bytes.len() != 13 {
        return None;
    }
    let (prefix, digits) = bytes.split_at(5);
    if prefix != b"mail.".as_slice() {
        return None;
    }
    let number = read_hex(digits)?;
    Some(number as u32)
}
