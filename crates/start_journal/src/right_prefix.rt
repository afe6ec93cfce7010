//! How far a slot that spells no mark is like the slot of one.
ghost use Rattle.std.specs.Prelude.{◌≡◌, ◌≤◌, ◌<◌, length};
ghost use Rattle.start_journal.specs.SlotBytes.{is_number_prefix, is_second_prefix, is_ending_of, is_kind, is_queue_of, is_status_of, may_stand, right_prefix};
ghost use Rattle.text_reader.specs.HexValues.{are_zeros, is_digit};

use crate::slot::SLOT;
use host_calls::LAST_SECOND;
use text_reader::is_digit;

// How many of the first bytes of the slot some mark's slot has too.
pub(crate) fn right_prefix(slot: &[u8; SLOT]) -> usize
    ensures prefix { result ≡ right_prefix slot.now }
    ensures few { result ≤ 32 }
{
    for place in 0..SLOT {
        if !may_stand(slot, place) {
            return place;
        }
    }
    SLOT
}

// Whether the byte at this place is one of some mark's slot, after those before it.
#[tactic(auto, unfolding(crate::specs::SlotBytes::may_stand))]
fn may_stand(slot: &[u8; SLOT], place: usize) -> bool
    requires { place < 32 }
    ensures { result ≡ may_stand slot.now place }
{
    let kind = slot[1];
    match place {
        0 => slot[0] == b'+',
        1 => is_kind(kind),
        2..=9 => is_number_prefix(kind, &slot[2..place + 1]),
        10 => is_queue_of(kind, slot[10]),
        11 => is_ending_of(kind, slot[11]),
        12..=13 => is_status_of(slot[11], slot[place]),
        14..=29 => is_second_prefix(kind, &slot[14..place + 1]),
        30 => slot[30] == b'.',
        _ => slot[31] == b'\n',
    }
}

fn is_kind(byte: u8) -> bool
    ensures { result ≡ is_kind byte }
{
    matches!(byte, b'R' | b'S' | b'E' | b'I' | b'F' | b'B')
}

fn is_number_prefix(kind: u8, digits: &[u8]) -> bool
    requires { length digits.now ≤ 8 }
    ensures { result ≡ is_number_prefix kind digits.now }
{
    if kind == b'B' {
        return are_zeros(digits);
    }
    match text_reader::read_hex(digits) {
        // The number of a job is at least 1.
        Some(number) => digits.len() < 8 || number != 0,
        None => false,
    }
}

fn is_queue_of(kind: u8, byte: u8) -> bool
    ensures { result ≡ is_queue_of kind byte }
{
    if kind == b'S' {
        byte.is_ascii_alphabetic()
    } else {
        byte == b'-'
    }
}

fn is_ending_of(kind: u8, byte: u8) -> bool
    ensures { result ≡ is_ending_of kind byte }
{
    if kind == b'E' {
        matches!(byte, b'x' | b's' | b'n')
    } else {
        byte == b'-'
    }
}

fn is_status_of(ending: u8, byte: u8) -> bool
    ensures { result ≡ is_status_of ending byte }
{
    if ending == b'x' || ending == b's' {
        is_digit(byte)
    } else {
        byte == b'0'
    }
}

fn is_second_prefix(kind: u8, digits: &[u8]) -> bool
    requires some { 1 ≤ length digits.now }
    requires few { length digits.now ≤ 16 }
    ensures { result ≡ is_second_prefix kind digits.now }
{
    if kind != b'S' && kind != b'B' {
        return are_zeros(digits);
    }
    match text_reader::read_hex(digits) {
        // The digits that are left can all be zeros.
        Some(prefix) => prefix <= LAST_SECOND as u64 >> (4 * (16 - digits.len())),
        None => false,
    }
}

fn are_zeros(bytes: &[u8]) -> bool
    ensures { result ≡ are_zeros bytes.now }
{
    bytes.iter().all(|byte| *byte == b'0')
}
