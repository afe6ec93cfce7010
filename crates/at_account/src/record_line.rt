//! The line of a record.
ghost use Rattle.std.specs.Prelude.{◌≡◌, ◌≤◌, ◌++◌, ℕ, List, IfSome, IfNone, OnOk, length};
ghost use Rattle.text_reader.specs.HexDigits.{SpellsNumber};
ghost use Rattle.record_lines.specs.Lines.{CanBeSpelled, IsLineAdded};
ghost use Rattle.at_account.specs.Lines.{IsEventText, IsOwnerText, SpellsRecord, letter_of_event, owner_text};
ghost use Rattle.at_account.specs.inside.Spelling.{one_record};
ghost use Rattle.at_account.specs.declared.record.AccountEvent.{AccountEvent};
ghost use Rattle.at_account.specs.declared.record.Owner.{Owner};

use crate::{AccountEvent, AccountRecord, Closing, Owner};
use record_lines::{LineRecord, number_in};
use spool_model::UserName;
use std::alloc::AllocError;

// How many digits a number has.
const DIGITS: usize = 8;

impl LineRecord for AccountRecord {
    ghost spells = { SpellsRecord };

    ghost spells_one = { one_record };

    fn read(line: &[u8]) -> Option<Self> {
        let [letter, b' ', rest @ ..] = line else {
            return None;
        };
        if rest.len() < DIGITS {
            return None;
        }
        let (digits, owner) = rest.split_at(DIGITS);
        let number = job_number_in(digits)?;
        let event = event_in(*letter, owner)?;
        Some(AccountRecord { number, event })
    }

    fn write(&self, text: &mut Vec<u8>) -> Result<(), AllocError> {
        text.push(letter_of_event(&self.event))?;
        text.push(b' ')?;
        let mut digits = [0; DIGITS];
        text_reader::write_hex(&mut digits, self.number as u64);
        text.extend_from_slice(&digits)?;
        write_owner(&self.event, text)?;
        Ok(())
    }
}

// The number that eight digits spell, at least 1.
fn job_number_in(digits: &[u8]) -> Option<u32>
    requires { length digits.now ≡ 8 }
    ensures some { IfSome result (λ number. 1 ≤ number) }
    ensures number { IfSome result (SpellsNumber digits.now) }
    ensures none { IfNone result ((number : ℕ) → 1 ≤ number → ¬ (SpellsNumber digits.now number)) }
{
    let number = number_in(digits)?;
    if number == 0 {
        return None;
    }
    Some(number)
}

// The letter of an event's line.
fn letter_of_event(event: &AccountEvent) -> u8
    ensures { result ≡ letter_of_event event.now }
{
    match event {
        AccountEvent::Seen(_) => b'A',
        AccountEvent::Started => b'S',
        AccountEvent::Closed(Closing::Finished) => b'F',
        AccountEvent::Closed(Closing::NotStarted) => b'N',
        AccountEvent::Closed(Closing::Interrupted) => b'I',
        AccountEvent::Closed(Closing::Removed) => b'R',
        AccountEvent::Closed(Closing::Lost) => b'L',
    }
}

// The event of a line with this letter, where this comes after the number.
fn event_in(letter: u8, rest: &[u8]) -> Option<AccountEvent>
    ensures some { IfSome result (IsEventText letter rest.now) }
    ensures none { IfNone result ((event : AccountEvent) → ¬ (IsEventText letter rest.now event)) }
{
    if letter == b'A' {
        let owner = owner_in(rest)?;
        return Some(AccountEvent::Seen(owner));
    }
    if !rest.is_empty() {
        return None;
    }
    match letter {
        b'S' => Some(AccountEvent::Started),
        b'F' => Some(AccountEvent::Closed(Closing::Finished)),
        b'N' => Some(AccountEvent::Closed(Closing::NotStarted)),
        b'I' => Some(AccountEvent::Closed(Closing::Interrupted)),
        b'R' => Some(AccountEvent::Closed(Closing::Removed)),
        b'L' => Some(AccountEvent::Closed(Closing::Lost)),
        _ => None,
    }
}

// The queue and the user, each after a space.
fn owner_in(rest: &[u8]) -> Option<Owner>
    ensures some { IfSome result (IsOwnerText rest.now) }
    ensures none { IfNone result ((owner : Owner) → ¬ (IsOwnerText rest.now owner)) }
{
    let [b' ', queue, b' ', user @ ..] = rest else {
        return None;
    };
    if !queue.is_ascii_alphabetic() {
        return None;
    }
    let user = UserName::of(user)?;
    Some(Owner {
        user,
        queue: *queue,
    })
}

// Adds the queue and the user of a job that is seen.
fn write_owner(event: &AccountEvent, text: &mut Vec<u8>) -> Result<(), AllocError>
    ensures { OnOk result (text.new.items ≡ text.old.items ++ owner_text event.now) }
{
    if let AccountEvent::Seen(owner) = event {
        text.push(b' ')?;
        text.push(owner.queue)?;
        text.push(b' ')?;
        text.extend_from_slice(owner.user.as_bytes())?;
    }
    Ok(())
}
