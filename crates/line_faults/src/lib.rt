// What is wrong with a line that is no call, for the message to the one who wrote it. A line comes without its line feed.
#![tactic(auto)]

ghost use Rattle.std.specs.Prelude.{◌≡◌};
ghost use Rattle.line_text.specs.Lines.{line_of};
ghost use Rattle.line_faults.specs.Faults.{occurrences, letter_count_of, fault_of_parsed, fault_of_text, fault_of_line};

use line_text::{field_count, parse};
use std::fmt;

// The first that applies, in this order.
#[derive(Clone, Copy, PartialEq, Eq, Debug)]
pub enum Fault {
    // more bytes than the line's places, more than any call has
    Long,
    // a carriage return, as before the line feed in files of some systems
    CarriageReturn,
    // a space, as for a tab
    Space,
    // no letter of a call, or more than the letter before the first tab
    Letter,
    // another number of fields than the letter takes
    FieldCount,
    // a field that is no decimal number, has leading zeros or is above 4294967295
    Field,
    // n with a window_size above 4096
    WindowSize,
    // a call, but no window was made yet
    NoWindow,
}

// What is told of a line: how the message goes on after "is".
impl fmt::Display for Fault {
    ghost use Rattle.std.specs.Prelude.{Some};
    ghost use Rattle.line_faults.specs.Messages.{fault_text};

    ghost output = { λ fault. Some (fault_text fault) };

    fn fmt<W: fmt::Write>(&self, f: &mut fmt::Formatter<W>) -> fmt::Result {
        match self {
            Fault::Long => f.write_str("no call: longer than any call"),
            Fault::CarriageReturn => f.write_str(
                "no call: a carriage return in it, lines end in a line feed alone",
            ),
            Fault::Space => f.write_str("no call: a space in it, fields are parted by one tab"),
            Fault::Letter => f.write_str("no call: its first part is no letter of a call"),
            Fault::FieldCount => f.write_str(
                "no call: another number of fields than its letter takes",
            ),
            Fault::Field => f.write_str(
                "no call: a field is no decimal number up to 4294967295 without leading zeros",
            ),
            Fault::WindowSize => f.write_str("no call: a window_size above 4096"),
            Fault::NoWindow => f.write_str("no call yet: an n must be taken first"),
        }
    }
}

// How often a byte stands in the line.
fn count_byte(line: &[u8], byte: u8) -> usize
    ensures { result ≡ occurrences byte line.now }
{
    line.iter().filter(|b| **b == byte).count()
}

// How many fields the line's letter takes; none if it has no letter.
#[tactic(auto, using(crate::proofs::FaultLaws::telling))]
fn letter_count(line: &[u8]) -> Option<usize>
    ensures { result ≡ letter_count_of line.now }
{
    if line.len() == 0 {
        return None;
    }
    if line.len() == 1 {
        return field_count(line[0]);
    }
    if line[1] != b'\t' {
        return None;
    }
    field_count(line[0])
}

// Of a line whose letter has its count of fields.
#[tactic(auto, unfolding(line_text::specs::Lines::fields_of_letter, line_text::specs::Lines::among))]
fn fault_of_call(line: &[u8]) -> Fault
    ensures { result ≡ fault_of_parsed (line_of line.now) }
{
    let Some(f) = parse(line) else {
        return Fault::Field;
    };
    if f.letter != b'n' {
        return Fault::NoWindow;
    }
    if 4096 < f.first {
        return Fault::WindowSize;
    }
    Fault::NoWindow
}

// Of a line's bytes.
#[tactic(auto, using(crate::proofs::FaultLaws::telling))]
fn fault_of_bytes(line: &[u8]) -> Fault
    ensures { result ≡ fault_of_text line.now }
{
    if 0 < count_byte(line, b'\r') {
        return Fault::CarriageReturn;
    }
    if 0 < count_byte(line, b' ') {
        return Fault::Space;
    }
    let Some(count) = letter_count(line) else {
        return Fault::Letter;
    };
    if count_byte(line, b'\t') != count {
        return Fault::FieldCount;
    }
    fault_of_call(line)
}

// What is wrong with the first `length` bytes of `line`, which are no call, or one before a window was made.
#[tactic(auto, unfolding(crate::specs::Faults::fault_of_line))]
pub fn fault_of(line: &[u8], length: usize) -> Fault
    ensures { result ≡ fault_of_line line.now length }
{
    if line.len() < length {
        return Fault::Long;
    }
    fault_of_bytes(&line[..length])
}
