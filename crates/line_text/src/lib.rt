// The lines of the line program: read from bytes. A line comes without its line feed.
#![tactic(auto)]

pub mod print;

ghost use Rattle.std.specs.Prelude.{◌≡◌, ◌≤◌, length, option_map};
ghost use Rattle.line_text.specs.Promises.{said_by, NextByte, Appends};
ghost use Rattle.line_text.specs.Fields.{field_of};
ghost use Rattle.line_text.specs.Lines.{fields_of_letter, line_of};

// The letter of a call and its fields, of which the first count, as many as the letter takes.
#[derive(Clone, Copy)]
pub struct Fields {
    pub letter: u8,
    pub first: u32,
    pub second: u32,
    pub third: u32,
}

// How many fields a letter takes; none for another letter.
#[tactic(auto, unfolding(crate::specs::Lines::fields_of_letter, crate::specs::Lines::among))]
pub fn field_count(letter: u8) -> Option<usize>
    ensures { result ≡ fields_of_letter letter }
{
    match letter {
        b'n' => Some(3),
        b'i' | b'e' | b'd' | b'q' => Some(2),
        b'g' | b'r' | b's' | b'f' | b'b' | b'v' | b'a' => Some(1),
        b'c' | b'l' | b't' => Some(0),
        _ => None,
    }
}

// The number that the bytes write: decimal, no leading zeros, at most 4294967295. None if they are not written so.
#[tactic(auto, using(crate::proofs::FieldLaws::reading))]
pub fn field(bytes: &[u8]) -> Option<u32>
    ensures { result ≡ field_of bytes.now }
{
    if bytes.len() == 0 {
        return None;
    }
    if bytes[0] == b'0' {
        if bytes.len() == 1 {
            return Some(0);
        }
        return None;
    }
    let mut number: u64 = 0;
    for b in bytes {
        if *b < b'0' {
            return None;
        }
        if b'9' < *b {
            return None;
        }
        let next = number * 10 + u64::from(*b - b'0');
        if 4294967295 < next {
            return None;
        }
        number = next;
    }
    Some(number as u32)
}

// The place of the first such byte from `from` on; the length if there is none. A place and no Option, since callers take the bytes up
// to it in either case.
pub fn next_byte(bytes: &[u8], from: usize, byte: u8) -> usize
    requires { from ≤ length bytes.now }
    ensures { NextByte bytes.now from byte result }
{
    for i in from..bytes.len() {
        if bytes[i] == byte {
            return i;
        }
    }
    bytes.len()
}

// `part` after the first `have` bytes of a line. One more than the line's places, now and from then on, if it has no place for them: a
// length and no Option, since it is kept as `have` for the part that comes next.
pub fn append(line: &mut [u8], have: usize, part: &[u8]) -> usize
    ensures { Appends line.old have part.now result line.new }
{
    let places = line.len();
    if places < have {
        return places + 1;
    }
    if places - have < part.len() {
        return places + 1;
    }
    let to = have + part.len();
    line[have..to].copy_from_slice(part);
    to
}

// What a line says; none if it is no call.
#[tactic(auto, using(crate::proofs::LoopLaws::reading))]
pub fn parse(line: &[u8]) -> Option<Fields>
    ensures { option_map said_by result ≡ line_of line.now }
{
    if line.len() == 0 {
        return None;
    }
    let letter = line[0];
    let count = field_count(letter)?;
    let mut numbers = [0u32; 3];
    let mut at: usize = 1;
    for i in 0..count {
        if line.len() <= at {
            return None;
        }
        if line[at] != b'\t' {
            return None;
        }
        let from = at + 1;
        let to = next_byte(line, from, b'\t');
        numbers[i] = field(&line[from..to])?;
        at = to;
    }
    if at < line.len() {
        return None;
    }
    Some(Fields {
        letter,
        first: numbers[0],
        second: numbers[1],
        third: numbers[2],
    })
}
