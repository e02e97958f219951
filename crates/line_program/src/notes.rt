// What is noted of the lines: how many there were, and the first that is no call.
ghost use Rattle.std.specs.Prelude.{◌≡◌};
ghost use Rattle.line_faults.specs.Faults.{fault_of_line};
ghost use Rattle.line_program.specs.Notes.{no_notes, noted};

use line_faults::{Fault, fault_of};

// A line that is no call: its number, from 1 on, and what is wrong with it.
#[derive(Clone, Copy)]
pub struct UnknownLine {
    pub number: u64,
    pub fault: Fault,
}

// The number of lines answered, and the first of them that was no call, if one was.
#[derive(Clone, Copy)]
pub struct Notes {
    pub lines: u64,
    pub unknown: Option<UnknownLine>,
}

impl Notes {
    // Before the first line.
    pub fn none() -> Notes
        ensures { result ≡ no_notes }
    {
        Notes {
            lines: 0,
            unknown: None,
        }
    }
}

// A line more, of which the answer begins with the byte `first`.
#[tactic(auto, unfolding(crate::specs::Notes::noted))]
pub fn note(n: Notes, line: &[u8], length: usize, first: u8) -> Notes
    ensures { result ≡ noted n (fault_of_line line.now length) first }
{
    let lines = n.lines.wrapping_add(1);
    let counted = Notes {
        lines,
        unknown: n.unknown,
    };
    if n.unknown.is_some() {
        return counted;
    }
    if first != b'?' {
        return counted;
    }
    Notes {
        lines,
        unknown: Some(UnknownLine {
            number: lines,
            fault: fault_of(line, length),
        }),
    }
}
