// Standard input, standard output, and what standard error is told, a line for each message. A message that cannot be written is lost.
ghost use Rattle.std.specs.Prelude.{◌≡◌, true, is_some, ◌||◌, ◌≤◌, length};

use line_program::notes::Notes;
use std::io::{Eprint, Read};

// The first line of a run that printed `?`, unless it was told before: whether one is told by now. The first line of the input has
// number 1.
pub fn tell_first(rt: HostRuntime, told: bool, notes: Notes) -> bool
    ensures { result ≡ (told || is_some notes.unknown) }
{
    if told {
        return true;
    }
    let Some(unknown) = notes.unknown else {
        return false;
    };
    let _ = eprintln!(rt; "windowlines: line {} is {}", unknown.number, unknown.fault);
    true
}

// Reads once: how many bytes came; 0 at the end of the input or on an error, which is told. A number and no Result, since nothing but
// the end can follow an error either.
pub fn read_some(rt: HostRuntime, input: &mut [u8; 65536]) -> usize
    ensures { result ≤ 65536 }
{
    match rt.stdin().read(input) {
        Ok(n) => n,
        Err(_) => {
            let _ = eprintln!(rt; "windowlines: standard input could not be read, calls are lost");
            0
        }
    }
}

// Writes the first `n` bytes; whether all were written, and if not, it is told.
pub fn write_part(rt: HostRuntime, out: &[u8], n: usize) -> bool
    ensures { result ≡ true → n ≤ length out.now }
{
    if n <= out.len() {
        if rt.stdout().write_all(&out[..n]).is_ok() {
            return true;
        }
    }
    let _ = eprintln!(rt; "windowlines: standard output could not be written, answers are lost");
    false
}
