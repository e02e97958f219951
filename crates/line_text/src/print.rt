// Numbers put into a buffer of bytes, from a place on. Each function gives the place after what it put. (No `write!`: what is put is
// promised byte for byte, of which std's `Write` for a slice says nothing, and there is no heap for a String.)
ghost use Rattle.std.specs.Prelude.{[], ◌∷◌, ◌+◌, ◌*◌, ◌≤◌, length, take};
ghost use Rattle.line_text.specs.Output.{digits, paired, tabbed};
ghost use Rattle.line_text.specs.PrintContracts.{Puts};

// One byte.
pub fn put_byte(out: &mut [u8], at: usize, byte: u8) -> usize
    requires { at + 1 ≤ length out.old }
    ensures { Puts at (byte ∷ []) out.old result out.new }
{
    out[at] = byte;
    at + 1
}

// A number's digits, the highest first: those of a tenth of it, then its last. By hand, since the library's `write!` into a slice says
// nothing of the bytes that it leaves there, and there is no heap for a text.
fn put_digits(out: &mut [u8], at: usize, number: u64) -> usize
    requires { at + length (digits number) ≤ length out.old }
    ensures { Puts at (digits number) out.old result out.new }
{
    let last = b'0' + (number % 10) as u8;
    if number < 10 {
        return put_byte(out, at, last);
    }
    let to = put_digits(out, at, number / 10);
    put_byte(out, to, last)
}

// A number, in decimal.
pub fn put_number(out: &mut [u8], at: usize, number: u64) -> usize
    requires { at + 20 ≤ length out.old }
    ensures { Puts at (digits number) out.old result out.new }
{
    put_digits(out, at, number)
}

// A byte, and a number after it.
pub fn put_marked(out: &mut [u8], at: usize, mark: u8, number: u64) -> usize
    requires { at + 21 ≤ length out.old }
    ensures { Puts at (mark ∷ digits number) out.old result out.new }
{
    let to = put_byte(out, at, mark);
    put_number(out, to, number)
}

// A tab and a number for each of the first `count` values.
pub fn put_values(out: &mut [u8], at: usize, values: &[u32], count: usize) -> usize
    requires { (count ≤ length values.now) × (at + 21 * count ≤ length out.old) }
    ensures { Puts at (tabbed (take count values.now)) out.old result out.new }
{
    let mut to = at;
    for value in &values[..count] {
        to = put_marked(out, to, b'\t', u64::from(*value));
    }
    to
}

// A tab, a sequence, a colon and its value for each of the first `count` pairs.
pub fn put_pairs(
    out: &mut [u8],
    at: usize,
    sequences: &[u32],
    values: &[u32],
    count: usize,
) -> usize
    requires { (count ≤ length sequences.now) × (count ≤ length values.now) × (at + 42 * count ≤ length out.old) }
    ensures { Puts at (paired (take count sequences.now) (take count values.now)) out.old result out.new }
{
    let mut to = at;
    for (sequence, value) in sequences[..count].iter().zip(&values[..count]) {
        let colon = put_marked(out, to, b'\t', u64::from(*sequence));
        to = put_marked(out, colon, b':', u64::from(*value));
    }
    to
}
