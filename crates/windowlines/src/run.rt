// Bytes moved: from standard input to the line program, and its output to standard output.
ghost use Rattle.std.specs.Prelude.{◌≡◌, true, false, ◌≤◌, length, take};
ghost use Rattle.window.specs.Memory.{memory};
ghost use Rattle.window.specs.Lent.{left_in, lent_mut, lent};
ghost use Rattle.call_base.specs.Answers.{state_of};
ghost use Rattle.line_program.specs.Promises.{Kept, KeptIn, TakesBy, Stops, EndsBy};
ghost use Rattle.windowlines.specs.Run.{Going, Refilled, Written, Turned};

use crate::streams::{read_some, tell_first, write_part};
use line_program::answer::{BLOCK_LIST, PAGE_LIST};
use line_program::{Program, take_last, take_lines};

// The program, how many bytes of the input have come in the part that it stands in, whether the first line that is no call was told,
// whether a write has failed, and whether the run has ended: once the input has ended or a write has failed. Flags and no Result, since a
// turn leaves a run that goes on from in each case.
#[derive(Clone, Copy)]
pub struct Run {
    pub program: Program,
    pub n: usize,
    pub told: bool,
    pub failed: bool,
    pub ended: bool,
}

// The next part of the input, if the one before is used up.
fn refill(rt: HostRuntime, r: Run, input: &mut [u8; 65536]) -> Run
    ensures { Refilled r input.old result input.new }
{
    let mut program = r.program;
    if program.from < r.n {
        return r;
    }
    let n = read_some(rt, input);
    program.from = 0;
    let mut run = Run {
        program,
        n,
        told: r.told,
        failed: r.failed,
        ended: true,
    };
    if n == 0 {
        return run;
    }
    run.ended = r.ended;
    run
}

// The output of `program` written.
fn put_out(rt: HostRuntime, r: Run, program: Program, out: &[u8]) -> Run
    ensures { Written r program out.now result }
{
    let mut written = program;
    let notes = program.notes;
    let told = tell_first(rt, r.told, notes);
    let failed = !write_part(rt, out, program.at);
    written.at = 0;
    Run {
        program: written,
        n: r.n,
        told,
        failed,
        ended: r.ended || failed,
    }
}

// Lines of the part, from where the program stands.
fn take_part(
    r: Run,
    input: &[u8],
    line: &mut [u8; 64],
    sequences: &mut [u32; 4096],
    values: &mut [u32; 4096],
    pages: &mut [u64; PAGE_LIST],
    blocks: &mut [u64; BLOCK_LIST],
    returned: &mut [u32; 384],
    listed_sequences: &mut [u32; 4096],
    listed_values: &mut [u32; 4096],
    out: &mut [u8; 262144],
) -> Program
    requires kept_in { KeptIn r.program.window sequences.old values.old pages.old blocks.old }
    requires n_in_bounds { r.n ≤ length input.now }
    requires from_le_n { r.program.from ≤ r.n }
    ensures takes_by { TakesBy r.program (take r.n input.now) (lent_mut line) (lent_mut sequences) (lent_mut values) (lent_mut pages) (lent_mut blocks) (lent_mut out) result }
    ensures stops { Stops r.program r.n result }
    ensures kept { Kept (state_of result.window (left_in (lent_mut sequences) (lent_mut values) (lent_mut pages) (lent_mut blocks))) }
{
    let program = r.program;
    let n = r.n;
    take_lines(
        program,
        &input[..n],
        line,
        sequences,
        values,
        pages,
        blocks,
        returned,
        listed_sequences,
        listed_values,
        out,
    )
}

// Bytes are read if the part before is used up, lines of it answered, and the output written.
pub fn turn(
    rt: HostRuntime,
    r: Run,
    input: &mut [u8; 65536],
    line: &mut [u8; 64],
    sequences: &mut [u32; 4096],
    values: &mut [u32; 4096],
    pages: &mut [u64; PAGE_LIST],
    blocks: &mut [u64; BLOCK_LIST],
    returned: &mut [u32; 384],
    listed_sequences: &mut [u32; 4096],
    listed_values: &mut [u32; 4096],
    out: &mut [u8; 262144],
) -> Run
    requires { Going r (memory sequences.old values.old pages.old blocks.old) }
    ensures going { Going result (left_in (lent_mut sequences) (lent_mut values) (lent_mut pages) (lent_mut blocks)) }
    ensures turned { Turned r (lent_mut input) (lent_mut line) (lent_mut sequences) (lent_mut values) (lent_mut pages) (lent_mut blocks) (lent_mut out) result }
{
    let run = refill(rt, r, input);
    if run.ended {
        return run;
    }
    let program = take_part(
        run,
        input,
        line,
        sequences,
        values,
        pages,
        blocks,
        returned,
        listed_sequences,
        listed_values,
        out,
    );
    put_out(rt, run, program, out)
}

// The end of the input: the answer of a last line without a line feed, unless a write has failed. The program after it.
pub fn finish(
    rt: HostRuntime,
    r: Run,
    line: &[u8; 64],
    sequences: &mut [u32; 4096],
    values: &mut [u32; 4096],
    pages: &mut [u64; PAGE_LIST],
    blocks: &mut [u64; BLOCK_LIST],
    returned: &mut [u32; 384],
    listed_sequences: &mut [u32; 4096],
    listed_values: &mut [u32; 4096],
    out: &mut [u8; 262144],
) -> Program
    requires { Going r (memory sequences.old values.old pages.old blocks.old) }
    ensures value { r.failed ≡ true → result ≡ r.program }
    ensures ends_by { r.failed ≡ false → EndsBy r.program (lent line) (lent_mut sequences) (lent_mut values) (lent_mut pages) (lent_mut blocks) (lent_mut out) result }
{
    let program = r.program;
    if r.failed {
        return program;
    }
    let last = take_last(
        program,
        line,
        sequences,
        values,
        pages,
        blocks,
        returned,
        listed_sequences,
        listed_values,
        out,
    );
    put_out(rt, r, last, out);
    last
}
