// The line program: one call a line from standard input, one line to standard output for each. window_size is at most 4096. What is
// printed for a part of the input is decided in line_program; here bytes are moved.
#![tactic(auto)]

mod run;
mod streams;

use line_program::Program;
use line_program::answer::{BLOCK_LIST, PAGE_LIST};
use line_program::notes::Notes;
use run::{Run, finish, turn};
use window::AdaptiveReceiverPacketWindow;

// Turns until the input ends or a write fails. A proved loop has to end, and nothing says that the input does: so many turns that no run
// uses them up.
fn main(rt: HostRuntime) {
    let mut input = [0u8; 65536];
    let mut line = [0u8; 64];
    let mut sequences = [0u32; 4096];
    let mut values = [0u32; 4096];
    let mut pages = [0u64; PAGE_LIST];
    let mut blocks = [0u64; BLOCK_LIST];
    let mut returned = [0u32; 384];
    let mut listed_sequences = [0u32; 4096];
    let mut listed_values = [0u32; 4096];
    let mut out = [0u8; 262144];
    let program = Program {
        window: AdaptiveReceiverPacketWindow::fresh(0, 0, 0),
        length: 0,
        from: 0,
        at: 0,
        notes: Notes::none(),
    };
    let mut run = Run {
        program,
        n: 0,
        told: false,
        failed: false,
        ended: false,
    };
    for _ in 0..u64::MAX {
        if run.ended {
            break;
        }
        // no turn follows the end of the input, or a write that failed
        prove!(!run.ended);
        run = turn(
            rt,
            run,
            &mut input,
            &mut line,
            &mut sequences,
            &mut values,
            &mut pages,
            &mut blocks,
            &mut returned,
            &mut listed_sequences,
            &mut listed_values,
            &mut out,
        );
    }
    finish(
        rt,
        run,
        &line,
        &mut sequences,
        &mut values,
        &mut pages,
        &mut blocks,
        &mut returned,
        &mut listed_sequences,
        &mut listed_values,
        &mut out,
    );
}
