// The refusals that are decided before the window is looked at, in the papers' order: the header and the lists, then the arguments.
ghost use Rattle.std.specs.Prelude.{◌≡◌, IfErr, IfOk, length};
ghost use Rattle.window.specs.Refusals.{verdict_number, refusal_number_of};
ghost use Rattle.window.specs.Memory.{memory};
ghost use Rattle.model.specs.Table.{limit_refusal_of, are_wire_numbers_of, refused_for_of};
ghost use Rattle.model.specs.Steps.{known_by};
ghost use Rattle.call_base.specs.Admits.{arguments_of, admission};
ghost use Rattle.call_base.specs.Answers.{state_of};
ghost use Rattle.call_base.specs.Reading.{state_in};

use crate::range_count;
use crate::reading::WindowRef;
use window::AdaptiveReceiverPacketWindow;
use window::refusals::{Refusal, fits_with_list, is_wire_number};

// The arguments of a call that a refusal looks at.
#[derive(Clone, Copy)]
pub enum Arguments {
    Nothing,
    Sequence(u32),
    Range(u32, u32),
    Number(u32),
    Base(u32),
}

// The places that a call which takes no return list names for it: enough.
pub const NO_LIST: usize = 384;

// Whether a count, a number or a base is above its limit: 5, 8 or 9.
fn limit_refusal(w: AdaptiveReceiverPacketWindow, arguments: Arguments) -> Result<(), Refusal>
    ensures { verdict_number result ≡ limit_refusal_of (known_by w) (arguments_of arguments) }
{
    match arguments {
        Arguments::Nothing => Ok(()),
        Arguments::Sequence(sequence) => Ok(()),
        Arguments::Range(first, last) => {
            if w.window_size < range_count(first, last) {
                return Err(Refusal::RangeCount);
            }
            Ok(())
        }
        Arguments::Number(number) => {
            if AdaptiveReceiverPacketWindow::MAX_RETIRED_RELEASED_PER_VISIT < number as usize {
                return Err(Refusal::Budget);
            }
            Ok(())
        }
        Arguments::Base(base) => {
            if !is_wire_number(base) {
                return Err(Refusal::Base);
            }
            Ok(())
        }
    }
}

// Whether the sequences among the arguments have 31 bits.
fn are_wire_numbers(arguments: Arguments) -> bool
    ensures { result ≡ are_wire_numbers_of (arguments_of arguments) }
{
    match arguments {
        Arguments::Nothing => true,
        Arguments::Sequence(sequence) => is_wire_number(sequence),
        Arguments::Range(first, last) => is_wire_number(first) && is_wire_number(last),
        Arguments::Number(number) => true,
        Arguments::Base(base) => true,
    }
}

// Whether the arguments are refused.
fn refused_for(w: AdaptiveReceiverPacketWindow, arguments: Arguments) -> Result<(), Refusal>
    ensures { verdict_number result ≡ refused_for_of (known_by w) (arguments_of arguments) }
{
    if !are_wire_numbers(arguments) {
        return Err(Refusal::Sequence);
    }
    limit_refusal(w, arguments)
}

// Whether a call with these lists, by their lengths, and these arguments is refused.
pub fn admits(
    w: AdaptiveReceiverPacketWindow,
    sequences: usize,
    values: usize,
    pages: usize,
    blocks: usize,
    returned: usize,
    arguments: Arguments,
) -> Result<(), Refusal>
    ensures { verdict_number result ≡ admission w sequences values pages blocks returned (arguments_of arguments) }
{
    if !fits_with_list(w, sequences, values, pages, blocks, returned) {
        return Err(Refusal::ShortMemory);
    }
    refused_for(w, arguments)
}

// The header and the lists of a call with these arguments, for reading, unless the call is refused.
#[tactic(auto, using(crate::proofs::ReadingLaws::admitting))]
pub fn admit_reading<'a>(
    w: AdaptiveReceiverPacketWindow,
    sequences: &'a [u32],
    values: &'a [u32],
    pages: &'a [u64],
    blocks: &'a [u64],
    arguments: Arguments,
) -> Result<WindowRef<'a>, Refusal>
    ensures given { IfOk result (λ r. state_in r ≡ state_of w (memory sequences.now values.now pages.now blocks.now)) }
    ensures admitted { IfOk result (λ r.
        0 ≡ admission w (length sequences.now) (length values.now) (length pages.now) (length blocks.now) 384 (arguments_of arguments)) }
    ensures refused { IfErr result (λ why. refusal_number_of why
        ≡ admission w (length sequences.now) (length values.now) (length pages.now) (length blocks.now) 384 (arguments_of arguments)) }
{
    admits(
        w,
        sequences.len(),
        values.len(),
        pages.len(),
        blocks.len(),
        NO_LIST,
        arguments,
    )?;
    Ok(WindowRef {
        header: w,
        sequences,
        values,
        pages,
        blocks,
    })
}
