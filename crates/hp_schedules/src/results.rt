//! Results of a processor's earlier calls, by their numbers.
ghost use Rattle.std.specs.Prelude.{◌≡◌, ◌==◌, ◌&&◌, get_or, length};
ghost use Rattle.hp_units.specs.Marks.{is_opening, mark_of};
ghost use Rattle.hp_units.specs.Receipts.{receipts_of};
ghost use Rattle.hp_schedules.specs.Scripts.{frame_in, frames_of, no_frame, operations_of, takes_frame};

use hp_units::{Cpu, Event, Frame, Record, Reply, Serial, mark_of};

/// The result of a KernelAlloc that was refused or not made. No layout has a frame of this number.
const NO_FRAME: u32 = 4_294_967_295;

/// Returns the serial of the processor's Begin number `nth`, counted from 0, refused or not.
/// Returns 0 if there is no such Begin.
pub(crate) fn nth_begun(news: &[Record], cpu: Cpu, nth: u32) -> Serial
    ensures { result ≡ get_or (operations_of (receipts_of cpu news.now)) nth 0 }
{
    let mut left = nth;
    for call in news {
        if !begins(call, cpu) {
            continue;
        }
        if left == 0 {
            return call.serial;
        }
        left -= 1;
    }
    Serial(0)
}

/// Returns the frame of the processor's KernelAlloc number `nth`, counted from 0. If that call was
/// refused or not made, returns a frame that no layout has.
pub(crate) fn nth_frame(news: &[Record], cpu: Cpu, nth: u32) -> Frame
    ensures { result ≡ get_or (frames_of (receipts_of cpu news.now)) nth no_frame }
{
    let mut left = nth;
    for call in news {
        if !takes_frame(call, cpu) {
            continue;
        }
        if left == 0 {
            return frame_in(&call.reply);
        }
        left -= 1;
    }
    Frame(NO_FRAME)
}

/// Returns how many KernelAlloc calls the processor has made.
pub(crate) fn frame_count(news: &[Record], cpu: Cpu) -> usize
    ensures { result ≡ length (frames_of (receipts_of cpu news.now)) }
{
    let mut count = 0;
    for call in news {
        if takes_frame(call, cpu) {
            count += 1;
        }
    }
    count
}

/// Returns whether the call is a Begin of this processor.
fn begins(call: &Record, cpu: Cpu) -> bool
    ensures { result ≡ (call.now.cpu == cpu && is_opening (mark_of call.now.event)) }
{
    call.cpu == cpu && mark_of(&call.event).is_opening()
}

/// Returns whether the call is a KernelAlloc of this processor.
fn takes_frame(call: &Record, cpu: Cpu) -> bool
    ensures { result ≡ (call.now.cpu == cpu && takes_frame call.now.event) }
{
    call.cpu == cpu && matches!(call.event, Event::KernelAlloc { .. })
}

/// Returns the frame that a KernelAlloc got, or a frame that no layout has if it was refused.
fn frame_in(reply: &Reply) -> Frame
    ensures { result ≡ frame_in reply.now }
{
    match reply {
        Reply::Frame(frame) => *frame,
        _ => Frame(NO_FRAME),
    }
}
