//! Steps of a memory. If a step runs out of memory, the memory and its tape must be as before, and
//! the step is made again.
use crate::trouble::{Case, Outcome, Trouble, expect};
use hp_memory::{ImageStep, Memory, step_of_image};
use hp_plain::Image;
use hp_scenario::{Line, Scenario, Work};
use hp_tape::Tape;
use hp_units::{Cpu, Event, Layout, Order, Reply, Serial};
use std::alloc::{AllocError, Global};

/// Lines of every kind of event except UndoAfter, Probe and SetAuto.
pub const CALLS: &str = concat!(
    r#""0 map db 0","0 write db 0 1 7","0 read db 0 1","0 kalloc 0","0 kalloc 1","0 kfree 0","#,
    r#""0 map web 0","0 begin off 2 normal 3","0 drainfor 8 0","0 migrate 8","0 migrate 8","#,
    r#""0 commit 8","0 unmap db 0","0 drain 0","0 begin off 3","0 cancel 15","#,
    r#""0 online 2 movable","0 remove 2","0 kalloc 3""#,
);

/// The serial of the step that is also made on an Image.
const LAST: Serial = Serial(100);

/// A memory, and the tape that its steps are noted on.
pub struct Noted {
    memory: Memory,
    tape: Tape,
}

/// Keeps callers from proving again how each field is dropped.
impl Drop for Noted {
    fn drop(self) {
        let Noted {
            memory: _memory,
            tape: _tape,
        } = self;
    }
}

/// The reply of a step, and how many deltas it noted.
#[derive(Clone, Copy, Drop)]
struct Made {
    reply: Reply,
    noted: Option<usize>,
}

impl Noted {
    /// Boots a memory of a layout, with a tape of `room` deltas.
    pub fn boot(alloc: Global, layout: &Layout, room: usize) -> Outcome<Noted> {
        let memory = Memory::boot(alloc, layout)?;
        let tape = Tape::with_room(alloc, room)?;
        Ok(Noted { memory, tape })
    }

    /// Returns a copy of the memory with an empty tape.
    fn copy(&self, alloc: Global) -> Outcome<Noted> {
        let memory = self.memory.copy(alloc)?;
        let tape = Tape::with_room(alloc, 0)?;
        Ok(Noted { memory, tape })
    }

    /// Makes a step, and returns its reply and how much it noted.
    fn step(&mut self, alloc: Global, serial: Serial, cpu: Cpu, event: &Event) -> Outcome<Made> {
        let before = self.tape.len();
        match self.memory.step(alloc, serial, cpu, event, &mut self.tape) {
            Ok(reply) => Ok(Made {
                reply,
                noted: self.tape.len().checked_sub(before),
            }),
            Err(AllocError) => Err(Trouble::OutOfMemory),
        }
    }

    /// Makes a step, and checks that `made` has its reply and the number of deltas that it notes.
    fn expect_step(
        &mut self,
        alloc: Global,
        serial: Serial,
        cpu: Cpu,
        event: &Event,
        made: Made,
    ) -> Outcome {
        match self.step(alloc, serial, cpu, event) {
            Ok(wanted) => expect(made.reply.same(&wanted.reply) && made.noted == wanted.noted),
            Err(trouble) => Err(trouble),
        }
    }

    /// Makes a step for each line, with serials after `last`. Returns how many deltas are noted.
    pub fn step_all(&mut self, alloc: Global, last: u64, lines: &[Line]) -> Outcome<usize> {
        let mut serial = last;
        for line in lines {
            let Work::Event(event) = &line.work else {
                return Err(Trouble::Wrong);
            };
            serial = serial.saturating_add(1);
            if self.step(alloc, Serial(serial), line.cpu, event).is_err() {
                return Err(Trouble::OutOfMemory);
            }
        }
        Ok(self.tape.len())
    }

    /// Checks that two memories have the same state.
    fn expect_same(&self, alloc: Global, other: &Noted) -> Outcome {
        let image = other.memory.image(alloc)?;
        expect_at(alloc, &self.memory, &image)
    }
}

/// Checks that a memory has this state.
fn expect_at(alloc: Global, memory: &Memory, wanted: &Image) -> Outcome {
    let image = memory.image(alloc)?;
    expect(image.same(wanted))
}

/// Makes the steps of a scenario, a new memory from the state after them, and one more step.
pub fn run(case: &mut Case<'_>, scenario: &Scenario) -> Outcome {
    let mut noted = Noted::boot(case.alloc, &scenario.layout, 0)?;
    let mut serial = 0u64;
    for line in scenario.lines.as_slice() {
        serial = serial.saturating_add(1);
        make_step(case, &mut noted, Serial(serial), line)?;
    }
    make_anew(case.alloc, &noted.memory)?;
    step_image(case.alloc, &mut noted)
}

/// Makes the step of a line, and checks it against a copy of the memory.
fn make_step(case: &mut Case<'_>, noted: &mut Noted, serial: Serial, line: &Line) -> Outcome {
    let Work::Event(event) = &line.work else {
        return Err(Trouble::Wrong);
    };
    let mut twin = noted.copy(case.alloc)?;
    match made_by(case, noted, &twin, serial, line.cpu, event) {
        Ok(made) => twin.expect_step(case.alloc, serial, line.cpu, event, made)?,
        Err(trouble) => return Err(trouble),
    }
    noted.expect_same(case.alloc, &twin)
}

/// Makes a step. If memory runs out, checks that the memory and its tape are as before and makes it
/// again.
fn made_by(
    case: &mut Case<'_>,
    noted: &mut Noted,
    before: &Noted,
    serial: Serial,
    cpu: Cpu,
    event: &Event,
) -> Outcome<Made> {
    let count = noted.tape.len();
    match noted.step(case.alloc, serial, cpu, event) {
        Ok(made) => Ok(made),
        Err(trouble) => {
            expect(noted.tape.len() == count)?;
            let is_kept = noted.expect_same(case.alloc, before);
            case.refused(trouble, is_kept)?;
            noted.step(case.alloc, serial, cpu, event)
        }
    }
}

/// Makes a step on an Image of the memory and on the memory, and checks that both agree.
fn step_image(alloc: Global, noted: &mut Noted) -> Outcome {
    let event = Event::KernelAlloc { order: Order(1) };
    let made = step_of(alloc, &noted.memory, &event)?;
    match noted.step(alloc, LAST, Cpu(0), &event) {
        Ok(wanted) => {
            expect(made.reply.same(&wanted.reply))?;
            expect_at(alloc, &noted.memory, &made.image)
        }
        Err(trouble) => Err(trouble),
    }
}

/// Makes a step on an Image of the memory.
fn step_of(alloc: Global, memory: &Memory, event: &Event) -> Outcome<ImageStep> {
    memory.is_placed();
    let image = memory.image(alloc)?;
    let _frames = image.layout().frames(); // it shows the layout's limits
    Ok(step_of_image(alloc, &image, LAST, Cpu(0), event)?)
}

/// Makes a memory from an Image of another, and checks that its state is that Image.
fn make_anew(alloc: Global, memory: &Memory) -> Outcome {
    memory.is_placed();
    let image = memory.image(alloc)?;
    let _frames = image.layout().frames(); // it shows the layout's limits
    let anew = Memory::from_image(alloc, &image)?;
    expect_at(alloc, &anew, &image)
}
