//! The entries of a journal: one per step that is not undone, with the step's tag, and with the
//! start of its deltas on the one tape of all steps.
ghost use Rattle.std.specs.Prelude.{◌≡◌, ℕ, ◌+◌, ◌-◌, ◌*◌, ◌/◌, ◌%◌, ◌^◌, ◌<◌, ◌≤◌, ◌∷◌, ◌++◌, [], Some, true, false, ◌&&◌, drop, if◌then◌else◌, length, nat_le, nat_lt, slice_get, take, vec_capacity, vec_len};
ghost use Rattle.std.specs.List.{slice_range};
ghost use Rattle.hp_units.specs.Marks.{is_opening, is_work_of, sole_at};
ghost use Rattle.hp_units.specs.declared.marks.Tag.{Tag};
ghost use Rattle.hp_memory.specs.Memory.{LeadsBack};
ghost use Rattle.hp_history.specs.Entries.{AreNumbered, mark_coded, start_of, tag_in, tags_of};

use hp_memory::Memory;
use hp_tape::{Delta, Tape};
use hp_units::{Mark, Serial, Tag};
use std::mem::size_of;

/// A step that is not undone. `code` is `place * 4 + kind`: `place` is the index of its record
/// among those since the base, from 0; `kind` is 0 for a step of no operation, 1 for one that
/// begins an operation, and 2 for work of operation `op`. Its deltas start at `start` on the tape,
/// and end where those of the next step start.
#[derive(Clone, Copy, PartialEq, Eq, Drop)]
pub(crate) struct Entry {
    code: u32,
    start: u32,
    op: u64,
}

/// The size of an entry decides the cost of a journal.
const _: () = prove!(size_of::<Entry>() <= 16);

/// The `place` of an entry is below this.
const PLACES: u64 = 1_073_741_824;

/// The greatest `start` that an entry can store.
const DELTAS: usize = 4_294_967_295;

impl Entry {
    /// Returns whether an entry can store this `place` and this `start`. If not, a journal has no
    /// room for the step.
    #[inline(always)]
    pub(crate) fn has_room(place: u64, start: usize) -> bool
        ensures { result ≡ (nat_lt place 1073741824 && nat_le start 4294967295) }
    {
        place < PLACES && start <= DELTAS
    }

    /// Returns the entry of a step whose record is at `place`, and whose deltas start at `start`.
    #[inline(always)]
    pub(crate) fn new(place: u64, start: usize, mark: Mark) -> Entry
        requires { (nat_lt place 1073741824 && nat_le start 4294967295) ≡ true }
        ensures tag { (before : ℕ) → tag_in before result
            ≡ record { serial = before + place + 1; mark = mark } }
        ensures start { result.start ≡ start }
    {
        let code = place as u32 * 4;
        let start = start as u32;
        match mark {
            Mark::Other => Entry { code, start, op: 0 },
            Mark::Opens => Entry {
                code: code + 1,
                start,
                op: 0,
            },
            Mark::Works { op } => Entry {
                code: code + 2,
                start,
                op: op.0,
            },
        }
    }

    /// Returns the serial and the mark of the step.
    fn tag(&self, before: u64) -> Tag
        requires { before + self.now.code / 4 + 1 < 2 ^ 64 }
        ensures { result ≡ tag_in before self.now }
    {
        Tag {
            serial: Serial(before + (self.code / 4) as u64 + 1),
            mark: self.mark(),
        }
    }

    /// Returns what the step is to an operation.
    fn mark(&self) -> Mark
        ensures { result ≡ mark_coded (self.now.code % 4) self.now.op }
    {
        match self.code % 4 {
            0 => Mark::Other,
            1 => Mark::Opens,
            _ => Mark::Works {
                op: Serial(self.op),
            },
        }
    }
}

/// Returns the tag of the step with index `place` in the journal.
fn step_tag(entries: &[Entry], before: u64, place: usize) -> Tag
    requires place { place < length entries.now }
    requires numbered { AreNumbered before entries.now }
    ensures { slice_get (tags_of before entries.now) place ≡ Some result }
{
    let entry = &entries[place];
    entry.tag(before)
}

/// Returns how many steps an undo to `serial` keeps: those up to the latest one whose serial
/// is at most `serial`.
pub(crate) fn kept_len(entries: &[Entry], before: u64, serial: Serial) -> usize
    requires { AreNumbered before entries.now }
    ensures within { result ≤ length entries.now }
    ensures above { (i : ℕ) (t : Tag) → result ≤ i → slice_get (tags_of before entries.now) i ≡ Some t
        → serial < t.serial }
    ensures below { (t : Tag) → 0 < result → slice_get (tags_of before entries.now) (result - 1) ≡ Some t
        → t.serial ≤ serial }
{
    let mut keep = entries.len();
    while keep > 0 && step_tag(entries, before, keep - 1).serial > serial {
        keep -= 1;
    }
    keep
}

/// Returns the index of the step that begins `op`, if nothing but the operation's own
/// work comes after it.
pub(crate) fn sole_place(entries: &[Entry], before: u64, op: Serial) -> Option<usize>
    requires { AreNumbered before entries.now }
    ensures { result ≡ sole_at op (tags_of before entries.now) }
{
    let mut place = entries.len();
    while place > 0 {
        place -= 1;
        let tag = step_tag(entries, before, place);
        if tag.mark.is_opening() {
            return if tag.serial == op { Some(place) } else { None };
        }
        if !tag.mark.is_work_of(op) {
            return None;
        }
    }
    None
}

/// Returns where the deltas of step `step` start on a tape of `deltas` deltas, or the end of the
/// tape if there is no such step.
pub(crate) fn start_of(entries: &[Entry], deltas: usize, step: usize) -> usize
    ensures { result ≡ start_of entries.now deltas step }
{
    match entries.get(step) {
        Some(entry) => entry.start as usize,
        None => deltas,
    }
}

/// Returns the deltas of a tape from `start` up to `end`.
pub(crate) fn between(deltas: &[Delta], start: usize, end: usize) -> &[Delta]
    requires order { start ≤ end }
    requires within { end ≤ length deltas.now }
    ensures { result.now ≡ slice_range deltas.now start end }
{
    &deltas[start..end]
}

/// Appends the entry of a step; there must be room for it. If `is_step` is false, undoes the
/// deltas from the entry's start on instead, and takes them off the tape. They must lead back
/// to the same state.
#[inline(always)]
pub(crate) fn keep_step(
    entries: &mut Vec<Entry>,
    memory: &mut Memory,
    deltas: &mut Tape,
    entry: Entry,
    is_step: bool,
)
    requires room { vec_len entries.old < vec_capacity entries.old }
    requires start { entry.start ≤ length deltas.old.deltas }
    requires same { is_step ≡ false
        → LeadsBack memory.old.layout (drop entry.start deltas.old.deltas) memory.old.state memory.old.state }
    ensures entries { entries.new.items
        ≡ (if is_step then entries.old.items ++ entry ∷ [] else entries.old.items) }
    ensures deltas { deltas.new.deltas
        ≡ (if is_step then deltas.old.deltas else take entry.start deltas.old.deltas) }
    ensures state { memory.new.state ≡ memory.old.state }
    ensures layout { memory.new.layout ≡ memory.old.layout }
{
    if is_step {
        entries.push_reserved(entry);
    } else {
        memory.back(deltas, entry.start as usize);
    }
}
