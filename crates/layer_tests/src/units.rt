use crate::layouts::{BOOT, two_blocks};
use hp_units::{
    Auto, Block, Class, Cpu, Event, Frame, Kind, Layout, LayoutFault, Mark, Mobility, Order, Page,
    Pageblock, Pool, Refusal, Reply, Row, Serial, State, Wish, Words, Zone, block_of, buddy,
    is_step, mark_of, number32, number64, pageblock_of,
};
use std::alloc::{AllocError, Global};
use std::test::Fail;

/// Returns whether a layout has the sizes and the boot entries of `two_blocks`.
fn has_parts(layout: &Layout) -> bool {
    let parts = [
        layout.order(),
        layout.pageblocks(),
        layout.blocks(),
        layout.cpus(),
        layout.batch(),
        layout.high(),
        layout.owners(),
        layout.pages(),
        layout.words(),
        layout.frames(),
        layout.pageblock_size(),
        layout.block_size(),
    ];
    parts.as_slice() == [1, 1, 2, 1, 1, 1, 1, 2, 2, 4, 2, 2].as_slice()
        && layout.history() == 1
        && layout.boot() == BOOT
        && layout.block_bytes() == 2 * 2 * 8
}

/// Returns whether frames have the right buddy, block, pageblock and memory block.
fn has_numbers(layout: &Layout) -> bool {
    buddy(Frame(4), Order(1)) == Frame(6)
        && Frame(13).ancestor(Order(2)) == Frame(12)
        && pageblock_of(layout, Frame(3)) == Pageblock(1)
        && block_of(layout, Frame(2)) == Block(1)
}

#[test]
fn layout_has_its_parts(rt: HostRuntime) -> Result<(), Fail> {
    let layout = two_blocks(rt.alloc())?;
    assert!(rt; has_parts(&layout) && has_numbers(&layout));
    Ok(())
}

/// Returns whether classes and pools have the zone and the number that they should.
fn go_by_zone(pool: Pool, isolated: Kind) -> bool {
    pool.class() == Class::usable(pool.zone(), Mobility::Unmovable.other())
        && pool.index() == 2
        && Class::of_kind(Zone::Movable, isolated) == Class::isolated(Zone::Movable)
        && Class::numbered(Class::isolated(Zone::Movable).index()) == Class::IsoM
}

/// Returns the row of a block that operation 5 is taking offline.
fn going() -> Row {
    Row::online(Zone::Normal).claimed(Serial(5), Wish::Off)
}

/// Returns whether rows of each state report that state.
fn are_shown() -> bool {
    Wish::Off.is_off()
        && Row::online(Zone::Normal).is_online()
        && going().is_going()
        && going().is_claimed_by(Serial(5))
        && !going().unclaimed().is_claimed()
        && Row::bare(State::Offline).is_offline()
        && Row::bare(State::Absent).is_absent()
        && going().state.number() == 2
        && going().zone_number() == 1
}

#[test]
fn classes_pools_and_rows(rt: HostRuntime) {
    let isolated = Kind {
        isolated: true,
        ..Kind::plain()
    };
    let pool = Pool::of_mobility(Zone::Movable, Mobility::Movable);
    assert!(rt; go_by_zone(pool, isolated) && are_shown());
}

/// Returns whether a copy of the words is 7 and 8.
fn is_copied(alloc: Global, words: &Option<Words>) -> Result<bool, AllocError> {
    let copy = Words::copy_if_any(alloc, words)?;
    match &copy {
        Some(words) => Ok(matches!(words.as_slice(), [7, 8])),
        None => Ok(false),
    }
}

/// Changes a word, and returns whether a copy has it.
fn is_changed(alloc: Global) -> Result<bool, AllocError> {
    let mut words = Words::new(alloc, vec![in alloc; 7, 9]?)?;
    words.set(1, 8);
    let some = Some(words);
    is_copied(alloc, &some)
}

/// Returns whether a migration counts as its operation's own work, and a commit as a step only if
/// it was done.
fn are_marked(op: Serial, migrate: &Event, commit: &Event) -> bool {
    mark_of(migrate) == Mark::Works { op }
        && mark_of(commit) == Mark::Other
        && Mark::Opens.is_opening()
        && is_step(commit, &Reply::Done)
        && !is_step(commit, &Reply::Refused(Refusal::NoOp))
}

/// Returns the refusal for a block that an operation holds.
fn busy() -> Refusal {
    Refusal::Busy { block: Block(2) }
}

/// Returns whether equal refusals and replies are the same, and others are not.
fn are_told() -> bool {
    !busy().same(Refusal::NoOp) && Reply::Refused(busy()).same(&Reply::Refused(busy()))
}

#[test]
fn words_marks_and_replies(rt: HostRuntime) -> Result<(), Fail> {
    let op = Serial(7);
    assert!(rt; is_changed(rt.alloc())? && are_told());
    assert!(rt; are_marked(op, &Event::Migrate { op }, &Event::Commit { op }));
    Ok(())
}

#[test]
fn values_are_written(rt: HostRuntime) -> Result<(), Fail> {
    let (class, pool, zone, auto) = (Class::IsoN, Pool::Mm, Zone::Movable, Auto::OnlineKernel);
    let text = format!(in rt.alloc(); "{class}, {pool}, {zone}, {auto}")?;
    assert!(rt; text.as_str() == "IN, MM, movable, online_kernel");
    Ok(())
}

#[test]
fn numbers_and_faults_are_written(rt: HostRuntime) -> Result<(), Fail> {
    let (block, cpu, order, page) = (Block(1), Cpu(2), Order(3), Page(4));
    let (pageblock, serial) = (Pageblock(5), Serial(6));
    let layout = LayoutFault::BadMarks;
    let text = format!(in rt.alloc(); "{block}{cpu}{order}{page}{pageblock}{serial} {layout}")?;
    assert!(rt; text.as_str() == "123456 BadMarks");
    Ok(())
}

#[test]
fn numbers_are_read(rt: HostRuntime) {
    assert!(rt; number32("4294967295") == Some(u32::MAX) && number32("07") == None);
    assert!(rt; number64("18446744073709551615") == Some(u64::MAX));
}
