//! Each call as the line that makes it, and the line of a memory block.
use hp_text::{write_call, write_row};
use hp_units::{
    Auto, Block, Claim, Cpu, Event, Frame, Item, Order, Owner, Page, Plan, Row, Serial, State,
    Text, Wish, Zone,
};
use indexmap::IndexSet;
use std::alloc::{AllocError, Global};
use std::test::Fail;

/// The lines of all calls below, in order.
const LINES: &str =
    "1 kalloc 2;1 kfree 8;1 map web 3;1 unmap db 3;1 write db 3 1 7;1 read db 3 1;1 drain 0;1 \
     online 3 movable;1 begin off 2 normal 3 movable 4;1 drainfor 5 0;1 migrate 5;1 commit 5;1 \
     cancel 5;1 undo 4;1 echo 0x80 probe;1 remove 3;1 echo online_kernel auto_online_blocks;";

/// Writes a call of processor 1, and a semicolon.
fn write_one(out: &mut String, names: &IndexSet<Text>, event: Event) -> Result<(), AllocError> {
    write_call(out, names, Cpu(1), &event)?;
    out.push_str(";")
}

/// Writes the calls that access frames and pages.
fn write_accesses(out: &mut String, names: &IndexSet<Text>) -> Result<(), AllocError> {
    let (owner, page, index) = (Owner(0), Page(3), 1);
    let web = Owner(1);
    write_one(out, names, Event::KernelAlloc { order: Order(2) })?;
    write_one(out, names, Event::KernelFree { frame: Frame(8) })?;
    write_one(out, names, Event::Map { owner: web, page })?;
    write_one(out, names, Event::Unmap { owner, page })?;
    write_one(
        out,
        names,
        Event::Write {
            owner,
            page,
            index,
            value: 7,
        },
    )?;
    write_one(out, names, Event::Read { owner, page, index })?;
    write_one(out, names, Event::Drain { cpu: Cpu(0) })
}

/// Returns a Begin of three blocks.
fn begin(alloc: Global) -> Result<Event, AllocError> {
    let mut items = Vec::new(alloc);
    for (block, wish) in [(2, Wish::Off), (3, Wish::Normal), (4, Wish::Movable)] {
        items.push(Item {
            block: Block(block),
            wish,
        })?;
    }
    Ok(Event::Begin {
        plan: Plan::new(alloc, items)?,
    })
}

/// Writes an online, the calls of an operation, and an undo.
fn write_operations(
    out: &mut String,
    alloc: Global,
    names: &IndexSet<Text>,
) -> Result<(), AllocError> {
    let (op, block, zone) = (Serial(5), Block(3), Zone::Movable);
    write_one(out, names, Event::Online { block, zone })?;
    write_one(out, names, begin(alloc)?)?;
    write_one(out, names, Event::DrainFor { op, cpu: Cpu(0) })?;
    write_one(out, names, Event::Migrate { op })?;
    write_one(out, names, Event::Commit { op })?;
    write_one(out, names, Event::Cancel { op })?;
    write_one(out, names, Event::UndoAfter { serial: Serial(4) })
}

/// Writes the calls that add and remove blocks, and the one that sets what an added block becomes.
fn write_blocks(out: &mut String, names: &IndexSet<Text>) -> Result<(), AllocError> {
    write_one(out, names, Event::Probe { address: 128 })?;
    write_one(out, names, Event::Remove { block: Block(3) })?;
    let auto = Auto::OnlineKernel;
    write_one(out, names, Event::SetAuto { auto })
}

/// Adds an owner's name.
fn add_name(names: &mut IndexSet<Text>, alloc: Global, name: &str) -> Result<(), AllocError> {
    let _ = names.insert_full(Text::new(String::from_str(alloc, name)?))?;
    Ok(())
}

/// Returns the names of two owners.
fn two_names(alloc: Global) -> Result<IndexSet<Text>, AllocError> {
    let mut names = IndexSet::new(alloc);
    add_name(&mut names, alloc, "db")?;
    add_name(&mut names, alloc, "web")?;
    Ok(names)
}

/// Writes all calls.
fn write_lines(out: &mut String, alloc: Global, names: &IndexSet<Text>) -> Result<(), AllocError> {
    write_accesses(out, names)?;
    write_operations(out, alloc, names)?;
    write_blocks(out, names)
}

/// Returns the text of all calls.
fn lines(alloc: Global) -> Result<String, AllocError> {
    let names = two_names(alloc)?;
    let mut out = String::new(alloc);
    write_lines(&mut out, alloc, &names)?;
    Ok(out)
}

#[test]
fn each_call_has_its_line(rt: HostRuntime) -> Result<(), Fail> {
    let text = lines(rt.alloc())?;
    assert!(rt; text.as_str() == LINES);
    Ok(())
}

/// Returns the line of a block that an operation holds.
fn held(alloc: Global) -> Result<String, AllocError> {
    let mut out = String::new(alloc);
    let row = Row {
        state: State::Going,
        zone: Some(Zone::Movable),
        claim: Some(Claim {
            op: Serial(3),
            wish: Wish::Off,
        }),
    };
    write_row(&mut out, Block(2), row)?;
    Ok(out)
}

#[test]
fn a_row_has_its_line(rt: HostRuntime) -> Result<(), Fail> {
    let text = held(rt.alloc())?;
    assert!(rt; text.as_str() == "block 2 going movable op 3\n");
    Ok(())
}
