//! Pictures of a machine's memory blocks: at boot, after kernel blocks, a page and a Begin, and
//! with free blocks of each order.
use crate::looks::{Look, finds_at_boot, finds_in_four_blocks};
use hp_machine::Machine;
use hp_map::{BlockPicture, FreeBlock, KernelBlock, Place, frames_in, picture_of, places_of};
use hp_units::{Block, Boot, Cpu, Event, Item, Layout, Order, Owner, Page, Parts, Plan, Wish};
use layouts_for_tests::LAST_ABSENT;
use std::alloc::{AllocError, Global};
use std::test::Fail;

/// The expected picture of a memory block: its head, its cells, its cells with orders, its
/// pageblocks' kinds; its free blocks (index in the cells, order, whether isolated), its kernel
/// blocks (index in the cells, order), and its counts.
type Wanted = (
    [&'static str; 4],
    &'static [(u32, u32, bool)],
    &'static [(u32, u32)],
    &'static str,
);

/// Five memory blocks of two pageblocks. The kernel has a block of two frames and one of one frame,
/// each processor's list has a frame, and an owner has a page. A plan has begun that takes one
/// memory block offline and brings two online.
const BEGUN: &[Wanted] = &[
    (
        ["0:N", "KKK1|....", "KKK1|(2.)", "UUUU|MMMM"],
        &[(5, 2, false)],
        &[(0, 1), (2, 0)],
        "8: .*4 K*3 1*1 (2)*1",
    ),
    (
        ["1:M>off", "a0::|::::", "a0{}|{2:}", "MMMM|MMMM"],
        &[(2, 1, true), (5, 2, true)],
        &[],
        "8: :*6 0*1 a*1 {1}*1 {2}*1",
    ),
    (
        ["2:off>N", "----|----", "----|----", "    |    "],
        &[],
        &[],
        "8: -*8",
    ),
    (
        ["3:off>M", "----|----", "----|----", "    |    "],
        &[],
        &[],
        "8: -*8",
    ),
    (
        ["4:absent", "    |    ", "    |    ", "    |    "],
        &[],
        &[],
        "8:  *8",
    ),
];

/// The heads and cells of the four blocks at boot.
const BOOT: &[(&str, &str)] = &[
    ("0:N", "...."),
    ("1:N", "...."),
    ("2:M", "...."),
    ("3:absent", "    "),
];

/// The counts of memory blocks of 1,024 frames: one with a kernel frame, one that is free, and one
/// that has a page and is to go offline.
const COUNTED: &[&str] = &[
    "0:N[1024: .*1023 K*1 (0)*1 (1)*1 (2)*1 (3)*1 (4)*1 (5)*1 (6)*1 (7)*1 (8)*1 (9)*1]",
    "1:N[1024: .*1024 (10)*1]",
    "2:M>off[1024: :*1023 a*1 {0}*1 {1}*1 {2}*1 {3}*1 {4}*1 {5}*1 {6}*1 {7}*1 {8}*1 {9}*1]",
];

/// What a free block of each order from 2 on has between its brackets: its order, and the number of
/// marks.
const INNER: &[(&str, u32)] = &[
    ("2", 1),
    ("3", 5),
    ("4", 13),
    ("5", 29),
    ("6", 61),
    ("7", 125),
    ("8", 253),
    ("9", 509),
];

/// What a test checks.
#[derive(Clone, Copy)]
enum Drawn {
    Boot,
    Begun,
    Orders,
}

impl Look for Drawn {
    fn finds(&self, alloc: Global, machine: &mut Machine) -> bool {
        match self {
            Drawn::Boot => draws(alloc, machine, BOOT) && starts_free(alloc, machine, 16),
            Drawn::Begun => draws_begun(alloc, machine).unwrap_or(false),
            Drawn::Orders => draws_orders(alloc, machine).unwrap_or(false),
        }
    }
}

// ---- at boot

/// Returns whether memory blocks are drawn with these heads and cells, in order.
fn are_drawn(blocks: &[BlockPicture], wanted: &[(&str, &str)]) -> bool {
    if blocks.len() != wanted.len() {
        return false;
    }
    for (block, other) in blocks.iter().zip(wanted) {
        if block.head() != other.0 || block.cells() != other.1 {
            return false;
        }
    }
    true
}

/// Returns whether a machine's memory is drawn with these heads and cells.
fn draws(alloc: Global, machine: &Machine, wanted: &[(&str, &str)]) -> bool {
    match picture_of(alloc, machine, false) {
        Ok(blocks) => are_drawn(&blocks, wanted),
        Err(AllocError) => false,
    }
}

/// Returns whether a machine has `count` frames, and the first is free.
fn starts_free(alloc: Global, machine: &Machine, count: usize) -> bool {
    match places_of(alloc, machine) {
        Ok(places) => places.len() == count && places.get(0).copied() == Some(Place::Free),
        Err(AllocError) => false,
    }
}

// ---- after a kernel's blocks, a page and a Begin

/// Returns whether the free blocks are the expected ones.
fn are_free(blocks: &[FreeBlock], wanted: &[(u32, u32, bool)]) -> bool {
    if blocks.len() != wanted.len() {
        return false;
    }
    for (block, other) in blocks.iter().zip(wanted) {
        let is_there = block.at == other.0 && block.order == other.1;
        if !is_there || block.is_isolated != other.2 {
            return false;
        }
    }
    true
}

/// Returns whether the kernel blocks are the expected ones.
fn are_kernel(blocks: &[KernelBlock], wanted: &[(u32, u32)]) -> bool {
    if blocks.len() != wanted.len() {
        return false;
    }
    for (block, other) in blocks.iter().zip(wanted) {
        if block.at != other.0 || block.order != other.1 {
            return false;
        }
    }
    true
}

/// Returns whether a memory block has these texts.
fn has_texts(block: &BlockPicture, wanted: &[&'static str; 4]) -> bool {
    let [head, cells, ordered, kinds] = *wanted;
    block.head() == head
        && block.cells() == cells
        && block.ordered() == ordered
        && block.kinds() == kinds
}

/// Returns whether a memory block is written, with and without orders, and counted as expected.
fn is_written(alloc: Global, block: &BlockPicture, wanted: &Wanted) -> Result<bool, AllocError> {
    let [head, cells, ordered, _] = wanted.0;
    let mut out = String::new(alloc);
    block.write(&mut out, false)?;
    block.write(&mut out, true)?;
    block.write_counted(&mut out, true)?;
    let counted = wanted.3;
    let text = format!(in alloc; "{head}[{cells}]{head}[{ordered}]{head}[{counted}]")?;
    Ok(out.as_str() == text.as_str())
}

/// Returns whether a memory block has the expected picture.
fn is_wanted(alloc: Global, block: &BlockPicture, wanted: &Wanted) -> bool {
    has_texts(block, &wanted.0)
        && are_free(block.free(), wanted.1)
        && are_kernel(block.kernel(), wanted.2)
        && is_written(alloc, block, wanted).unwrap_or(false)
}

/// Returns whether the memory blocks have the pictures of `BEGUN`.
fn are_wanted(alloc: Global, blocks: &[BlockPicture]) -> bool {
    if blocks.len() != BEGUN.len() {
        return false;
    }
    for (block, wanted) in blocks.iter().zip(BEGUN) {
        if !is_wanted(alloc, block, wanted) {
            return false;
        }
    }
    true
}

/// Makes a call, and returns whether it left a record.
fn does(alloc: Global, machine: &mut Machine, cpu: Cpu, event: &Event) -> bool {
    machine.call(alloc, cpu, event).is_ok()
}

/// Returns a Begin with these wishes for these memory blocks.
fn begin(alloc: Global, wishes: &[(u32, Wish)]) -> Result<Event, AllocError> {
    let mut items = Vec::new(alloc);
    for (block, wish) in wishes {
        items.push(Item {
            block: Block(*block),
            wish: *wish,
        })?;
    }
    let plan = Plan::new(alloc, items)?;
    Ok(Event::Begin { plan })
}

/// Makes the calls that lead to `BEGUN`, and returns whether the five memory blocks are drawn so.
fn draws_begun(alloc: Global, machine: &mut Machine) -> Result<bool, AllocError> {
    let two = Event::KernelAlloc { order: Order(1) };
    let one = Event::KernelAlloc { order: Order(0) };
    let map = Event::Map {
        owner: Owner(0),
        page: Page(0),
    };
    let plan = begin(
        alloc,
        &[(1, Wish::Off), (2, Wish::Normal), (3, Wish::Movable)],
    )?;
    let is_done = does(alloc, machine, Cpu(0), &two)
        && does(alloc, machine, Cpu(1), &one)
        && does(alloc, machine, Cpu(0), &map)
        && does(alloc, machine, Cpu(0), &plan);
    let blocks = picture_of(alloc, machine, true)?;
    Ok(is_done && are_wanted(alloc, &blocks))
}

// ---- free blocks of each order

/// Returns the cells of a memory block whose first frame is in use: a free block of each order
/// follows.
fn all_orders(alloc: Global, first: &str, marks: [&str; 3]) -> Result<String, AllocError> {
    let [open, mark, close] = marks;
    let mut out = format!(in alloc; "{first}{mark}{open}{close}")?;
    for (order, count) in INNER {
        out.push_str(open)?;
        out.push_str(order)?;
        for _ in 0..*count {
            out.push_str(mark)?;
        }
        out.push_str(close)?;
    }
    Ok(out)
}

/// Returns the cells of a memory block that is one free block of order 10.
fn one_block(alloc: Global) -> Result<String, AllocError> {
    let mut out = String::from_str(alloc, "(10")?;
    for _ in 0..1020 {
        out.push_str(".")?;
    }
    out.push_str(")")?;
    Ok(out)
}

/// Returns whether memory blocks have the counts of `COUNTED`.
fn are_counted(alloc: Global, blocks: &[BlockPicture]) -> Result<bool, AllocError> {
    for (block, wanted) in blocks.iter().zip(COUNTED) {
        let mut out = String::new(alloc);
        block.write_counted(&mut out, true)?;
        if out.as_str() != *wanted {
            return Ok(false);
        }
    }
    Ok(true)
}

/// Returns whether the three memory blocks of 1,024 frames are drawn with the expected orders.
fn are_ordered(alloc: Global, blocks: &[BlockPicture]) -> Result<bool, AllocError> {
    let kernel = all_orders(alloc, "K", ["(", ".", ")"])?;
    let whole = one_block(alloc)?;
    let page = all_orders(alloc, "a", ["{", ":", "}"])?;
    Ok(match blocks {
        [first, second, third] => {
            first.ordered() == kernel.as_str()
                && second.ordered() == whole.as_str()
                && third.ordered() == page.as_str()
        }
        _ => false,
    })
}

/// Makes the calls, and returns whether the three memory blocks of 1,024 frames are drawn as
/// expected.
fn draws_orders(alloc: Global, machine: &mut Machine) -> Result<bool, AllocError> {
    let one = Event::KernelAlloc { order: Order(0) };
    let map = Event::Map {
        owner: Owner(0),
        page: Page(0),
    };
    let plan = begin(alloc, &[(2, Wish::Off)])?;
    let is_done = does(alloc, machine, Cpu(0), &one)
        && does(alloc, machine, Cpu(0), &map)
        && does(alloc, machine, Cpu(0), &plan);
    let blocks = picture_of(alloc, machine, true)?;
    Ok(is_done && are_ordered(alloc, &blocks)? && are_counted(alloc, &blocks)?)
}

/// Boots a machine, and returns whether it is drawn as the test expects. `size` is the order, the
/// pageblocks per memory block and `batch`.
fn finds(alloc: Global, size: (u64, u64, u64), boot: &[Boot], look: &Drawn) -> Result<bool, Fail> {
    let parts = Parts {
        order: size.0,
        pageblocks: size.1,
        blocks: boot.len() as u64,
        cpus: 2,
        batch: size.2,
        high: 2,
        owners: 1,
        pages: 4,
        words: 1,
        history: 9,
        boot,
    };
    let layout = Layout::new(alloc, &parts)?;
    Ok(finds_at_boot(alloc, &layout, look))
}

#[test]
fn memory_is_drawn(rt: HostRuntime) {
    assert!(rt; finds_in_four_blocks(rt.alloc(), LAST_ABSENT, &Drawn::Boot));
    assert!(rt; frames_in("a1|::") == 4);
}

#[test]
fn each_part_is_drawn(rt: HostRuntime) -> Result<(), Fail> {
    let boot = &[
        Boot::Normal,
        Boot::Movable,
        Boot::Offline,
        Boot::Offline,
        Boot::Absent,
    ];
    assert!(rt; finds(rt.alloc(), (2, 2, 2), boot, &Drawn::Begun)?);
    Ok(())
}

#[test]
fn each_order_is_drawn(rt: HostRuntime) -> Result<(), Fail> {
    let boot = &[Boot::Normal, Boot::Normal, Boot::Movable];
    assert!(rt; finds(rt.alloc(), (10, 1, 1), boot, &Drawn::Orders)?);
    Ok(())
}
