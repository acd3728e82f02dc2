//! Writes a state as text: blocks, free lists, processors' lists, kernel blocks and pages.
ghost use Rattle.std.specs.Prelude.{◌≡◌, ◌++◌, Some, OnOk, string_bytes};
ghost use Rattle.std.specs.List.{flat_map};
ghost use Rattle.hp_text.specs.State.{auto_line, block_line, blocks_text, cached_line, class_lists_text, frames_text, free_lists_text, free_line, has_mark, kernel_line, kernel_text, mark_text, marked_line, marked_word, marked_words, newline, number_word, processor_lists_text, processors_lists_text, row_line, rows_text, state_text, state_words};

mod pages;

pub(crate) use self::pages::name_of;
use self::pages::write_pages;
use crate::numbers::{write_numbered, write_word};
use hp_plain::Image;
use hp_units::{
    Auto, Block, Class, Cpu, Frame, Kind, Mobility, Order, Pageblock, Pool, Row, State, Text, Zone,
};
use indexmap::IndexSet;
use std::alloc::{AllocError, Global};

/// What can mark a pageblock.
#[derive(Clone, Copy)]
enum Mark {
    Unmovable,
    Isolated,
}

/// Writes a state without the parts that are empty: the memory blocks, what a block becomes when it
/// is added, the unmovable and the isolated pageblocks, the free lists, the processors' lists, the
/// kernel's blocks and the mapped pages. Owners are written by name.
#[tactic(auto, unfolding(crate::specs::State::state_text, crate::specs::State::rows_text))]
pub fn write_state(
    out: &mut String,
    alloc: Global,
    image: &Image,
    names: &IndexSet<Text>,
) -> Result<(), AllocError>
    ensures { OnOk result (string_bytes out.new
        ≡ string_bytes out.old ++ state_text image.now.layout names.now.keys image.now.memory) }
{
    out.push_str("state\n")?;
    write_blocks(out, image)?;
    write_auto(out, image.auto())?;
    write_marked(out, alloc, image, Mark::Unmovable)?;
    write_marked(out, alloc, image, Mark::Isolated)?;
    write_frames(out, image, names)
}

/// Writes the frames that are free, then those that are in use.
#[tactic(auto, unfolding(crate::specs::State::frames_text))]
fn write_frames(out: &mut String, image: &Image, names: &IndexSet<Text>) -> Result<(), AllocError>
    ensures { OnOk result (string_bytes out.new
        ≡ string_bytes out.old ++ frames_text image.now.layout names.now.keys image.now.memory) }
{
    write_free_lists(out, image)?;
    write_processors(out, image)?;
    write_kernel_blocks(out, image)?;
    write_pages(out, image, names)
}

/// Writes a line for each memory block.
#[tactic(auto, unfolding(crate::specs::State::blocks_text))]
fn write_blocks(out: &mut String, image: &Image) -> Result<(), AllocError>
    ensures { OnOk result (string_bytes out.new
        ≡ string_bytes out.old ++ blocks_text image.now.layout image.now.memory.blocks) }
{
    for number in 0..image.layout().blocks() {
        let block = Block(number);
        write_block(out, block, image.row(block))?;
    }
    Ok(())
}

/// Writes the line of a memory block, if there is such a block.
fn write_block(out: &mut String, block: Block, row: Option<Row>) -> Result<(), AllocError>
    ensures { OnOk result (string_bytes out.new ≡ string_bytes out.old ++ block_line block row) }
{
    match row {
        Some(row) => write_row(out, block, row),
        None => Ok(()),
    }
}

/// Writes the line of a memory block: its state, its zone if it is online or going offline, and the
/// operation that holds it, such as `block 2 going movable op 3`.
#[tactic(auto, unfolding(crate::specs::State::row_line))]
pub fn write_row(out: &mut String, block: Block, row: Row) -> Result<(), AllocError>
    ensures { OnOk result (string_bytes out.new ≡ string_bytes out.old ++ row_line block row) }
{
    let words = words_of(row.state, row.zone);
    match row.claim {
        Some(claim) => {
            let op = claim.op;
            writeln!(out, "block {block} {words} op {op}")
        }
        None => writeln!(out, "block {block} {words}"),
    }
}

/// Returns the words for a memory block's state, with its zone if it is online or going offline.
fn words_of(state: State, zone: Option<Zone>) -> &'static str
    ensures { result.now ≡ state_words state zone }
{
    match (state, zone) {
        (State::Offline, _) => "offline",
        (State::Online, None) => "online",
        (State::Online, Some(Zone::Normal)) => "online normal",
        (State::Online, Some(Zone::Movable)) => "online movable",
        (State::Going, None) => "going",
        (State::Going, Some(Zone::Normal)) => "going normal",
        (State::Going, Some(Zone::Movable)) => "going movable",
        (State::Absent, _) => "absent",
    }
}

/// Writes what a block becomes when it is added, unless that is offline.
#[tactic(auto, unfolding(crate::specs::State::auto_line))]
fn write_auto(out: &mut String, auto: Auto) -> Result<(), AllocError>
    ensures { OnOk result (string_bytes out.new ≡ string_bytes out.old ++ auto_line auto) }
{
    if auto != Auto::Offline {
        writeln!(out, "auto: {auto}")?;
    }
    Ok(())
}

/// Writes the line with the numbers of the pageblocks that have `mark`, unless there are none.
#[tactic(auto, unfolding(crate::specs::State::marked_line, crate::specs::State::words_line))]
fn write_marked(
    out: &mut String,
    alloc: Global,
    image: &Image,
    mark: Mark,
) -> Result<(), AllocError>
    ensures { OnOk result (string_bytes out.new
        ≡ string_bytes out.old ++ marked_line mark image.now.layout image.now.memory.free.areas) }
{
    let mut words = String::new(alloc);
    write_marked_words(&mut words, image, mark)?;
    if words.is_empty() {
        return Ok(());
    }
    let name = name_of_mark(mark);
    writeln!(out, "{name}:{words}")
}

/// Returns the name of a mark.
fn name_of_mark(mark: Mark) -> &'static str
    ensures { result.now ≡ mark_text mark }
{
    match mark {
        Mark::Unmovable => "unmovable",
        Mark::Isolated => "isolated",
    }
}

/// Writes the number of each pageblock that has `mark`.
#[tactic(auto, unfolding(crate::specs::State::marked_words))]
fn write_marked_words(out: &mut String, image: &Image, mark: Mark) -> Result<(), AllocError>
    ensures { OnOk result (string_bytes out.new
        ≡ string_bytes out.old ++ marked_words mark image.now.layout image.now.memory.free.areas) }
{
    let layout = image.layout();
    for number in 0..layout.blocks() * layout.pageblocks() {
        let pageblock = Pageblock(number);
        write_marked_word(out, mark, pageblock, image.kind(pageblock))?;
    }
    Ok(())
}

/// Writes the number of a pageblock, if it has the mark.
fn write_marked_word(
    out: &mut String,
    mark: Mark,
    pageblock: Pageblock,
    kind: Option<Kind>,
) -> Result<(), AllocError>
    ensures { OnOk result (string_bytes out.new ≡ string_bytes out.old ++ marked_word mark pageblock kind) }
{
    if let Some(kind) = kind
        && has_mark(mark, kind)
    {
        write!(out, " {pageblock}")?;
    }
    Ok(())
}

/// Returns whether a pageblock of this kind has the mark.
fn has_mark(mark: Mark, kind: Kind) -> bool
    ensures { result ≡ has_mark mark kind }
{
    match mark {
        Mark::Unmovable => matches!(kind.mobility, Mobility::Unmovable),
        Mark::Isolated => kind.isolated,
    }
}

/// Writes the free lists, by class and order.
#[tactic(auto, unfolding(crate::specs::State::free_lists_text))]
fn write_free_lists(out: &mut String, image: &Image) -> Result<(), AllocError>
    ensures { OnOk result (string_bytes out.new
        ≡ string_bytes out.old ++ free_lists_text image.now.layout image.now.memory.free.areas) }
{
    write_class(out, image, Class::Nu)?;
    write_class(out, image, Class::Nm)?;
    write_class(out, image, Class::Mm)?;
    write_class(out, image, Class::IsoN)?;
    write_class(out, image, Class::IsoM)
}

/// Writes a class's free lists, lowest order first.
#[tactic(auto, unfolding(crate::specs::State::class_lists_text))]
fn write_class(out: &mut String, image: &Image, class: Class) -> Result<(), AllocError>
    ensures { OnOk result (string_bytes out.new
        ≡ string_bytes out.old ++ class_lists_text image.now.layout image.now.memory.free.areas class) }
{
    for number in 0..image.layout().order() + 1 {
        let order = Order(number);
        write_free_list(out, class, order, image.list(class, order))?;
    }
    Ok(())
}

/// Writes each processor's lists.
#[tactic(auto, unfolding(crate::specs::State::processors_lists_text))]
fn write_processors(out: &mut String, image: &Image) -> Result<(), AllocError>
    ensures { OnOk result (string_bytes out.new
        ≡ string_bytes out.old ++ processors_lists_text image.now.layout image.now.memory.free) }
{
    for number in 0..image.layout().cpus() {
        write_processor(out, image, Cpu(number))?;
    }
    Ok(())
}

/// Writes a processor's lists.
#[tactic(auto, unfolding(crate::specs::State::processor_lists_text))]
fn write_processor(out: &mut String, image: &Image, cpu: Cpu) -> Result<(), AllocError>
    ensures { OnOk result
        (string_bytes out.new ≡ string_bytes out.old ++ processor_lists_text image.now.memory.free cpu) }
{
    write_cached_list(out, cpu, Pool::Nu, image.cpu_list(cpu, Pool::Nu))?;
    write_cached_list(out, cpu, Pool::Nm, image.cpu_list(cpu, Pool::Nm))?;
    write_cached_list(out, cpu, Pool::Mm, image.cpu_list(cpu, Pool::Mm))
}

/// Writes the line of a processor's list for a pool, front first, unless the list is empty.
#[tactic(auto, unfolding(crate::specs::State::numbers_line))]
fn write_cached_list(
    out: &mut String,
    cpu: Cpu,
    pool: Pool,
    frames: &[Frame],
) -> Result<(), AllocError>
    ensures { OnOk result (string_bytes out.new ≡ string_bytes out.old ++ cached_line cpu pool frames.now) }
{
    if frames.is_empty() {
        return Ok(());
    }
    write!(out, "cpu {cpu} {pool}:")?;
    write_frames_line(out, frames)
}

/// Writes the line of a class's list of an order, front first, unless the list is empty.
#[tactic(auto, unfolding(crate::specs::State::numbers_line))]
fn write_free_list(
    out: &mut String,
    class: Class,
    order: Order,
    frames: &[Frame],
) -> Result<(), AllocError>
    ensures { OnOk result (string_bytes out.new ≡ string_bytes out.old ++ free_line class order frames.now) }
{
    if frames.is_empty() {
        return Ok(());
    }
    write!(out, "{class} {order}:")?;
    write_frames_line(out, frames)
}

/// Writes frames, each after a space, and a newline.
fn write_frames_line(out: &mut String, frames: &[Frame]) -> Result<(), AllocError>
    ensures { OnOk result
        (string_bytes out.new ≡ string_bytes out.old ++ flat_map number_word frames.now ++ newline) }
{
    for frame in frames {
        write_word(out, u64::from(frame.0))?;
    }
    out.push('\n')
}

/// Writes a line for each block of the kernel.
#[tactic(auto, unfolding(crate::specs::State::kernel_text))]
fn write_kernel_blocks(out: &mut String, image: &Image) -> Result<(), AllocError>
    ensures { OnOk result
        (string_bytes out.new ≡ string_bytes out.old ++ kernel_text image.now.layout image.now.memory) }
{
    for number in 0..image.layout().frames() {
        let frame = Frame(number);
        write_kernel_block(out, frame, image.kernel_at(frame))?;
    }
    Ok(())
}

/// Writes the line of the kernel's block that starts at a frame, if there is one.
fn write_kernel_block(
    out: &mut String,
    frame: Frame,
    order: Option<Order>,
) -> Result<(), AllocError>
    ensures { OnOk result (string_bytes out.new ≡ string_bytes out.old ++ kernel_line frame order) }
{
    match order {
        Some(order) => {
            write_numbered(out, "kernel ", u64::from(frame.0))?;
            write_numbered(out, " order ", u64::from(order.0))?;
            out.push('\n')
        }
        None => Ok(()),
    }
}
