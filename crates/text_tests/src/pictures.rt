//! Rows drawn as a picture.
use crate::picture_parts::{
    EMPTY, FOLDED, FOLDED_ROWS, FOURFOLD, KERNEL, KERNEL_NUMBERS, KERNEL_ROWS, LEGEND, MARKED,
    NAMES, NARROW, NARROW_ROW, QUARTER, THIRD, UNNAMED,
};
use hp_map::{BlockPicture, FreeBlock, KernelBlock, Move, RowPicture};
use hp_scenario::Scenario;
use hp_svg::picture_of;
use hp_trace::{View, trace_rows};
use hp_units::{Frame, Text};
use indexmap::IndexSet;
use std::alloc::{AllocError, Global};
use std::test::Fail;

pub(crate) type Words = &'static str;

/// Free blocks: the index of the first frame's character in the cells, the order, and whether they
/// are isolated.
pub(crate) type Free = &'static [(u32, u32, bool)];

/// Kernel blocks: the index of the first frame's character in the cells, and the order.
pub(crate) type Kernel = &'static [(u32, u32)];

/// A memory block: its head, cells, free blocks, kernel blocks, and pageblocks' kinds.
pub(crate) type Block = (Words, Words, Free, Kernel, Words);

/// A row: the call, the answer, the two frames of a page that moved, and the memory blocks.
pub(crate) type Row = (Words, Words, Option<(u32, u32)>, &'static [Block]);

/// Characters that XML escapes, and a tab, which a picture shows as a question mark.
const WORDS: &str = "<&>\"\t";

/// Memory blocks with each kind of cell, free blocks, and pageblocks of each mobility.
const BOOT: &[Block] = &[
    (
        "0:N",
        "a...|KK..",
        &[(1, 0, false), (2, 1, false), (7, 1, false)],
        &[(5, 1)],
        "MMMM|UUUU",
    ),
    (
        "1:M>off",
        ":0::|-- -",
        &[(0, 0, true), (2, 1, true)],
        &[],
        "MMMM|    ",
    ),
];

/// A memory block that is offline.
const OFFLINE: &[Block] = &[("0:N", "----|----", &[], &[], "    |    ")];

/// A row with each kind of cell, one of only text, and one whose page moved to a frame after a bar.
pub(crate) const ROWS: &[Row] = &[
    ("   0 boot", "1: done", None, BOOT),
    (WORDS, "", None, &[]),
    ("   1 0 migrate 1", "2: moved 0 5", Some((0, 5)), OFFLINE),
];

/// The picture of `ROWS`. It was written by another program, which was written by hand from the
/// rules in LAB.md.
const PICTURE: &str =
    "<svg xmlns='http://www.w3.org/2000/svg' width='820' height='150' viewBox='0 0 820 150' \
     font-family='monospace' font-size='10' xml:space='preserve'><title>Trace of a \
     memory</title><style>text{white-space:pre}</style><pattern id='isolated' width='4' \
     height='4' patternUnits='userSpaceOnUse'><rect width='4' height='4' fill='#eef5ee'/><path \
     d='M-1 1L1 -1M0 4L4 0M3 5L5 3' stroke='#4f9d69'/></pattern><pattern id='grid' width='8' \
     height='14' patternUnits='userSpaceOnUse'><path d='M0 0V14M8 0V14' \
     stroke='#ffffff'/></pattern><defs><rect id='lines' width='72' height='14' \
     fill='url(#grid)'/></defs><rect width='100%' height='100%' fill='#ffffff'/>\n\
     <rect x='8' y='8' width='12' height='12' fill='#7fbf7b'/><text x='26' y='18'>free</text>\n\
     <rect x='168' y='8' width='12' height='12' fill='url(#isolated)'/><text x='186' y='18'>free \
     and isolated</text>\n\
     <rect x='328' y='8' width='12' height='12' fill='#d4d4d8'/><text x='346' \
     y='18'>offline</text>\n\
     <rect x='488' y='8' width='12' height='12' fill='#f4f4f6'/><text x='506' \
     y='18'>absent</text>\n\
     <rect x='648' y='8' width='12' height='12' fill='#3d3d3d'/><text x='650' y='17' \
     font-size='8' fill='#ffffff'>K</text><text x='666' y='18'>the kernel</text>\n\
     <rect x='8' y='24' width='12' height='12' fill='#fff4cc'/><text x='10' y='33' font-size='8' \
     fill='#000000'>0</text><text x='26' y='34'>list of processor 0</text>\n\
     <rect x='168' y='24' width='12' height='12' fill='#0072b2'/><text x='170' y='33' \
     font-size='8' fill='#ffffff'>a</text><text x='186' y='34'>page of db</text>\n\
     <rect x='328' y='25' width='12' height='10' rx='3' fill='none' stroke='#14532d'/><text \
     x='346' y='34'>free block, its order</text>\n\
     <rect x='488' y='24' width='12' height='12' fill='#3d3d3d'/><text x='490' y='33' \
     font-size='8' fill='#ffffff'>K</text><rect x='488' y='25' width='12' height='10' rx='3' \
     fill='none' stroke='#fbbf24'/><text x='506' y='34'>kernel block, order</text>\n\
     <rect x='648' y='29' width='12' height='2' fill='#a78bfa'/><text x='666' y='34'>movable \
     pageblock</text>\n\
     <rect x='8' y='45' width='12' height='2' fill='#4c1d95'/><text x='26' y='50'>unmovable \
     pageblock</text>\n\
     <path d='M168 42L180 50' stroke='#b91c1c' stroke-width='1.2' marker-end='url(#arrow)'/><text \
     x='186' y='50'>page that moved</text>\n\
     <g transform='translate(0 94)'><text x='8' y='10'>   0 boot</text><text x='188' y='10'>1: \
     done</text><text x='336' y='10'> 0:N</text><rect x='384' y='0' width='8' height='12' \
     fill='#0072b2'/><text x='386' y='9' font-size='8' fill='#ffffff'>a</text><rect x='392' y='0' \
     width='24' height='12' fill='#7fbf7b'/><rect x='424' y='0' width='16' height='12' \
     fill='#3d3d3d'/><text x='426' y='9' font-size='8' fill='#ffffff'>K</text><rect x='440' y='0' \
     width='16' height='12' fill='#7fbf7b'/><rect x='384' y='12' width='32' height='2' \
     fill='#a78bfa'/><rect x='424' y='12' width='32' height='2' fill='#4c1d95'/><use \
     href='#lines' x='384' y='0'/><rect x='393' y='1' width='6' height='10' rx='3' fill='none' \
     stroke='#14532d'/><rect x='401' y='1' width='14' height='10' rx='3' fill='none' \
     stroke='#14532d'/><text x='404' y='9' font-size='8' fill='#052e16' stroke='#ffffff' \
     stroke-width='2' paint-order='stroke'>1</text><rect x='441' y='1' width='14' height='10' \
     rx='3' fill='none' stroke='#14532d'/><text x='444' y='9' font-size='8' fill='#052e16' \
     stroke='#ffffff' stroke-width='2' paint-order='stroke'>1</text><rect x='425' y='1' \
     width='14' height='10' rx='3' fill='none' stroke='#fbbf24'/><text x='433' y='9' \
     font-size='8' fill='#fbbf24' stroke='#3d3d3d' stroke-width='2' \
     paint-order='stroke'>1</text><text x='456' y='10' \
     textLength='42' lengthAdjust='spacingAndGlyphs'> 1:M&gt;off</text><rect x='504' y='0' \
     width='8' height='12' fill='url(#isolated)'/><rect x='512' y='0' width='8' height='12' \
     fill='#fff4cc'/><text x='514' y='9' font-size='8' fill='#000000'>0</text><rect x='520' y='0' \
     width='16' height='12' fill='url(#isolated)'/><rect x='544' y='0' width='16' height='12' \
     fill='#d4d4d8'/><rect x='560' y='0' width='8' height='12' fill='#f4f4f6'/><rect x='568' \
     y='0' width='8' height='12' fill='#d4d4d8'/><rect x='504' y='12' width='32' height='2' \
     fill='#a78bfa'/><use href='#lines' x='504' y='0'/><rect x='505' y='1' width='6' height='10' \
     rx='3' fill='none' stroke='#14532d'/><rect x='521' y='1' width='14' height='10' rx='3' \
     fill='none' stroke='#14532d'/><text x='524' y='9' font-size='8' fill='#052e16' \
     stroke='#ffffff' stroke-width='2' paint-order='stroke'>1</text>\n\
     <text x='188' y='24'>&lt;&amp;&gt;&quot;?</text>\n\
     <text x='8' y='38'>   1 0 migrate 1</text><text x='188' y='38'>2: moved 0 5</text><text \
     x='336' y='38'> 0:N</text><rect x='384' y='28' width='32' height='12' fill='#d4d4d8'/><rect \
     x='424' y='28' width='32' height='12' fill='#d4d4d8'/><use href='#lines' x='384' y='28'/>\n\
     \n\
     </g>\n\
     <marker id='arrow' viewBox='0 0 6 6' refX='5' refY='3' markerWidth='5' markerHeight='5' \
     orient='auto'><path d='M0 0L6 3L0 6Z' fill='#b91c1c'/></marker><defs><g id='moves' \
     transform='translate(0 94)'><path d='M388 6L436 34'/></g></defs><use href='#moves' \
     stroke='#ffffff' stroke-width='3' stroke-opacity='0.6'/><use href='#moves' stroke='#b91c1c' \
     stroke-width='1.2' marker-end='url(#arrow)'/>\n\
     <text x='384' y='76'>block 0</text><text x='336' y='88'> frame</text><text x='384' y='88' \
     font-size='8'>0</text><text x='424' y='88' font-size='8'>4</text>\n\
     <text x='504' y='76'>block 1</text><text x='456' y='88'> frame</text><text x='504' y='88' \
     font-size='8'>8</text><text x='544' y='88' font-size='8'>12</text>\n\
     </svg>\n";

/// Returns a `Text`.
fn text(alloc: Global, from: &str) -> Result<Text, AllocError> {
    Ok(Text::new(String::from_str(alloc, from)?))
}

/// Returns a free block for each triple.
fn free_blocks(alloc: Global, from: &[(u32, u32, bool)]) -> Result<Vec<FreeBlock>, AllocError> {
    let mut free = Vec::new(alloc);
    for (at, order, is_isolated) in from {
        free.push(FreeBlock {
            at: *at,
            order: *order,
            is_isolated: *is_isolated,
        })?;
    }
    Ok(free)
}

/// Returns a kernel block for each pair.
fn kernel_blocks(alloc: Global, from: &[(u32, u32)]) -> Result<Vec<KernelBlock>, AllocError> {
    let mut kernel = Vec::new(alloc);
    for (at, order) in from {
        kernel.push(KernelBlock {
            at: *at,
            order: *order,
        })?;
    }
    Ok(kernel)
}

/// Returns a memory block without orders in its cells.
fn block(alloc: Global, from: &Block) -> Result<BlockPicture, AllocError> {
    let (head, cells, free, kernel, kinds) = from;
    let head = text(alloc, head)?;
    let cells = text(alloc, cells)?;
    let kinds = text(alloc, kinds)?;
    let free = free_blocks(alloc, free)?;
    let kernel = kernel_blocks(alloc, kernel)?;
    let ordered = Text::new(String::new(alloc));
    Ok(BlockPicture::new(head, cells, ordered, free, kernel, kinds))
}

/// Returns the memory blocks.
fn blocks(alloc: Global, from: &[Block]) -> Result<Vec<BlockPicture>, AllocError> {
    let mut blocks = Vec::new(alloc);
    for each in from {
        blocks.push(block(alloc, each)?)?;
    }
    Ok(blocks)
}

/// Returns the move of a page between two frames, if there is one.
fn page(frames: Option<(u32, u32)>) -> Option<Move> {
    let (from, to) = frames?;
    Some(Move {
        from: Frame(from),
        to: Frame(to),
    })
}

/// Returns a row.
fn row(alloc: Global, from: &Row) -> Result<RowPicture, AllocError> {
    let (asked, answer, frames, from) = from;
    let asked = text(alloc, asked)?;
    let answer = text(alloc, answer)?;
    let blocks = blocks(alloc, from)?;
    Ok(RowPicture::new(asked, answer, page(*frames), blocks))
}

/// Returns the rows.
fn rows(alloc: Global, from: &[Row]) -> Result<Vec<RowPicture>, AllocError> {
    let mut rows = Vec::new(alloc);
    for each in from {
        rows.push(row(alloc, each)?)?;
    }
    Ok(rows)
}

/// Returns the names of owners.
fn names(alloc: Global, from: &[Words]) -> Result<IndexSet<Text>, AllocError> {
    let mut names = IndexSet::new(alloc);
    for name in from {
        names.insert(text(alloc, name)?)?;
    }
    Ok(names)
}

/// Draws rows with these owners' names, this width of a cell, and a scale in per cent.
fn picture(
    alloc: Global,
    from: &[Words],
    cell: u8,
    scale: u16,
    drawn: &[Row],
) -> Result<String, AllocError> {
    let names = names(alloc, from)?;
    picture_of(alloc, &names, cell, scale, rows(alloc, drawn)?)
}

/// Returns whether the picture of `ROWS` is `PICTURE`.
fn is_drawn(alloc: Global) -> Result<bool, AllocError> {
    let drawn = picture(alloc, &["db"], 8, 100, ROWS)?;
    Ok(drawn.as_str() == PICTURE)
}

/// Returns whether the picture of rows has a part.
fn has_part(
    alloc: Global,
    owners: &[Words],
    cell: u8,
    scale: u16,
    drawn: &[Row],
    part: &str,
) -> Result<bool, AllocError> {
    let drawn = picture(alloc, owners, cell, scale, drawn)?;
    Ok(drawn.as_str().contains(part))
}

fn all_characters_are_explained(alloc: Global) -> Result<bool, AllocError> {
    has_part(alloc, NAMES, 1, 100, MARKED, LEGEND)
}

fn narrow_cells_have_no_letters(alloc: Global) -> Result<bool, AllocError> {
    has_part(alloc, &["db"], 3, 100, NARROW, NARROW_ROW)
}

fn an_owner_without_a_name_is_explained(alloc: Global) -> Result<bool, AllocError> {
    has_part(alloc, &["db"], 3, 100, NARROW, UNNAMED)
}

fn wide_rows_are_folded(alloc: Global) -> Result<bool, AllocError> {
    has_part(alloc, &[], 255, 100, FOLDED, FOLDED_ROWS)
}

fn no_rows_have_a_size(alloc: Global) -> Result<bool, AllocError> {
    has_part(alloc, &[], 8, 100, &[], EMPTY)
}

fn kernel_blocks_are_outlined(alloc: Global) -> Result<bool, AllocError> {
    has_part(alloc, &[], 8, 100, KERNEL, KERNEL_ROWS)
}

fn frames_are_numbered(alloc: Global) -> Result<bool, AllocError> {
    has_part(alloc, &[], 8, 100, KERNEL, KERNEL_NUMBERS)
}

fn is_scaled(alloc: Global, scale: u16, size: &str) -> Result<bool, AllocError> {
    has_part(alloc, &["db"], 8, scale, ROWS, size)
}

#[test]
fn rows_are_drawn(rt: HostRuntime) -> Result<(), Fail> {
    assert!(rt; is_drawn(rt.alloc())?);
    Ok(())
}

#[test]
fn legends_are_drawn(rt: HostRuntime) -> Result<(), Fail> {
    assert!(rt; all_characters_are_explained(rt.alloc())?);
    assert!(rt; an_owner_without_a_name_is_explained(rt.alloc())?);
    Ok(())
}

#[test]
fn cells_of_each_width_are_drawn(rt: HostRuntime) -> Result<(), Fail> {
    assert!(rt; narrow_cells_have_no_letters(rt.alloc())?);
    assert!(rt; wide_rows_are_folded(rt.alloc())?);
    assert!(rt; no_rows_have_a_size(rt.alloc())?);
    Ok(())
}

#[test]
fn kernel_blocks_and_numbers_are_drawn(rt: HostRuntime) -> Result<(), Fail> {
    assert!(rt; kernel_blocks_are_outlined(rt.alloc())?);
    assert!(rt; frames_are_numbered(rt.alloc())?);
    Ok(())
}

#[test]
fn pictures_are_scaled(rt: HostRuntime) -> Result<(), Fail> {
    assert!(rt; is_scaled(rt.alloc(), 25, QUARTER)?);
    assert!(rt; is_scaled(rt.alloc(), 33, THIRD)?);
    assert!(rt; is_scaled(rt.alloc(), 400, FOURFOLD)?);
    Ok(())
}

/// A scenario with a word that the control file does not accept.
const PLAIN: &[u8] = br#"{"layout":{"order":2,"pageblocks":1,"blocks":3,"cpus":1,"batch":2,"high":2,
"owners":1,"pages":4,"words":1,"history":9,"boot":["normal","movable","offline"]},
"calls":["0 echo word memory1/state"]}"#;

/// The scenario of `PLAIN`, but the word looks like memory blocks in brackets, with a tab between
/// them.
const BRACKETS: &[u8] =
    br#"{"layout":{"order":2,"pageblocks":1,"blocks":3,"cpus":1,"batch":2,"high":2,
"owners":1,"pages":4,"words":1,"history":9,"boot":["normal","movable","offline"]},
"calls":["0 echo 0:N[....]][\t1:M[aa] memory1/state"]}"#;

/// The scenario of `PLAIN`, but the word has control characters that a terminal obeys, a line end,
/// and brackets.
const HOSTILE: &[u8] =
    br#"{"layout":{"order":2,"pageblocks":1,"blocks":3,"cpus":1,"batch":2,"high":2,
"owners":1,"pages":4,"words":1,"history":9,"boot":["normal","movable","offline"]},
"calls":["0 echo \u001b[31m\n\u009b]0:N[....] memory1/state"]}"#;

/// All lines, in rows of any width.
const ALL: View = View {
    from: 1,
    to: u64::MAX,
    every: 1,
    width: u64::MAX,
    orders: false,
};

/// Draws the trace of a scenario.
fn scenario_picture(alloc: Global, scenario: &[u8]) -> Option<String> {
    let scenario = Scenario::read(alloc, scenario).ok()?;
    let rows = trace_rows(alloc, &scenario, ALL).ok()?;
    picture_of(alloc, &IndexSet::new(alloc), 8, 100, rows).ok()
}

/// Returns the number of rectangles in the picture of a scenario.
fn boxes(alloc: Global, scenario: &[u8]) -> Option<usize> {
    let picture = scenario_picture(alloc, scenario)?;
    Some(picture.as_str().matches("<rect").count())
}

#[test]
fn brackets_are_no_cells(rt: HostRuntime) -> Result<(), Fail> {
    let plain = boxes(rt.alloc(), PLAIN);
    assert!(rt; plain.is_some());
    assert!(rt; boxes(rt.alloc(), BRACKETS) == plain);
    Ok(())
}

/// Returns whether a text has no control character but line ends.
fn is_harmless(text: &str) -> bool {
    text.chars().all(|c| c == '\n' || !c.is_control())
}

/// Returns whether the picture of a scenario has no control character but line ends.
fn is_drawn_harmless(alloc: Global, scenario: &[u8]) -> bool {
    match scenario_picture(alloc, scenario) {
        Some(picture) => is_harmless(picture.as_str()),
        None => false,
    }
}

#[test]
fn a_terminal_obeys_nothing(rt: HostRuntime) -> Result<(), Fail> {
    assert!(rt; is_drawn_harmless(rt.alloc(), HOSTILE));
    let plain = boxes(rt.alloc(), PLAIN);
    assert!(rt; boxes(rt.alloc(), HOSTILE) == plain);
    Ok(())
}
