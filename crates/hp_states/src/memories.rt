//! The encoding of a memory's state, part by part.
ghost use Rattle.std.specs.Prelude.{◌≡◌, ◌+◌, ◌*◌, ◌/◌, ◌^◌, ◌<◌, ◌≤◌, ◌∷◌, ◌++◌, IfOk, OnOk, Some, length};
ghost use Rattle.std.specs.List.{flat_map, range_with_len};
ghost use Rattle.hp_buddy.specs.LinkedLists.{list_at};
ghost use Rattle.hp_units.specs.Placement.{IsShaped};
ghost use Rattle.hp_states.specs.Codes.{state_code};
ghost use Rattle.hp_laws.specs.Numberings.{number_of};
ghost use Rattle.hp_laws.specs.Renumbered.{renumbered, renumbered_claim, renumbered_row};
ghost use Rattle.hp_states.specs.Parts.{auto_number, claim_code, claim_number, gapped_code, IsListPut, kernel_code, kind_at, kind_number, kinds_byte, kinds_code, lists_code, owner_code, page_code_at, row_code, wish_number};

use crate::code::Code;
use hp_buddy::{Links, ListNumber};
use hp_laws::place_of;
use hp_memory::Memory;
use hp_pages::KernelBlocks;
use hp_units::{Auto, Block, Claim, Kind, Mobility, Owner, Page, Row, Serial, Wish};
use std::alloc::AllocError;

/// Appends the code of the memory's state, in which operations have the numbers of `number_of`.
pub(crate) fn put_memory(
    code: &mut Code,
    memory: &Memory,
    fixed: Serial,
    latest: &[Serial],
) -> Result<(), AllocError>
    ensures { OnOk result (code.new ≡ code.old ++ state_code memory.now.layout
        (renumbered (number_of fixed latest.now) memory.now.state)) }
{
    memory.is_placed();
    put_lists(code, memory.buddy().links())?;
    put_kinds(code, memory.buddy().kinds())?;
    put_lists(code, memory.cpus().links())?;
    put_pages(code, memory)?;
    put_kernel(code, memory.kernel(), memory.layout().frames())?;
    put_rows(code, memory, fixed, latest)?;
    code.byte(auto_number(memory.auto()))?;
    Ok(())
}

/// Appends all lists, and leaves out the empty ones.
fn put_lists(code: &mut Code, links: &Links) -> Result<(), AllocError>
    requires { length links.now.lists ≤ 2 ^ 20 }
    ensures { OnOk result (code.new ≡ code.old ++ lists_code 0 links.now.lists) }
{
    let mut gap = 0u64;
    for number in 0..links.count() {
        gap = put_list(code, links, ListNumber(number), gap)?;
    }
    code.number(16 * gap)
}

/// Appends one list: its length, then its frames from the front. Appends nothing if it is empty.
/// Returns how many lists are left out since the last one that is not empty; `gap` is how many were
/// before.
#[inline(always)]
fn put_list(code: &mut Code, links: &Links, list: ListNumber, gap: u64) -> Result<u64, AllocError>
    requires list { list < length links.now.lists }
    requires gap { gap ≤ 2 ^ 20 }
    ensures gap { IfOk result (λ next. next ≤ gap + 1) }
    ensures code { IfOk result (λ next. IsListPut code.old code.new gap next (list_at links.now list)) }
{
    links.are_apart();
    let count = links.len(list);
    if count == 0 {
        return Ok(gap + 1);
    }
    put_gapped(code, gap, count)?;
    let mut ahead = links.front(list);
    for _number in 0..count {
        let frame = ahead.unwrap();
        code.number(u64::from(frame.0))?;
        ahead = links.after(frame);
    }
    Ok(0)
}

/// Appends the kinds of all pageblocks, four to a byte.
fn put_kinds(code: &mut Code, kinds: &[Kind]) -> Result<(), AllocError>
    requires { length kinds.now < 2 ^ 32 }
    ensures { OnOk result (code.new ≡ code.old
        ++ flat_map (kinds_code kinds.now) (range_with_len 0 ((length kinds.now + 3) / 4))) }
{
    for four in 0..(kinds.len() + 3) / 4 {
        code.byte(kinds_byte(kinds, four))?;
    }
    Ok(())
}

/// Returns the kinds of four pageblocks in one byte.
fn kinds_byte(kinds: &[Kind], four: usize) -> u8
    requires { four < 2 ^ 32 }
    ensures { result ≡ kinds_byte kinds.now four }
{
    let first = 4 * four;
    kind_at(kinds, first)
        + 4 * kind_at(kinds, first + 1)
        + 16 * kind_at(kinds, first + 2)
        + 64 * kind_at(kinds, first + 3)
}

/// Returns the number for a pageblock's kind; past the last pageblock, that of a plain one.
fn kind_at(kinds: &[Kind], pageblock: usize) -> u8
    ensures is { result ≡ kind_at kinds.now pageblock }
    ensures small { result < 4 }
{
    match kinds.get(pageblock) {
        Some(kind) => kind_number(*kind),
        None => kind_number(Kind::plain()),
    }
}

/// Returns the number for a kind.
fn kind_number(kind: Kind) -> u8
    ensures is { result ≡ kind_number kind.mobility kind.isolated }
    ensures small { result < 4 }
{
    match (kind.mobility, kind.isolated) {
        (Mobility::Unmovable, false) => 0,
        (Mobility::Movable, false) => 1,
        (Mobility::Unmovable, true) => 2,
        (Mobility::Movable, true) => 3,
    }
}

/// Appends all pages of all owners.
fn put_pages(code: &mut Code, memory: &Memory) -> Result<(), AllocError>
    ensures { OnOk result (code.new ≡ code.old
        ++ flat_map (owner_code memory.now.layout memory.now.state.pages)
        (range_with_len 0 memory.now.layout.owners)) }
{
    for number in 0..memory.layout().owners() {
        put_owner(code, memory, Owner(number))?;
    }
    Ok(())
}

/// Appends all pages of one owner.
fn put_owner(code: &mut Code, memory: &Memory, owner: Owner) -> Result<(), AllocError>
    requires { owner < memory.now.layout.owners }
    ensures { OnOk result
        (code.new ≡ code.old ++ owner_code memory.now.layout memory.now.state.pages owner) }
{
    for number in 0..memory.layout().pages() {
        put_page(code, memory, owner, Page(number))?;
    }
    Ok(())
}

/// Appends one page: its frame plus two and then its words, or 0 if it is not mapped.
fn put_page(code: &mut Code, memory: &Memory, owner: Owner, page: Page) -> Result<(), AllocError>
    requires owner { owner < memory.now.layout.owners }
    requires page { page < memory.now.layout.pages }
    ensures { OnOk result (code.new ≡ code.old
        ++ page_code_at memory.now.layout memory.now.state.pages owner page) }
{
    memory.is_placed();
    let pages = memory.pages();
    match pages.frame_at(owner, page) {
        None => code.number(0),
        Some(frame) => {
            code.number(u64::from(frame.0) + 2)?;
            code.numbers(pages.words_in(frame))
        }
    }
}

/// Appends the kernel blocks: for each, the number of frames before it at which none starts and its
/// order; at the end, the number of such frames after the last block.
fn put_kernel(code: &mut Code, kernel: &KernelBlocks, frames: u32) -> Result<(), AllocError>
    requires size { length kernel.now ≡ frames }
    requires small { frames ≤ 2 ^ 20 }
    ensures { OnOk result (code.new ≡ code.old ++ kernel_code 0 kernel.now) }
{
    let mut from = 0;
    while let Some(frame) = kernel.lowest(from, frames - from) {
        let order = kernel.order_at(frame).unwrap();
        put_gapped(code, u64::from(frame.0 - from), order.0)?;
        from = frame.0 + 1;
    }
    code.number(16 * u64::from(frames - from))
}

/// Appends a number, and how many items are left out before it. One number has both if this one is
/// below 14.
#[inline(always)]
fn put_gapped(code: &mut Code, gap: u64, number: u32) -> Result<(), AllocError>
    requires { gap ≤ 2 ^ 20 }
    ensures { OnOk result (code.new ≡ code.old ++ gapped_code gap number) }
{
    if number < 14 {
        return code.number(16 * gap + u64::from(number) + 1);
    }
    code.number(16 * gap + 15)?;
    code.number(u64::from(number))
}

/// Appends the row of each memory block.
fn put_rows(
    code: &mut Code,
    memory: &Memory,
    fixed: Serial,
    latest: &[Serial],
) -> Result<(), AllocError>
    requires { IsShaped memory.now.layout memory.now.state }
    ensures { OnOk result (code.new ≡ code.old ++ flat_map row_code
        (renumbered (number_of fixed latest.now) memory.now.state).blocks.rows) }
{
    for number in 0..memory.layout().blocks() {
        put_row(code, memory.blocks().row(Block(number)), fixed, latest)?;
    }
    Ok(())
}

/// Appends one row: its state, its zone and the number of its claim in one byte, and then what is
/// left of its claim.
fn put_row(code: &mut Code, row: Row, fixed: Serial, latest: &[Serial]) -> Result<(), AllocError>
    ensures { OnOk result
        (code.new ≡ code.old ++ row_code (renumbered_row (number_of fixed latest.now) row)) }
{
    let claim = row.claim;
    let number = row.state.number() + 4 * row.zone_number();
    match claim {
        None => code.byte(number),
        Some(claim) => put_claimed(code, number, claim, fixed, latest),
    }
}

/// Appends the byte of a row that is claimed, and then half of the number that `number_of` gives to
/// the claim's operation, rounded down. `row` is the number of the row without its claim.
fn put_claimed(
    code: &mut Code,
    row: u8,
    claim: Claim,
    fixed: Serial,
    latest: &[Serial],
) -> Result<(), AllocError>
    requires { row < 16 }
    ensures { OnOk result (code.new ≡ code.old
        ++ (row + 16 * claim_number (Some (renumbered_claim (number_of fixed latest.now) claim)))
        ∷ claim_code (Some (renumbered_claim (number_of fixed latest.now) claim))) }
{
    let wish = wish_number(claim.wish);
    match place_of(fixed, latest, claim.op) {
        Some(place) => {
            code.byte(row + 16 * (wish + 4))?;
            code.number(place as u64)
        }
        None => {
            code.byte(row + 16 * wish)?;
            code.number(claim.op.0)
        }
    }
}

/// Returns the number for a wish; 0 is left for "no claim".
fn wish_number(wish: Wish) -> u8
    ensures is { result ≡ wish_number wish }
    ensures small { result < 4 }
{
    match wish {
        Wish::Off => 1,
        Wish::Normal => 2,
        Wish::Movable => 3,
    }
}

/// Returns the byte for the policy that decides what an added block becomes.
fn auto_number(auto: Auto) -> u8
    ensures { result ≡ auto_number auto }
{
    match auto {
        Auto::Offline => 0,
        Auto::Online => 1,
        Auto::OnlineKernel => 2,
        Auto::OnlineMovable => 3,
    }
}
