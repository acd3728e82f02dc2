//! What changed of the kernel's blocks and the owners' pages.
ghost use Rattle.std.specs.Prelude.{ℕ, ◌≡◌, ◌≢◌, IfOk, OnOk};
ghost use Rattle.hp_units.specs.Arithmetic.{frame_count};
ghost use Rattle.hp_trace_json.specs.Changes.{KernelTold, NoOwnersPages, OwnersPagesTold, PagesTold, SetsFrame, SetsOrder};
ghost use Rattle.hp_trace_json.specs.Told.{AddsIf};
ghost use Rattle.hp_trace_json.specs.Parts.{kernel_in, page_in};

use hp_plain::Image;
use hp_units::{Frame, Order, Owner, Page};
use std::alloc::{AllocError, Global};

/// A frame where a kernel's block began, ended or changed.
#[derive(Clone, Copy, Drop)]
pub struct KernelNow {
    /// The frame.
    pub frame: Frame,
    /// The order of the kernel's block that starts there now.
    pub order: Option<Order>,
}

/// An owner's page that was mapped, unmapped or moved.
#[derive(Clone, Copy, Drop)]
pub struct PageNow {
    /// The owner.
    pub owner: Owner,
    /// The page.
    pub page: Page,
    /// Its frame now.
    pub frame: Option<Frame>,
}

/// Returns the frames at which the kernel's blocks differ between the two states. Each comes with
/// the order of the kernel's block that starts there now.
pub(crate) fn kernel_told(
    alloc: Global,
    was: &Option<Image>,
    now: &Image,
) -> Result<Vec<KernelNow>, AllocError>
    ensures { IfOk result (λ told. KernelTold was.now now.now (frame_count now.now.layout) told.items) }
{
    let mut told = Vec::new(alloc);
    for number in 0..now.layout().frames() {
        let frame = Frame(number);
        tell_kernel(
            &mut told,
            frame,
            kernel_in(was, frame),
            now.kernel_at(frame),
        )?;
    }
    Ok(told)
}

/// Adds a frame if the order of the kernel's block that starts there changed.
fn tell_kernel(
    told: &mut Vec<KernelNow>,
    frame: Frame,
    was: Option<Order>,
    order: Option<Order>,
) -> Result<(), AllocError>
    ensures { OnOk result (AddsIf (λ x. x.frame ≡ frame) SetsOrder was order told.old.items told.new.items) }
{
    if was != order {
        told.push(KernelNow { frame, order })?;
    }
    Ok(())
}

/// Returns the order of the kernel's block that starts at a frame, if there is a state and such a
/// block.
fn kernel_in(state: &Option<Image>, frame: Frame) -> Option<Order>
    ensures { result ≡ kernel_in state.now frame }
{
    match state {
        Some(image) => image.kernel_at(frame),
        None => None,
    }
}

/// Returns the pages whose frames differ between the two states, with their frames now.
pub(crate) fn pages_told(
    alloc: Global,
    was: &Option<Image>,
    now: &Image,
) -> Result<Vec<PageNow>, AllocError>
    ensures { IfOk result (λ told. PagesTold was.now now.now now.now.layout.owners told.items) }
{
    let mut told = Vec::new(alloc);
    for number in 0..now.layout().owners() {
        let of_owner = owners_pages_told(alloc, was, now, Owner(number))?;
        told.extend_from_slice(of_owner.as_slice())?;
    }
    Ok(told)
}

/// Returns the pages of an owner whose frames differ between the two states, with their frames now.
fn owners_pages_told(
    alloc: Global,
    was: &Option<Image>,
    now: &Image,
    owner: Owner,
) -> Result<Vec<PageNow>, AllocError>
    ensures told { IfOk result (λ told.
        OwnersPagesTold was.now now.now owner now.now.layout.pages told.items) }
    ensures others { IfOk result (λ told.
        (other : ℕ) → other ≢ owner → NoOwnersPages other told.items) }
{
    let mut told = Vec::new(alloc);
    for number in 0..now.layout().pages() {
        let page = Page(number);
        let frame = now.frame_at(owner, page);
        tell_page(&mut told, owner, page, page_in(was, owner, page), frame)?;
    }
    Ok(told)
}

/// Adds a page if its frame changed.
fn tell_page(
    told: &mut Vec<PageNow>,
    owner: Owner,
    page: Page,
    was: Option<Frame>,
    frame: Option<Frame>,
) -> Result<(), AllocError>
    ensures { OnOk result (AddsIf (λ x. (x.owner ≡ owner) × (x.page ≡ page)) SetsFrame was frame
        told.old.items told.new.items) }
{
    if was != frame {
        told.push(PageNow { owner, page, frame })?;
    }
    Ok(())
}

/// Returns the frame of a page, if there is a state and the page is mapped.
fn page_in(state: &Option<Image>, owner: Owner, page: Page) -> Option<Frame>
    ensures { result ≡ page_in state.now owner page }
{
    match state {
        Some(image) => image.frame_at(owner, page),
        None => None,
    }
}
