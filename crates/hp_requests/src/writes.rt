//! Parses what is written to a control file.
ghost use Rattle.std.specs.Prelude.{◌≡◌, IfOk};
ghost use Rattle.hp_requests.specs.Gives.{Gives};
ghost use Rattle.hp_requests.specs.Writes as means;

use crate::fault::ControlFault;
use crate::files::{BlockFile, File, file_at};
use crate::words::{address_from, without_newline};
use hp_units::{Auto, Block, Event, Item, Plan, Wish, Zone};
use std::alloc::{AllocError, Global};

/// The most migrations that a plan from a control file may try.
pub const CONTROL_TURNS: u32 = 1024;

/// A request made by writing to a control file.
#[derive(Drop)]
pub enum Request {
    /// One event.
    Event(Event),
    /// A plan to carry out.
    Plan(Plan),
}

/// Parses bytes written to the control file at `path` (Linux guide, Memory Hot(Un)Plug). Drops one
/// final newline; the rest must be one of the words below. No machine is read: a block that does
/// not exist is refused later.
///
/// `memoryN/state`: `online` and `online_kernel` for zone Normal, `online_movable` for zone
/// Movable, `offline`. `memoryN/online`: `1` for zone Normal, `0` for offline. `probe`: `0x` and 1
/// to 16 hexadecimal digits, a byte address. `auto_online_blocks`: `offline`, `online`,
/// `online_kernel` or `online_movable`.
///
/// Errors, in this order: `NoFile` if `path` is not that of a control file; `ReadOnly` if the file
/// is none of these; `BadText` if the text is none of its words; `OutOfMemory`, which may come in
/// place of any other result.
#[tactic(auto, unfolding(crate::specs::Writes::request_of))]
pub fn parse_write(alloc: Global, path: &str, bytes: &[u8]) -> Result<Request, ControlFault>
    ensures { Gives (λ request. request) result (means.request_of path.now bytes.now) }
{
    match file_at(path) {
        Some(file) => request_to(alloc, file, without_newline(bytes)),
        None => Err(ControlFault::NoFile),
    }
}

/// Parses a word that is written with a newline. Fails like `parse_write`.
fn parse_echo(alloc: Global, path: &str, word: &str) -> Result<Request, ControlFault>
    ensures { Gives (λ request. request) result (means.echo_request path.now word.now) }
{
    let mut line = String::from_str(alloc, word)?;
    line.push_str("\n")?;
    parse_write(alloc, path, line.as_bytes())
}

/// Returns what an `echo` of `word` to the control file at `path` asks for, or why
/// the file refuses it.
pub fn echo_answer(
    alloc: Global,
    path: &str,
    word: &str,
) -> Result<Result<Request, ControlFault>, AllocError>
    ensures { IfOk result (λ answer. answer ≡ means.echo_request path.now word.now) }
{
    match parse_echo(alloc, path, word) {
        Ok(request) => Ok(Ok(request)),
        Err(ControlFault::OutOfMemory) => Err(AllocError),
        Err(fault) => Ok(Err(fault)),
    }
}

/// Parses a text written to `file`.
#[tactic(auto, unfolding(crate::specs::Writes::request_to))]
fn request_to(alloc: Global, file: File, text: &[u8]) -> Result<Request, ControlFault>
    ensures { Gives (λ request. request) result (means.request_to file text.now) }
{
    match file {
        File::BlockSizeBytes | File::Buddyinfo => Err(ControlFault::ReadOnly),
        File::Probe => match address_from(text) {
            Some(address) => Ok(Request::Event(Event::Probe { address })),
            None => Err(ControlFault::BadText),
        },
        File::AutoOnlineBlocks => match auto_from(text) {
            Some(auto) => Ok(Request::Event(Event::SetAuto { auto })),
            None => Err(ControlFault::BadText),
        },
        File::OfBlock { block, file } => block_request(alloc, block, file, text),
    }
}

/// Parses a text written to a file of a memory block.
fn block_request(
    alloc: Global,
    block: Block,
    file: BlockFile,
    text: &[u8],
) -> Result<Request, ControlFault>
    ensures { Gives (λ request. request) result (means.block_request block file text.now) }
{
    match file {
        BlockFile::State => state_request(alloc, block, text),
        BlockFile::Online => online_request(alloc, block, text),
        BlockFile::ValidZones | BlockFile::Removable => Err(ControlFault::ReadOnly),
    }
}

/// Parses a text written to a block's `state`.
#[tactic(auto, unfolding(crate::specs::Writes::state_request))]
fn state_request(alloc: Global, block: Block, text: &[u8]) -> Result<Request, ControlFault>
    ensures { Gives (λ request. request) result (means.state_request block text.now) }
{
    if text == b"online".as_slice() || text == b"online_kernel".as_slice() {
        Ok(online(block, Zone::Normal))
    } else if text == b"online_movable".as_slice() {
        Ok(online(block, Zone::Movable))
    } else if text == b"offline".as_slice() {
        Ok(offline(alloc, block)?)
    } else {
        Err(ControlFault::BadText)
    }
}

/// Parses a text written to a block's `online`.
#[tactic(auto, unfolding(crate::specs::Writes::online_request))]
fn online_request(alloc: Global, block: Block, text: &[u8]) -> Result<Request, ControlFault>
    ensures { Gives (λ request. request) result (means.online_request block text.now) }
{
    if text == b"1".as_slice() {
        Ok(online(block, Zone::Normal))
    } else if text == b"0".as_slice() {
        Ok(offline(alloc, block)?)
    } else {
        Err(ControlFault::BadText)
    }
}

/// Returns the request to put a block online in `zone`.
fn online(block: Block, zone: Zone) -> Request
    ensures { result ≡ means.online block zone }
{
    Request::Event(Event::Online { block, zone })
}

/// Returns the request to take a block offline.
fn offline(alloc: Global, block: Block) -> Result<Request, AllocError>
    ensures { IfOk result (λ request. request ≡ means.offline block) }
{
    let item = Item {
        block,
        wish: Wish::Off,
    };
    let items = vec![in alloc; item]?;
    let plan = Plan::new(alloc, items)?;
    Ok(Request::Plan(plan))
}

/// Parses the word for what a block becomes when it is added.
#[tactic(auto, unfolding(crate::specs::Writes::auto_of))]
fn auto_from(text: &[u8]) -> Option<Auto>
    ensures { result ≡ means.auto_of text.now }
{
    if text == b"offline".as_slice() {
        Some(Auto::Offline)
    } else if text == b"online".as_slice() {
        Some(Auto::Online)
    } else if text == b"online_kernel".as_slice() {
        Some(Auto::OnlineKernel)
    } else if text == b"online_movable".as_slice() {
        Some(Auto::OnlineMovable)
    } else {
        None
    }
}
