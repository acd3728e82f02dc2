//! The texts of the control files.
ghost use Rattle.std.specs.Prelude.{◌≡◌, IfOk, false, option_map, string_bytes};
ghost use Rattle.hp_requests.specs.Gives.{Gives, or_fault};
ghost use Rattle.hp_text.specs.ControlFiles as means;
ghost use Rattle.hp_units.specs.Arithmetic.{block_bytes};
ghost use Rattle.hp_units.specs.Texts.{auto_text};
ghost use Rattle.std.specs.Fmt.{digits};

use crate::zones::zones_text;
use hp_machine::Machine;
use hp_memory::Memory;
use hp_requests::{BlockFile, ControlFault, File, file_at};
use hp_units::{Block, Layout, Row, State, Zone};
use std::alloc::{AllocError, Global};

/// Returns the text of the control file at a path, relative to the directory of memory devices
/// (Linux guide, Memory Hot(Un)Plug). Each text ends with one newline.
///
/// `block_size_bytes`: the bytes of a memory block in hexadecimal. `buddyinfo`: see [`buddyinfo`].
/// `auto_online_blocks`: what a block becomes when it is added. `memoryN/state`: `online`,
/// `offline` or `going-offline`. `memoryN/online`: `0` for an offline block, otherwise `1`.
/// `memoryN/valid_zones`: `Normal Movable` for an offline block, otherwise the block's zone.
/// `memoryN/removable`: `1`.
///
/// Errors: `NoFile` for another path, and for a block that is not in the layout or is absent;
/// `WriteOnly` for `probe`; `OutOfMemory`, which may come in place of any other result.
pub fn read_file(alloc: Global, machine: &Machine, path: &str) -> Result<Vec<u8>, ControlFault>
    ensures { Gives (λ text. text.items) result
        (means.file_text machine.now.layout machine.now.state path.now) }
{
    match read_text(alloc, machine, path) {
        Ok(text) => Ok(text.into_bytes()),
        Err(fault) => Err(fault),
    }
}

/// Reads a control file like [`read_file`], but returns a string. Fails in the same cases.
pub fn read_text(alloc: Global, machine: &Machine, path: &str) -> Result<String, ControlFault>
    ensures { Gives (λ text. string_bytes text) result
        (means.file_text machine.now.layout machine.now.state path.now) }
{
    text_in(alloc, machine.memory(), path)
}

/// Reads a control file like [`read_text`], from a memory that need not be a machine's. Fails in
/// the same cases.
#[tactic(auto, unfolding(crate::specs::ControlFiles::file_text))]
pub fn text_in(alloc: Global, memory: &Memory, path: &str) -> Result<String, ControlFault>
    ensures { Gives (λ text. string_bytes text) result
        (means.file_text memory.now.layout memory.now.state path.now) }
{
    match file_at(path) {
        Some(file) => text_of(alloc, memory, file),
        None => Err(ControlFault::NoFile),
    }
}

/// Returns the text of a file.
#[tactic(auto, unfolding(crate::specs::ControlFiles::text_of))]
fn text_of(alloc: Global, memory: &Memory, file: File) -> Result<String, ControlFault>
    ensures { Gives (λ text. string_bytes text) result
        (means.text_of memory.now.layout memory.now.state file) }
{
    match file {
        File::BlockSizeBytes => Ok(block_size_text(alloc, memory.layout())?),
        File::Buddyinfo => Ok(zones_text(alloc, memory)?),
        File::Probe => Err(ControlFault::WriteOnly),
        File::AutoOnlineBlocks => Ok(auto_line(alloc, memory)?),
        File::OfBlock { block, file } => block_text(alloc, memory, block, file),
    }
}

/// Returns the bytes of a memory block in hexadecimal.
fn block_size_text(alloc: Global, layout: &Layout) -> Result<String, AllocError>
    ensures { IfOk result
        (λ text. string_bytes text ≡ means.line (digits 16 false (block_bytes layout.now))) }
{
    let bytes = layout.block_bytes();
    format!(in alloc; "{bytes:x}\n")
}

/// Returns what a block becomes when it is added.
fn auto_line(alloc: Global, memory: &Memory) -> Result<String, AllocError>
    ensures { IfOk result (λ text. string_bytes text ≡ means.line (auto_text memory.now.state.blocks.auto)) }
{
    let auto = memory.auto();
    format!(in alloc; "{auto}\n")
}

/// Returns the text of a file of a memory block.
fn block_text(
    alloc: Global,
    memory: &Memory,
    block: Block,
    file: BlockFile,
) -> Result<String, ControlFault>
    ensures { Gives (λ text. string_bytes text) result (or_fault ControlFault.NoFile
        (option_map means.line (means.word_at memory.now.state.blocks.rows block file))) }
{
    match word_at(memory, block, file) {
        Some(word) => Ok(line(alloc, word)?),
        None => Err(ControlFault::NoFile),
    }
}

/// Returns a text with its newline.
fn line(alloc: Global, word: &str) -> Result<String, AllocError>
    ensures { IfOk result (λ text. string_bytes text ≡ means.line word.now) }
{
    format!(in alloc; "{word}\n")
}

/// Returns what a file of a memory block shows, if the block is there.
fn word_at(memory: &Memory, block: Block, file: BlockFile) -> Option<&'static str>
    ensures { option_map (λ word. word.now) result ≡ means.word_at memory.now.state.blocks.rows block file }
{
    match memory.row(block) {
        Some(row) => block_word(file, row),
        None => None,
    }
}

/// Returns what a file of a memory block shows; an absent block has no files.
fn block_word(file: BlockFile, row: Row) -> Option<&'static str>
    ensures { option_map (λ word. word.now) result ≡ means.block_word file row.state row.zone }
{
    match (file, row.state) {
        (_, State::Absent) => None,
        (BlockFile::State, State::Online) => Some("online"),
        (BlockFile::State, State::Going) => Some("going-offline"),
        (BlockFile::State, State::Offline) => Some("offline"),
        (BlockFile::Online, State::Online | State::Going) => Some("1"),
        (BlockFile::Online, State::Offline) => Some("0"),
        (BlockFile::ValidZones, _) => Some(zones_word(row.zone)),
        (BlockFile::Removable, _) => Some("1"),
    }
}

/// Returns the word of `valid_zones`: the block's zone, or both if it has none.
fn zones_word(zone: Option<Zone>) -> &'static str
    ensures { result.now ≡ means.zones_word zone }
{
    match zone {
        Some(Zone::Normal) => "Normal",
        Some(Zone::Movable) => "Movable",
        None => "Normal Movable",
    }
}
