//! The control files by their paths, relative to the directory of memory devices.
ghost use Rattle.std.specs.Prelude.{◌≡◌, option_map};
ghost use Rattle.hp_requests.specs.Files as means;

use crate::words::block_named;
use hp_units::Block;

/// A file of a memory block (Linux guide, Memory Hot(Un)Plug).
#[derive(Clone, Copy, PartialEq, Eq, Drop)]
pub enum BlockFile {
    /// `state`
    State,
    /// `online`
    Online,
    /// `valid_zones`
    ValidZones,
    /// `removable`
    Removable,
}

/// A control file (Linux guide, Memory Hot(Un)Plug; there `buddyinfo` is in another directory).
#[derive(Clone, Copy, PartialEq, Eq, Drop)]
pub enum File {
    /// `block_size_bytes`
    BlockSizeBytes,
    /// `buddyinfo`
    Buddyinfo,
    /// `probe`
    Probe,
    /// `auto_online_blocks`
    AutoOnlineBlocks,
    /// A file in a memory block's directory.
    OfBlock { block: Block, file: BlockFile },
}

/// Returns the control file at a path, relative to the directory of memory devices (Linux guide,
/// Memory Hot(Un)Plug). The paths are `block_size_bytes`, `buddyinfo`, `probe`,
/// `auto_online_blocks`, and `memoryN/` followed by `state`, `online`, `valid_zones` or
/// `removable`, with N in decimal and below 2^32. Returns `None` for any other path. No machine is
/// read: the block need not be in a layout.
#[tactic(auto, unfolding(crate::specs::Files::file_at))]
pub fn file_at(path: &str) -> Option<File>
    ensures { result ≡ means.file_at path.now }
{
    match path {
        "block_size_bytes" => Some(File::BlockSizeBytes),
        "buddyinfo" => Some(File::Buddyinfo),
        "probe" => Some(File::Probe),
        "auto_online_blocks" => Some(File::AutoOnlineBlocks),
        _ => {
            let (directory, name) = halves(path)?;
            file_of_block(directory, name)
        }
    }
}

/// Returns the texts before and after the first slash.
fn halves(path: &str) -> Option<(&str, &str)>
    ensures { option_map (λ p. (p.0.now, p.1.now)) result ≡ means.halves_of path.now }
{
    path.split_once('/')
}

/// Returns the file with this name in the directory of a memory block.
fn file_of_block(directory: &str, name: &str) -> Option<File>
    ensures { result ≡ means.file_of_block directory.now name.now }
{
    let block = block_named(directory)?;
    let file = block_file_named(name)?;
    Some(File::OfBlock { block, file })
}

/// Returns the file of a memory block with this name.
#[tactic(auto, unfolding(crate::specs::Files::block_file_named))]
fn block_file_named(name: &str) -> Option<BlockFile>
    ensures { result ≡ means.block_file_named name.now }
{
    match name {
        "state" => Some(BlockFile::State),
        "online" => Some(BlockFile::Online),
        "valid_zones" => Some(BlockFile::ValidZones),
        "removable" => Some(BlockFile::Removable),
        _ => None,
    }
}
