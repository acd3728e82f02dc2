//! What each control file shows, and paths and bytes that no line of a scenario can contain. Those
//! that a line can contain are refused in runs/paths.txt.
use crate::looks::{Look, finds_in_four_blocks};
use hp_machine::Machine;
use hp_requests::{ControlFault, parse_write};
use hp_text::{buddyinfo, read_file, read_text};
use layouts_for_tests::LAST_ABSENT;
use std::alloc::{AllocError, Global};

/// What a test checks: the files at boot, or paths and bytes that ask for nothing.
#[derive(Clone, Copy)]
enum Case {
    Booted,
    Hostile,
}

impl Look for Case {
    fn finds(&self, alloc: Global, machine: &mut Machine) -> bool {
        match self {
            Case::Booted => are_shown(alloc, machine, BOOTED) && has_length(alloc, machine, 86),
            Case::Hostile => {
                are_refused(alloc, machine, NO_FILES, ControlFault::NoFile)
                    && are_refused(alloc, machine, READ_ONLY, ControlFault::ReadOnly)
                    && are_refused(alloc, machine, BAD_TEXTS, ControlFault::BadText)
            }
        }
    }
}

/// Returns whether a file reads as the text.
fn has_text(alloc: Global, machine: &Machine, path: &str, wanted: &str) -> bool {
    match read_text(alloc, machine, path) {
        Ok(text) => text.as_str() == wanted,
        Err(_fault) => false,
    }
}

/// Returns whether a file reads as the bytes of the text.
fn has_bytes(alloc: Global, machine: &Machine, path: &str, wanted: &str) -> bool {
    match read_file(alloc, machine, path) {
        Ok(bytes) => bytes.as_slice() == wanted.as_bytes(),
        Err(_fault) => false,
    }
}

/// Returns whether each file of a table reads as the text beside it.
fn are_shown(alloc: Global, machine: &Machine, table: &[(&str, &str)]) -> bool {
    for (path, wanted) in table {
        if !has_bytes(alloc, machine, path, wanted) || !has_text(alloc, machine, path, wanted) {
            return false;
        }
    }
    true
}

/// What the files show if the last block is absent.
const BOOTED: &[(&str, &str)] = &[
    ("block_size_bytes", "40\n"),
    ("auto_online_blocks", "offline\n"),
    ("memory1/state", "online\n"),
    ("memory1/online", "1\n"),
    ("memory2/valid_zones", "Movable\n"),
    ("memory0/removable", "1\n"),
    (
        "buddyinfo",
        "Node 0, zone   Normal      0      0      2\nNode 0, zone  Movable      0      0      1\n",
    ),
];

/// Returns whether `buddyinfo` has this many bytes.
fn has_length(alloc: Global, machine: &Machine, bytes: usize) -> bool {
    match buddyinfo(alloc, machine) {
        Ok(text) => text.len() == bytes,
        Err(AllocError) => false,
    }
}

#[test]
fn files_are_read(rt: HostRuntime) {
    assert!(rt; finds_in_four_blocks(rt.alloc(), LAST_ABSENT, &Case::Booted));
}

/// Paths that name no file, and bytes written to them.
const NO_FILES: &[(&str, &[u8])] = &[
    ("", b"online"),
    ("memory 3/state", b"online"),
    ("memory3 /state", b"online"),
    ("memory3/state ", b"online"),
    ("probe ", b"0x40"),
];

/// Files that are only read, and bytes written to them.
const READ_ONLY: &[(&str, &[u8])] = &[("buddyinfo", b""), ("memory2/removable", b"\xff")];

/// Files, and bytes written to them that ask for nothing.
const BAD_TEXTS: &[(&str, &[u8])] = &[
    ("memory3/state", b""),
    ("memory3/state", b"\n"),
    ("memory3/state", b"online "),
    ("memory3/state", b" online"),
    ("memory3/state", b"online\xff"),
    ("memory3/state", b"\xff"),
    ("memory3/state", b"\xc3\x28"),
    ("memory3/online", b""),
    ("memory3/online", b"1 "),
    ("auto_online_blocks", b""),
    ("probe", b""),
    ("probe", b"0x12 "),
    ("probe", b"0x\xff"),
];

/// Returns whether bytes written to a path are refused with this fault. If the fault is `NoFile`, a
/// read of the path must be refused with it too.
fn is_refused(
    alloc: Global,
    machine: &Machine,
    path: &str,
    bytes: &[u8],
    fault: ControlFault,
) -> bool {
    if parse_write(alloc, path, bytes).err() != Some(fault) {
        return false;
    }
    let is_file = fault != ControlFault::NoFile;
    is_file || read_text(alloc, machine, path).err() == Some(fault)
}

/// Returns whether each row of a table is refused with this fault.
fn are_refused(
    alloc: Global,
    machine: &Machine,
    table: &[(&str, &[u8])],
    fault: ControlFault,
) -> bool {
    for (path, bytes) in table {
        if !is_refused(alloc, machine, path, bytes, fault) {
            return false;
        }
    }
    true
}

#[test]
fn hostile_paths_and_texts_are_refused(rt: HostRuntime) {
    assert!(rt; finds_in_four_blocks(rt.alloc(), LAST_ABSENT, &Case::Hostile));
}
