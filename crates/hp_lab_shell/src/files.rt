//! Several files as one text.

use crate::messages::file_name;
use hp_search::LabProgramFault;
use hp_streams::{Counted, read_all};
use std::alloc::Global;
use std::fs;
use std::io::Read;

/// Why files were not read, and which one failed.
#[derive(Clone, Copy)]
pub(crate) struct Unread<'a> {
    /// The name of the file; `None` for standard input.
    pub name: Option<&'a str>,
    /// What failed.
    pub fault: LabProgramFault,
}

/// Returns the bytes of the files, one after another; `-` names standard input.
pub(crate) fn bytes_of<'a>(rt: &HostRuntime, names: &[&'a str]) -> Result<Vec<u8>, Unread<'a>> {
    let mut bytes = Vec::new(rt.alloc());
    for name in names {
        if let Err(fault) = push_file(rt, &mut bytes, name) {
            return Err(Unread {
                name: file_name(name),
                fault,
            });
        }
    }
    Ok(bytes)
}

/// Adds the bytes of a file.
fn push_file(rt: &HostRuntime, bytes: &mut Vec<u8>, name: &str) -> Result<(), LabProgramFault> {
    if name == "-" {
        return push_input(rt.alloc(), bytes, rt.stdin());
    }
    match fs::open(rt, name) {
        Ok(input) => push_input(rt.alloc(), bytes, input),
        Err(_) => Err(LabProgramFault::NotOpened),
    }
}

/// Adds the bytes of an input.
fn push_input<R: Read + Drop>(
    alloc: Global,
    bytes: &mut Vec<u8>,
    input: R,
) -> Result<(), LabProgramFault> {
    let mut reader = Counted::new(input);
    let more = read_all(alloc, &mut reader)?;
    bytes.extend_from_slice(&more)?;
    Ok(())
}
