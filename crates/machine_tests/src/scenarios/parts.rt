//! The readers of a layout's parts, and the test whether a text is a line.
use super::LAYOUT;
use hp_scenario::{boot_at, boots_at, is_line, only32, only64, parts_with, zone_from};
use hp_units::{Boot, Zone};
use serde_json::Value;
use std::alloc::{AllocError, Global};
use std::test::Fail;

/// Returns whether the parts of a layout are read as written.
fn are_parts_read(alloc: Global, layout: &Value) -> bool {
    let Ok(boot) = boots_at(alloc, layout, "boot") else {
        return false;
    };
    let is_boot = boot.len() == 4 && boot[2] == Boot::Movable;
    match parts_with(layout, &boot) {
        Some(parts) => is_boot
            && parts.batch == 2
            && parts.history == 1000
            && parts.boot.len() == 4,
        None => false,
    }
}

/// Returns whether the value at `boot` is read as expected.
fn is_boot_read(value: &Value, boot: Option<Boot>) -> bool {
    match value.get("boot") {
        Some(word) => boot_at(word) == boot,
        None => false,
    }
}

#[test]
fn parts_are_read(rt: HostRuntime) -> Result<(), Fail> {
    let layout = Value::from_str(rt.alloc(), LAYOUT)?;
    let one = Value::from_str(rt.alloc(), r#"{"boot":"absent"}"#)?;
    let is_word_read = is_boot_read(&one, Some(Boot::Absent)) && is_boot_read(&layout, None);
    assert!(rt; is_word_read && are_parts_read(rt.alloc(), &layout));
    Ok(())
}

/// Returns whether a line is accepted, and a text that cannot be read as a line is refused.
fn are_lines_told(alloc: Global) -> Result<bool, AllocError> {
    Ok(is_line(alloc, "0 map db 1")? && !is_line(alloc, "0 map DB 1")?)
}

#[test]
fn lines_are_told(rt: HostRuntime) -> Result<(), Fail> {
    assert!(rt; are_lines_told(rt.alloc())?);
    assert!(rt; only32(&["7"]) == Some(7) && only64(&["8"]) == Some(8));
    assert!(rt; zone_from("movable") == Some(Zone::Movable));
    Ok(())
}
