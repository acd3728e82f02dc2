//! Boots the machine for every test that looks at one through a `Look`.
use hp_machine::Machine;
use hp_units::{Boot, Layout};
use layouts_for_tests::four_blocks;
use std::alloc::{AllocError, Global};

/// What a test checks on a machine.
pub(crate) trait Look {
    /// Makes the test's calls on a machine that was just booted. Returns whether the machine is
    /// then as the test expects, and `false` if memory runs out.
    fn finds(&self, alloc: Global, machine: &mut Machine) -> bool;
}

/// Boots a machine of a layout, and returns whether it is as the test expects.
pub(crate) fn finds_at_boot<L: Look>(alloc: Global, layout: &Layout, look: &L) -> bool {
    match Machine::boot(alloc, layout) {
        Ok(booted) => {
            let mut machine = booted;
            look.finds(alloc, &mut machine)
        }
        Err(AllocError) => false,
    }
}

/// Boots a machine of four memory blocks, and returns whether it is as the test expects.
pub(crate) fn finds_in_four_blocks<L: Look>(alloc: Global, boot: &[Boot], look: &L) -> bool {
    match four_blocks(alloc, boot, 1000) {
        Ok(layout) => finds_at_boot(alloc, &layout, look),
        Err(_fault) => false,
    }
}
