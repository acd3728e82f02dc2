//! Laws of the definitions, over all histories. Some are about what an undo and a restoring Cancel
//! leave, and how each earlier state is reached. Others are about placement: each frame stays in
//! exactly one place, and much follows from that. The rest are about what the pages hold, which
//! frames are handed out, how operations proceed (also across seals), and when an offline is sure
//! to commit.
//!
//! The machine does not depend on the numbers of operations (`renumbering`): with other numbers, no
//! two of them the same, the same calls do the same. So a search need not tell two states apart
//! that differ only in when their operations began. specs/Renumbered defines states with other
//! numbers, and specs/Numberings the numbers that a search gives.
//!
//! Read `placement` and `laws` first.
#![tactic(auto)]

mod consequences;
mod handed;
mod laws;
mod numberings;
mod offline;
mod operations;
mod placement;
mod renumbering;
mod seals;

pub use consequences::{
    cached_frames_lie_in_zone, commits_need_free_frames, frames_in_use_have_zone, lists_are_short,
};
pub use handed::handed_frames_are_plugged;
pub use laws::{earlier_states, restored_state, undone_state};
pub use numberings::{number_of, numbers_differ, place_of};
pub use offline::{operations_are_numbered, undisturbed_offline_commits};
pub use operations::{cancels_give_rows_back, commits_grant_wishes, operations_hold_their_rows};
pub use placement::{
    boot_is_well_placed, contents_follow_net, free_frames_are_not_in_use, histories_keep_placement,
    migrations_move_no_word, steps_keep_placement, well_placed_states_fit_their_layout,
};
pub use renumbering::steps_are_renumbered;
pub use seals::{
    cancels_give_back_across_seals, commits_grant_across_seals, operations_hold_across_seals,
};
