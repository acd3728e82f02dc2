//! A trace for a browser: its rows as one SVG picture, and the page that steps through its lines of
//! JSON.
//!
//! The crate defines the picture: where each text and each cell of a row is, its colour, and the
//! legend. It also has the page's text around the lines, which viewer/build.py writes from the
//! files of viewer/. It knows nothing of machines or scenarios.
//!
//! What picture and page look like is tested. It is proved that each row is in the list of rows to
//! draw or is in a round that repeats the round right above (specs/Shown). It is proved that the
//! runs of a picture cover each cell once, that no two characters share a colour, and that a page
//! has the lines as they are.
//!
//! Read pictures.rt first, then rows.rt and runs.rt. page.rt needs none of these.
#![tactic(auto)]

mod elements;
mod marks;
mod moves;
mod page;
mod pictures;
mod rows;
mod runs;
mod sheets;
mod shown;
mod viewer;

pub use marks::{FILLS, colours_differ};
pub use page::page_of;
pub use pictures::picture_of;
pub use runs::{Run, runs_of};
