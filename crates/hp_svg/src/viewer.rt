//! The text of the page around the lines of a trace, in its parts.
mod html;
mod machine;
mod panels;
mod style;
mod trace;
mod words;

pub(crate) use html::{BODY, END, HEAD, MIDDLE};
pub(crate) use machine::MACHINE;
pub(crate) use panels::PANELS;
pub(crate) use style::STYLE;
pub(crate) use trace::TRACE;
pub(crate) use words::WORDS;
