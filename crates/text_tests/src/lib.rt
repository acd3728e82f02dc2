//! Tests of texts: each call as the line that makes it (hp_text), rows as pictures (hp_svg), and a
//! live session (hp_live): its texts are those of `hotplug serial`, and its objects of JSON.
//!
//! `picture_parts` has the parts of pictures that `pictures` looks for. Run the tests by `rt test`
//! in this folder.
#![tactic(auto)]

#[cfg(test)]
mod calls;
#[cfg(test)]
mod live_objects;
#[cfg(test)]
mod live_sessions;
#[cfg(test)]
mod picture_parts;
#[cfg(test)]
mod pictures;
#[cfg(test)]
mod rounds;
