//! The names of the things that a finding mentions.
use crate::finding::{ScenarioObject, Subject};
use std::fmt;

impl fmt::Display for ScenarioObject {
    fn fmt<W: fmt::Write>(&self, f: &mut fmt::Formatter<W>) -> fmt::Result {
        f.write_str(match self {
            ScenarioObject::Whole => "scenario",
            ScenarioObject::Layout => "layout",
        })
    }
}

impl fmt::Display for Subject {
    fn fmt<W: fmt::Write>(&self, f: &mut fmt::Formatter<W>) -> fmt::Result {
        f.write_str(match self {
            Subject::Processor => "processor",
            Subject::Owner => "owner",
            Subject::Page => "page",
            Subject::Word => "word",
            Subject::Order => "order",
            Subject::Frame => "frame",
            Subject::Block => "block",
        })
    }
}
