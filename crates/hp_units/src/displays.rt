//! `Display` for layout faults, classes, pools, zones and the auto-online policy.
ghost use Rattle.std.specs.Prelude.{Some};

use crate::layouts::LayoutFault;
use crate::rows::{Auto, Class, Pool, Zone};
use std::fmt;

impl fmt::Display for LayoutFault {
    ghost use Rattle.hp_units.specs.Texts.{layout_fault_text};

    ghost output = { λ x. Some (layout_fault_text x) };

    fn fmt<W: fmt::Write>(&self, f: &mut fmt::Formatter<W>) -> fmt::Result {
        f.write_str(match self {
            LayoutFault::BadOrder => "BadOrder",
            LayoutFault::BadPageblocks => "BadPageblocks",
            LayoutFault::BadBlocks => "BadBlocks",
            LayoutFault::TooManyFrames => "TooManyFrames",
            LayoutFault::BadCpus => "BadCpus",
            LayoutFault::BadMarks => "BadMarks",
            LayoutFault::BadOwners => "BadOwners",
            LayoutFault::BadPages => "BadPages",
            LayoutFault::BadWords => "BadWords",
            LayoutFault::BadLimit => "BadLimit",
            LayoutFault::BadBoot => "BadBoot",
            LayoutFault::OutOfMemory => "OutOfMemory",
        })
    }
}

impl fmt::Display for Class {
    ghost use Rattle.hp_units.specs.Texts.{class_text};

    ghost output = { λ x. Some (class_text x) };

    fn fmt<W: fmt::Write>(&self, f: &mut fmt::Formatter<W>) -> fmt::Result {
        f.write_str(match self {
            Class::Nu => "NU",
            Class::Nm => "NM",
            Class::Mm => "MM",
            Class::IsoN => "IN",
            Class::IsoM => "IM",
        })
    }
}

impl fmt::Display for Pool {
    ghost use Rattle.hp_units.specs.Texts.{pool_text};

    ghost output = { λ x. Some (pool_text x) };

    fn fmt<W: fmt::Write>(&self, f: &mut fmt::Formatter<W>) -> fmt::Result {
        f.write_str(match self {
            Pool::Nu => "NU",
            Pool::Nm => "NM",
            Pool::Mm => "MM",
        })
    }
}

impl fmt::Display for Zone {
    ghost use Rattle.hp_units.specs.Texts.{zone_text};

    ghost output = { λ x. Some (zone_text x) };

    fn fmt<W: fmt::Write>(&self, f: &mut fmt::Formatter<W>) -> fmt::Result {
        f.write_str(match self {
            Zone::Normal => "normal",
            Zone::Movable => "movable",
        })
    }
}

impl fmt::Display for Auto {
    ghost use Rattle.hp_units.specs.Texts.{auto_text};

    ghost output = { λ x. Some (auto_text x) };

    fn fmt<W: fmt::Write>(&self, f: &mut fmt::Formatter<W>) -> fmt::Result {
        f.write_str(match self {
            Auto::Offline => "offline",
            Auto::Online => "online",
            Auto::OnlineKernel => "online_kernel",
            Auto::OnlineMovable => "online_movable",
        })
    }
}
