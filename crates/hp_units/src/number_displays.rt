//! `Display` for numbers of things, in decimal.
ghost use Rattle.std.specs.Prelude.{Some};
ghost use Rattle.std.specs.Fmt.{decimal};

use crate::numbers::{Block, Cpu, Frame, Order, Page, Pageblock, Serial};
use std::fmt;

impl fmt::Display for Block {
    ghost use Rattle.std.specs.Fmt.{decimal};

    ghost output = { λ n. Some (decimal n) };

    fn fmt<W: fmt::Write>(&self, f: &mut fmt::Formatter<W>) -> fmt::Result {
        let block = self.0;
        write!(f, "{block}")
    }
}

impl fmt::Display for Cpu {
    ghost use Rattle.std.specs.Fmt.{decimal};

    ghost output = { λ n. Some (decimal n) };

    fn fmt<W: fmt::Write>(&self, f: &mut fmt::Formatter<W>) -> fmt::Result {
        let cpu = self.0;
        write!(f, "{cpu}")
    }
}

impl fmt::Display for Frame {
    ghost use Rattle.std.specs.Fmt.{decimal};

    ghost output = { λ n. Some (decimal n) };

    fn fmt<W: fmt::Write>(&self, f: &mut fmt::Formatter<W>) -> fmt::Result {
        let frame = self.0;
        write!(f, "{frame}")
    }
}

impl fmt::Display for Order {
    ghost use Rattle.std.specs.Fmt.{decimal};

    ghost output = { λ n. Some (decimal n) };

    fn fmt<W: fmt::Write>(&self, f: &mut fmt::Formatter<W>) -> fmt::Result {
        let order = self.0;
        write!(f, "{order}")
    }
}

impl fmt::Display for Page {
    ghost use Rattle.std.specs.Fmt.{decimal};

    ghost output = { λ n. Some (decimal n) };

    fn fmt<W: fmt::Write>(&self, f: &mut fmt::Formatter<W>) -> fmt::Result {
        let page = self.0;
        write!(f, "{page}")
    }
}

impl fmt::Display for Pageblock {
    ghost use Rattle.std.specs.Fmt.{decimal};

    ghost output = { λ n. Some (decimal n) };

    fn fmt<W: fmt::Write>(&self, f: &mut fmt::Formatter<W>) -> fmt::Result {
        let pageblock = self.0;
        write!(f, "{pageblock}")
    }
}

impl fmt::Display for Serial {
    ghost use Rattle.std.specs.Fmt.{decimal};

    ghost output = { λ n. Some (decimal n) };

    fn fmt<W: fmt::Write>(&self, f: &mut fmt::Formatter<W>) -> fmt::Result {
        let serial = self.0;
        write!(f, "{serial}")
    }
}
