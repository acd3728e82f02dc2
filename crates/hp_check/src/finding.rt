//! What may be wrong with a scenario.
ghost use Rattle.std.specs.Prelude.{◌≡◌};
ghost use Rattle.hp_check.specs.Findings.{is_fault, key_name};

use crate::name_typos::NameTypo;
use hp_requests::ControlFault;
use hp_scenario::Unfit;
use hp_units::{Serial, Text};

/// One thing that is wrong with a scenario, or that is likely to be. Texts of `calls` are numbered
/// from 1.
#[derive(Drop)]
pub enum Finding {
    /// The text is not JSON. The reader stopped at `line`, counted from 1, and at `column`, which
    /// may be 0.
    NotJson {
        hint: Hint,
        line: u64,
        column: u64,
    },
    /// A key or the kind of a value does not belong in a scenario.
    Shape(Shape),
    /// A part of the layout is out of its range.
    Layout(OutOfRange),
    /// A text of `calls` cannot be read as a line. `names` is what is wrong with its names for
    /// results, if they are the reason.
    BadCall {
        number: u64,
        text: Text,
        names: Option<NameTypo>,
    },
    /// A warning: an object has a key more than once, and the last one counts. Repeated keys of the
    /// layout are reported only if the scenario itself repeats none.
    Repeat {
        place: ScenarioObject,
        key: Key,
    },
    /// A warning: a line probably does not do what it is meant to do.
    Warning {
        number: u64,
        warning: Warning,
    },
}

impl Finding {
    /// Returns whether it is a fault, and not a warning.
    pub fn is_fault(&self) -> bool
        ensures { result ≡ is_fault self.now }
    {
        !matches!(self, Finding::Warning { .. } | Finding::Repeat { .. })
    }
}

/// The likely reason why a text is not JSON: the first of these that applies.
#[derive(Clone, Copy)]
pub enum Hint {
    /// It has nothing but white space.
    NoText,
    /// It begins with the byte order mark of UTF-8.
    ByteOrderMark,
    /// The reader stopped at a comma or a closing bracket. Before it is a comma, with at most white
    /// space in between.
    Comma,
    /// The reader stopped at this character: a control character, or one beyond ASCII.
    Unexpected(char),
    /// Its objects and lists are nested deeper than the reader allows.
    TooDeep,
    /// It has a comment, which JSON does not allow.
    Comment,
    /// None of the above.
    Nothing,
}

/// An object of a scenario.
#[derive(Clone, Copy)]
pub enum ScenarioObject {
    /// The scenario itself.
    Whole,
    /// The value of `layout`.
    Layout,
}

/// A key that a scenario has.
#[derive(Clone, Copy)]
pub enum Key {
    /// `layout`: the machine that the calls run on.
    Layout,
    /// `calls`: the lines.
    Calls,
    /// `order`: the greatest order of a free block.
    Order,
    /// `pageblocks`: how many a memory block has.
    Pageblocks,
    /// `blocks`: the number of memory blocks.
    Blocks,
    /// `cpus`: the number of processors.
    Cpus,
    /// `batch`: how many frames a processor's list takes or gives back at once.
    Batch,
    /// `high`: the most frames that a processor's list keeps; a longer list gives `batch` frames
    /// back.
    High,
    /// `owners`: the number of owners.
    Owners,
    /// `pages`: the number of pages of each owner.
    Pages,
    /// `words`: the number of 8-byte words in a frame.
    Words,
    /// `history`: the greatest number of records.
    History,
    /// `boot`: what each memory block is at boot.
    Boot,
}

impl Key {
    /// Returns the key as it is written.
    pub fn name(self) -> &'static str
        ensures { result.now ≡ key_name self }
    {
        match self {
            Key::Layout => "layout",
            Key::Calls => "calls",
            Key::Order => "order",
            Key::Pageblocks => "pageblocks",
            Key::Blocks => "blocks",
            Key::Cpus => "cpus",
            Key::Batch => "batch",
            Key::High => "high",
            Key::Owners => "owners",
            Key::Pages => "pages",
            Key::Words => "words",
            Key::History => "history",
            Key::Boot => "boot",
        }
    }
}

/// A key, or the kind of a value, that does not belong in a scenario.
#[derive(Drop)]
pub enum Shape {
    /// A value that is not an object.
    NotObject(ScenarioObject),
    /// An object with the wrong number of keys.
    KeyCount { place: ScenarioObject, count: u64 },
    /// A key that does not belong in the object.
    UnknownKey { place: ScenarioObject, key: Text },
    /// A key that the object lacks.
    MissingKey { place: ScenarioObject, key: Key },
    /// A value that is not an integer from 0 to 2^64-1.
    NotNumber(Key),
    /// A value that is not a list.
    NotList(Key),
    /// An entry of `boot` that is not a word for a block's state. Entries are numbered from 1.
    NotBoot { number: u64 },
    /// An entry of `calls` that is not a text. Entries are numbered from 1.
    NotText { number: u64 },
}

/// A part of a layout that is out of its range, with its value.
#[derive(Clone, Copy)]
pub enum OutOfRange {
    /// The order, above 10.
    Order(u64),
    /// Pageblocks of a memory block: not a power of two up to 64.
    Pageblocks(u64),
    /// Memory blocks: not 1 to 256.
    Blocks(u64),
    /// Frames in all, above 2^20, if the three above are in their ranges.
    Frames(u64),
    /// Processors: not 1 to 64.
    Cpus(u64),
    /// `batch`: not 1 to `high`.
    Batch { batch: u64, high: u64 },
    /// `high`, above 1024.
    High(u64),
    /// Owners: not 1 to 64.
    Owners(u64),
    /// Pages of an owner: not 1 to 65,536.
    Pages(u64),
    /// Words of a frame: not 1 to 512.
    Words(u64),
    /// Records of a history: not 1 to 16,777,216.
    History(u64),
    /// Words of `boot`: not as many as blocks.
    Boot { words: u64, blocks: u64 },
}

/// A kind of thing that a layout numbers from 0.
#[derive(Clone, Copy)]
pub enum Subject {
    /// Processors.
    Processor,
    /// Owners.
    Owner,
    /// Pages of an owner.
    Page,
    /// 8-byte words of a page.
    Word,
    /// Orders of free blocks, from 0 to the greatest.
    Order,
    /// Frames.
    Frame,
    /// Memory blocks.
    Block,
}

/// Why a line probably does not do what it is meant to do.
#[derive(Clone, Copy)]
pub enum Warning {
    /// `number` is past the layout, in which numbers of this kind are below `count`. The call is
    /// refused.
    Past {
        subject: Subject,
        number: u64,
        count: u64,
    },
    /// The number of an operation that no earlier line begins.
    NoBegin {
        op: Serial,
    },
    /// A plan of this many turns. With its begin, a round of drains and its commit, they do not fit
    /// into a history of this many records.
    Turns {
        turns: u32,
        history: u64,
    },
    /// The earlier lines since the last seal fill a history of this many records.
    Full {
        history: u64,
    },
    /// An `echo` or a `cat` with this character, which no word of a control file contains.
    Unexpected(char),
    /// An `echo` that fails with this fault in every state, because of its path or its word.
    Echo(ControlFault),
    /// A `cat` that has this fault in every state: there is no such control file, it can only be
    /// written, or its memory block is past the layout.
    Cat(ControlFault),
    /// A line after the setup that cannot be part of a script.
    NotForScript(Unfit),
}
