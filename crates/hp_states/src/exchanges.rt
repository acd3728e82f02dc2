//! Numbers each processor's transcript: its requests and replies so far. Equal transcripts nearly
//! always share a number, so that places are compared by numbers.
ghost use Rattle.std.specs.Prelude.{◌≡◌, ◌++◌, ◌∷◌, ◌<◌, ◌≤◌, [], IfNone, IfOk, IfSome, IsTrue, OnOk, List, Some, length, replicate, slice_get};
ghost use Rattle.hp_units.specs.declared.replies.Receipt.{Receipt};
ghost use Rattle.hp_units.specs.declared.replies.Record.{Record as NewRecord};
ghost use Rattle.hp_states.specs.Exchanges.{AreExchanged, IsBefore, IsChained, at_end, exchange_below, exchange_in, exchange_of};
ghost use Rattle.hp_states.specs.Interned.{IsMadeOf, KeepNumbers};
ghost use Rattle.hp_schedules.specs.Schedules.{Setting};

use hp_schedules::{learn, mixed, reply_number};
use hp_units::{Cpu, Event, Record, Reply};
use indexmap::IndexMap;
use std::alloc::{AllocError, Global};
use std::marker::Model;

/// The last exchange of a transcript: a request and the reply to it. `below` is the number of the
/// transcript without this exchange.
#[derive(Drop)]
pub(crate) struct Exchange {
    event: Event,
    reply: Reply,
    below: usize,
}

/// Transcripts by number. Number 0 is the empty transcript, and each entry adds one.
///
/// `latest` maps a hash to the newest transcript that has it, unless memory ran out when a later
/// one was added.
pub(crate) struct Chains {
    entries: Vec<Exchange>,
    latest: IndexMap<u64, usize>,
}

impl Model for Chains {
    ghost use Rattle.std.specs.Prelude.{List};
    ghost use Rattle.hp_units.specs.declared.replies.Receipt.{Receipt};
    ghost use Rattle.hp_states.specs.Exchanges.{chains_of, exchange_below};
    ghost use Rattle.hp_states.specs.Interned.{StandOnEarlier};

    ghost Value = { List (List Receipt) };

    ghost view = { λ c. chains_of c.entries.items };

    ghost invariant = { λ c. StandOnEarlier exchange_below c.entries.items };
}

/// Keeps callers from proving again how each field is dropped.
impl Drop for Chains {
    fn drop(self) {
        let Chains {
            entries: _,
            latest: _,
        } = self;
    }
}

/// The number of each processor's transcript at a walk's current place.
pub struct Exchanges {
    chains: Chains,
    here: Vec<usize>,
}

impl Model for Exchanges {
    ghost use Rattle.hp_states.specs.Exchanges.{AreAmong, ExchangesValue};

    ghost Value = { ExchangesValue };

    ghost view = { λ x. record { chains = x.chains; here = x.here.items } };

    ghost invariant = { λ x. AreAmong x.chains x.here.items };
}

/// Keeps callers from proving again how each field is dropped.
impl Drop for Exchanges {
    fn drop(self) {
        let Exchanges {
            chains: _chains,
            here: _,
        } = self;
    }
}

impl Chains {
    /// Creates a collection with only the empty transcript.
    fn new(alloc: Global) -> Chains
        ensures { result ≡ [] ∷ [] }
    {
        Chains {
            entries: Vec::new(alloc),
            latest: IndexMap::new(alloc),
        }
    }

    /// Returns the number of the transcript `below` with the record's exchange at its end, and adds
    /// that transcript if it is not found.
    fn after(&mut self, alloc: Global, below: usize, latest: &Record) -> Result<usize, AllocError>
        requires { below < length self.old }
        ensures kept { KeepNumbers self.old self.new }
        ensures ok { IfOk result (IsChained self.old self.new (exchange_in latest.now) below) }
    {
        let digest = exchange_digest(below, latest);
        if let Some(number) = self.found(digest, below, latest) {
            return Ok(number);
        }
        self.entries.reserve(1)?;
        let number = self.entries.len() + 1;
        learn(&mut self.latest, digest, number)?;
        let event = latest.event.copy(alloc)?;
        self.entries.push_reserved(Exchange {
            event,
            reply: latest.reply,
            below,
        });
        Ok(number)
    }

    /// Returns the number of the transcript `below` with the record's exchange at its end, if it is
    /// the newest with the hash `digest`.
    fn found(&self, digest: u64, below: usize, latest: &Record) -> Option<usize>
        ensures { IfSome result (IsChained self.now self.now (exchange_in latest.now) below) }
    {
        let Some(number) = self.latest.get(&digest) else {
            return None;
        };
        let Some(entry) = self.entry(*number) else {
            return None;
        };
        if entry.below == below && entry.is_of(latest) {
            Some(*number)
        } else {
            None
        }
    }

    /// Returns the number of the transcript that has all but the last exchange of transcript
    /// `number`. Returns 0 if transcript `number` is empty or does not exist.
    fn before(&self, number: usize) -> usize
        ensures before { IsBefore self.now number result }
        ensures within { result < length self.now }
    {
        let _ = &self.entries;
        match self.entry(number) {
            Some(entry) => entry.below,
            None => 0,
        }
    }

    /// Returns the entry that made transcript `number`, or `None` if the transcript is empty or
    /// does not exist.
    fn entry(&self, number: usize) -> Option<&Exchange>
        ensures some { IfSome result (λ entry. IsMadeOf exchange_below at_end self.now number entry.now) }
        ensures none { IfNone result ((xs : List Receipt) → slice_get self.now number ≡ Some xs → xs ≡ []) }
    {
        let entries = self.entries.as_slice();
        if number == 0 {
            return None;
        }
        entries.get(number - 1)
    }
}

impl Exchange {
    /// Returns whether this is the exchange of the record `latest`.
    fn is_of(&self, latest: &Record) -> bool
        ensures { IsTrue result → exchange_of self.now ≡ exchange_in latest.now }
    {
        self.event.same(&latest.event) && self.reply.same(&latest.reply)
    }
}

impl Exchanges {
    /// Creates the transcripts of `processors` processors, all empty.
    pub fn start(alloc: Global, processors: usize) -> Result<Exchanges, AllocError>
        ensures { IfOk result (λ x. x ≡ record { chains = [] ∷ []; here = replicate processors 0 }) }
    {
        let here = vec![in alloc; 0; processors]?;
        Ok(Exchanges {
            chains: Chains::new(alloc),
            here,
        })
    }

    /// Returns the number of each processor's current transcript.
    pub fn numbers(&self) -> &[usize]
        ensures { result.now ≡ self.now.here }
    {
        self.here.as_slice()
    }

    /// Adds a call of processor `cpu` to its transcript, if it has one.
    pub fn go_on(&mut self, alloc: Global, cpu: Cpu, latest: &Record) -> Result<(), AllocError>
        requires { latest.now.cpu ≡ cpu }
        ensures kept { KeepNumbers self.old.chains self.new.chains }
        ensures ok { OnOk result ((g : Setting) (news : List NewRecord) → AreExchanged g news self.old
            → AreExchanged g (news ++ latest.now ∷ []) self.new) }
    {
        let cpu = cpu.0 as usize;
        if cpu >= self.here.len() {
            return Ok(());
        }
        let was = self.here[cpu];
        let number = self.chains.after(alloc, was, latest)?;
        self.here[cpu] = number;
        Ok(())
    }

    /// Takes the latest call of processor `cpu` off its transcript, if it has one.
    pub fn go_back(&mut self, cpu: Cpu)
        ensures same { self.new.chains ≡ self.old.chains }
        ensures back { (g : Setting) (news : List NewRecord) (r : NewRecord) → r.cpu ≡ cpu
            → AreExchanged g (news ++ r ∷ []) self.old → AreExchanged g news self.new }
    {
        let cpu = cpu.0 as usize;
        if cpu >= self.here.len() {
            return;
        }
        let was = self.here[cpu];
        let before = self.chains.before(was);
        self.here[cpu] = before;
    }
}

/// Returns a hash of an exchange at the end of the transcript `below`.
///
/// The event is left out: the processor and its earlier exchanges nearly always determine it.
fn exchange_digest(below: usize, latest: &Record) -> u64 {
    let asked = mixed(below as u64, u64::from(latest.cpu.0));
    mixed(asked, reply_number(&latest.reply))
}
