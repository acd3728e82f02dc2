//! The number by which a user names a part of a search.
ghost use Rattle.std.specs.Prelude.{◌≡◌, ◌↔◌, ◌≤◌, IfSome, IsSome};
ghost use Rattle.hp_schedules.specs.PartNumbers.{part_by};

use crate::parts::Shard;
use std::marker::Model;

/// The largest number of parts.
const MOST: u64 = 1_000_000;

/// One part of a search: its number, from 1 on, and the number of parts, at most 1,000,000.
#[derive(Clone, Copy, Drop)]
pub struct ShardId {
    number: u32,
    of: u32,
}

impl Model for ShardId {
    ghost use Rattle.std.specs.Prelude.{◌≤◌};
    ghost use Rattle.hp_schedules.specs.PartNumbers.{NumberValue};

    ghost Value = { NumberValue };

    ghost view = { λ n. record { number = n.number; of = n.of } };

    ghost invariant = { λ n. (1 ≤ n.number) × (n.number ≤ n.of) };

    ghost inverse = { λ v. record { number = v.number; of = v.of } };
}

impl ShardId {
    /// Returns part `number` of `of`, counted from 1. Returns `None` if there is no such part, or
    /// if there are more than 1,000,000.
    pub fn new(number: u64, of: u64) -> Option<ShardId>
        ensures some { IsSome result ↔ ((1 ≤ number) × (number ≤ of) × (of ≤ 1000000)) }
        ensures is { IfSome result (λ part. part ≡ record { number = number; of = of }) }
    {
        if number < 1 || number > of || of > MOST {
            return None;
        }
        Some(ShardId {
            number: number as u32,
            of: of as u32,
        })
    }

    /// Returns the number of parts.
    pub fn of(&self) -> u32
        ensures { result ≡ self.now.of }
    {
        self.of
    }

    /// Returns the part's number, from 1 on.
    pub fn number(&self) -> u32
        ensures { result ≡ self.now.number }
    {
        self.number
    }

    /// Returns the part itself, given how many first calls decide to which part a schedule belongs.
    pub fn part(&self, calls: u32) -> Shard
        ensures { result ≡ part_by self.now calls }
    {
        match Shard::new(self.number - 1, self.of, calls) {
            Some(part) => part,
            None => unreachable!(),
        }
    }
}
