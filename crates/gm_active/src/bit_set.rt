//! Sets of numbers, a bit for each.

ghost use Rattle.std.specs.Prelude.{◌≡◌, ◌==◌, ◌<◌, ◌≤◌, true, false, not, length, slice_set, replicate, IfOk, IfSome, IfNone};
ghost use Rattle.gm_active.specs.Bits.{is_in, any_between, NoneBetween, IsLeastBetween, members_of};

use crate::word::{WORD_BITS, has_bit, least_bit, with_bit};
use gm_base::Memory;
use std::alloc::Global;
use std::marker::Model;

/// A set of numbers below a limit. Contracts see a mark for each number.
#[derive(Drop)]
pub(crate) struct BitSet {
    limit: u32,
    words: Vec<u64>,
}

impl Model for BitSet {
    ghost use Rattle.std.specs.Prelude.{Bool, List};
    ghost use Rattle.gm_active.specs.Words.{marks_of, AreWords};

    ghost Value = { List Bool };

    ghost view = { λ a. marks_of a.limit a.words.items };

    ghost invariant = { λ a. AreWords a.limit a.words.items };
}

impl BitSet {
    /// No numbers, of those below the limit.
    pub fn new(alloc: Global, limit: u32) -> Result<BitSet, Memory>
        ensures { IfOk result (λ set. set ≡ replicate limit false) }
    {
        let words = vec![in alloc; 0; limit.div_ceil(WORD_BITS) as usize]?;
        Ok(BitSet { limit, words })
    }

    /// Removes all numbers.
    pub fn clear(&mut self)
        ensures { self.new ≡ replicate (length self.old) false }
    {
        self.words.as_mut_slice().fill(0);
    }

    /// Puts a number into the set or takes it out.
    fn set(&mut self, number: u32, is_member: bool)
        requires { number < length self.old }
        ensures { self.new ≡ slice_set self.old number is_member }
    {
        let at = (number / WORD_BITS) as usize;
        self.words[at] = with_bit(self.words[at], number % WORD_BITS, is_member);
    }

    /// Adds a number.
    pub fn insert(&mut self, number: u32)
        requires { number < length self.old }
        ensures { self.new ≡ slice_set self.old number true }
    {
        self.set(number, true);
    }

    /// Removes a number.
    pub fn remove(&mut self, number: u32)
        requires { number < length self.old }
        ensures { self.new ≡ slice_set self.old number false }
    {
        self.set(number, false);
    }

    /// Whether a number is in the set.
    pub fn has(&self, number: u32) -> bool
        requires { number < length self.now }
        ensures { result ≡ is_in self.now number }
    {
        has_bit(
            self.words[(number / WORD_BITS) as usize],
            number % WORD_BITS,
        )
    }

    /// How many numbers the set has.
    pub fn count(&self) -> u32
        ensures { result ≡ members_of self.now }
    {
        let mut count = 0;
        for word in &self.words {
            count += word.count_ones();
        }
        count
    }

    /// The least number of the set, of those from this one on and below the end. `None` exactly where there is none. It looks at
    /// a word at a time.
    pub fn least(&self, from: u32, end: u32) -> Option<u32>
        requires { end ≤ length self.now }
        ensures some { IfSome result (IsLeastBetween (is_in self.now) from end) }
        ensures none { IfNone result (NoneBetween (is_in self.now) from end) }
    {
        for at in from / WORD_BITS..end.div_ceil(WORD_BITS) {
            let start = at * WORD_BITS;
            let found = least_bit(self.words[at as usize], from.saturating_sub(start));
            if let Some(bit) = found {
                let number = start + bit;
                return if number < end { Some(number) } else { None };
            }
        }
        None
    }

    /// Whether the set has one of the numbers from this one on and below the end. It looks at a word at a time.
    pub fn any(&self, from: u32, end: u32) -> bool
        requires { end ≤ length self.now }
        ensures { result ≡ any_between (is_in self.now) from end }
    {
        self.least(from, end).is_some()
    }

    /// Whether the set has no number.
    pub fn is_empty(&self) -> bool
        ensures { result ≡ not (any_between (is_in self.now) 0 (length self.now)) }
    {
        !self.any(0, self.limit)
    }
}
