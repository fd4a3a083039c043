// What a state has besides its stores: the rain memory, the last serial and the frost index, with their limits, which belong to test 9.
ghost use Rattle.std.specs.Prelude.{◌≡◌};
ghost use Rattle.paper.specs.State.{remembered, memory_fits, last_fits, past_fits, no_past, past_after, follows};
ghost use Rattle.records.specs.Past.{memory_as, last_as, past_as};
ghost use Rattle.records.specs.Days.{day_as};

use crate::days::DayRecord;
use crate::frost::frost_after;
use crate::quantities::{Depth, FrostIndex};

// The gross precipitation of the five previous days.
#[derive(Clone, Copy)]
pub struct Memory {
    pub oldest: Depth,
    pub fourth: Depth,
    pub third: Depth,
    pub second: Depth,
    pub yesterday: Depth,
}

#[derive(Clone, Copy)]
pub struct Past {
    pub memory: Memory,
    // The last serial, where a day was accepted yet.
    pub last: Option<u32>,
    pub frost: FrostIndex,
}

impl Memory {
    #[tactic(auto, unfolding(paper::specs::State::remembered))]
    pub fn next(self, gross: Depth) -> Memory
        ensures { memory_as result ≡ remembered (memory_as self) gross.0 }
    {
        let fourth = self.fourth;
        let third = self.third;
        let second = self.second;
        let yesterday = self.yesterday;
        Memory {
            oldest: fourth,
            fourth: third,
            third: second,
            second: yesterday,
            yesterday: gross,
        }
    }

    #[tactic(auto, unfolding(paper::specs::State::memory_fits))]
    pub fn fits(self) -> bool
        ensures { result ≡ memory_fits (memory_as self) }
    {
        let most = Depth::MOST_GROSS.0;
        (self.oldest.0 <= most)
            & (self.fourth.0 <= most)
            & (self.third.0 <= most)
            & (self.second.0 <= most)
            & (self.yesterday.0 <= most)
    }
}

#[tactic(auto, unfolding(paper::specs::State::last_fits))]
fn last_fits(last: Option<u32>) -> bool
    ensures { result ≡ last_fits (last_as last) }
{
    match last {
        None => true,
        Some(serial) => serial <= DayRecord::MOST_SERIAL,
    }
}

impl Past {
    // No rain remembered, no serial and no frost.
    pub fn none() -> Past
        ensures { past_as result ≡ no_past }
    {
        let memory = Memory {
            oldest: Depth(0),
            fourth: Depth(0),
            third: Depth(0),
            second: Depth(0),
            yesterday: Depth(0),
        };
        Past {
            memory,
            last: None,
            frost: FrostIndex(0),
        }
    }

    // After an accepted day: its gross figure is remembered, its serial is the last, and the frost index is the one that it set.
    pub fn after(self, day: DayRecord) -> Past
        ensures { past_as result ≡ past_after (past_as self) (day_as day) }
    {
        let memory = self.memory;
        let frost = self.frost;
        let gross = day.gross;
        let mean = day.mean;
        Past {
            memory: memory.next(gross),
            last: Some(day.serial),
            frost: frost_after(frost, mean),
        }
    }

    // Test 8. One more than the last serial can pass 32 bits.
    #[tactic(auto, unfolding(paper::specs::State::follows))]
    pub fn is_followed_by(self, serial: u32) -> bool
        ensures { result ≡ follows (last_as self.last) serial }
    {
        let last = self.last;
        match last {
            None => true,
            Some(before) => u64::from(serial) == u64::from(before) + 1,
        }
    }

    #[tactic(auto, unfolding(paper::specs::State::past_fits))]
    pub fn fits(self) -> bool
        ensures { result ≡ past_fits (past_as self) }
    {
        let memory = self.memory;
        let last = self.last;
        memory.fits() & last_fits(last) & (self.frost.0 <= FrostIndex::MOST.0)
    }
}
