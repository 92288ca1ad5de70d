//! The free elements of first-fault and non-fault loads that a run suppresses.

ghost use Rattle.std.specs.Prelude.{◌≡◌, ◌≤◌, ◌↔◌, IsTrue, IsSome, IfSome};
ghost use Rattle.guest_types.specs.EarlyLoads.{Each, never, stop_at, later};

use std::marker::Model;

/// No free element, or the last one of each so many, of which some were seen since.
#[derive(Clone, Copy)]
enum Stops {
    Never,
    EachOf(u64, u64),
}

/// The stop list of a run, as it is counted from here: which of the free elements to come are
/// suppressed.
#[derive(Drop)]
pub struct Suppress {
    stops: Stops,
}

impl Model for Suppress {
    ghost use Rattle.guest_types.specs.EarlyLoads.{StopList};
    ghost use Rattle.lane_memory.specs.StopLists.{stop_list_of, IsCounted};

    ghost Value = { StopList };

    ghost view = { λ s. stop_list_of s.stops };

    ghost invariant = { λ s. IsCounted s.stops };
}

impl Suppress {
    /// The empty list: no free element is suppressed.
    pub fn none() -> Suppress
        ensures { result ≡ never }
    {
        Suppress {
            stops: Stops::Never,
        }
    }

    /// The list of the numbers `every - 1`, `2 * every - 1` and so on, where `every` is not 0.
    pub fn each(every: u64) -> Option<Suppress>
        ensures valid { IsSome result ↔ (1 ≤ every) }
        ensures value { IfSome result (λ stops. stops ≡ Each every 0) }
    {
        if every == 0 {
            return None;
        }
        Some(Suppress {
            stops: Stops::EachOf(every, 0),
        })
    }

    /// The same list once more.
    pub fn copy(&self) -> Suppress
        ensures { result ≡ self.now }
    {
        Suppress { stops: self.stops }
    }

    /// What callers may rest on: the list is counted from here. It does nothing.
    #[inline(always)]
    pub fn is_counted(&self)
        ensures { later self.now 0 ≡ self.now }
    {
        let _stops = self.stops;
    }

    /// Whether no free element is suppressed.
    #[inline(always)]
    pub fn is_none(&self) -> bool
        ensures { IsTrue result ↔ (self.now ≡ never) }
    {
        match self.stops {
            Stops::Never => true,
            Stops::EachOf(_period, _seen) => false,
        }
    }

    /// Whether the next free element is suppressed, which it then has gone by.
    pub fn next(&mut self) -> bool
        ensures value { result ≡ stop_at self.old 0 }
        ensures counted { self.new ≡ later self.old 1 }
    {
        match self.stops {
            Stops::Never => false,
            Stops::EachOf(period, seen) => {
                let last = seen + 1 == period;
                let seen = if last { 0 } else { seen + 1 };
                self.stops = Stops::EachOf(period, seen);
                last
            }
        }
    }
}
