//! A count of steps.
ghost use Rattle.std.specs.Prelude.{◌≡◌, ◌^◌, ◌<◌, ℕ};
ghost use Rattle.ovn_base.specs.numbers.Steps.{after_steps};

use std::marker::{Model, PhantomData};

/// How many steps were taken. `L` only names what is counted, so that counts of different things are not mixed up.
/// A contract sees the count.
#[derive(Drop)]
pub struct Steps<L> {
    count: u64,
    of: PhantomData<L>,
}

impl<L> Model for Steps<L> {
    ghost Value = { ℕ };

    ghost view = { λ s. s.count };
}

impl<L> Steps<L> {
    /// No step yet.
    pub fn new() -> Self
        ensures { result ≡ 0 }
    {
        Steps {
            count: 0,
            of: PhantomData,
        }
    }

    /// Counts one step more. The count stays at the greatest `u64` once it is there.
    pub fn tick(&mut self)
        ensures { self.new ≡ after_steps 1 self.old }
    {
        self.count = self.count.saturating_add(1);
    }

    /// How many steps were counted.
    pub fn count(&self) -> u64
        ensures { result ≡ self.now }
    {
        self.count
    }
}
