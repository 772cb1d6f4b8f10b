ghost use Rattle.std.specs.Prelude.{◌≡◌, ℕ, List, Option, IfSome, option_map};
ghost use Rattle.host_model.specs.Clock.{next_reading, later_readings};

/// What tells the time. It may jump, also back.
pub trait Clock {
    /// The readings to come, where the clock tells them. The last of them is repeated.
    ghost readings: { Self → Option (List ℕ) };

    /// The time, in whole seconds since the beginning of 1970, UTC.
    fn moment(&mut self) -> u64
        ensures reading { IfSome (readings self.old) (λ ahead. result ≡ next_reading ahead) }
        ensures later { readings self.new ≡ option_map later_readings (readings self.old) };
}
