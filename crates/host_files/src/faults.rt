ghost use Rattle.std.specs.Prelude.{◌≡◌, ◌^◌, ◌-◌, ◌<◌, ◌≤◌, ◌↔◌, is_some, nat_lt, Some, IsSome, IsNone};
ghost use Rattle.host_model.specs.Calls.{raised};

/// How many calls failed, and why the first of them did. The count stands still at 2^64 - 1.
#[derive(Debug, Drop)]
pub(crate) struct Faults<E> {
    pub(crate) count: u64,
    first: Option<E>,
    /// The reason is there exactly where a call failed.
    ghost known: { is_some first ≡ nat_lt 0 count },
}

impl<E: Copy> Faults<E> {
    /// No call has failed.
    pub(crate) fn new() -> Faults<E>
        ensures { result.count ≡ 0 }
    {
        Faults {
            count: 0,
            first: None,
        }
    }

    /// A call failed for this reason, which is kept where it is the first.
    pub(crate) fn add(&mut self, reason: E)
        ensures first { IsNone self.old.first → self.new.first ≡ Some reason }
        ensures kept { IsSome self.old.first → self.new.first ≡ self.old.first }
        ensures count { self.new.count ≡ raised self.old.count }
        ensures range { self.old.count ≤ 2 ^ 64 - 1 }
    {
        self.count = self.count.saturating_add(1);
        if self.first.is_none() {
            self.first = Some(reason);
        }
    }

    pub(crate) fn first(&self) -> Option<E>
        ensures first { result ≡ self.now.first }
        ensures there { IsSome result ↔ (0 < self.now.count) }
    {
        self.first
    }
}
