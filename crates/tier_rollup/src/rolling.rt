ghost use Rattle.std.specs.Prelude.{◌≡◌, ℕ, ◌≤◌, List, [], ◌∷◌, ◌++◌, Some, None, IfSome, unsigned_abs};
ghost use Rattle.tier_rollup.specs.Buckets.{Added, limit, bucket_record};
ghost use Rattle.tier_rollup.specs.Rolling.{width_of, open_of, numbers, is_over, closed_by, kept_by, HasRolled, IsNext, IsRollerOf};

use crate::record;
use crate::roller::Roller;
use fixed_num::{Record, Units};

/// Whether there is a bucket that ends at or before the moment.
fn is_over(width: u32, moment: u32, current: Option<(u32, Record)>) -> bool
    requires { 1 ≤ width }
    ensures { result ≡ is_over width moment current }
{
    match current {
        Some((bucket, _)) => bucket < moment / width,
        None => false,
    }
}

impl Roller {
    /// A roller without points.
    pub fn new(width: u32) -> Roller
        requires { 1 ≤ width }
        ensures width { width_of result ≡ width }
        ensures none { open_of result ≡ None }
        ensures rolled { IsRollerOf result [] [] }
    {
        Roller {
            width,
            current: None,
        }
    }

    /// The roller after any points whose open record is `partial`, that of `bucket`.
    pub fn resume(width: u32, bucket: u32, partial: Record) -> Roller
        requires { 1 ≤ width }
        ensures width { width_of result ≡ width }
        ensures partial { open_of result ≡ Some (bucket, partial) }
        ensures rolled { (points : List Added) (handed : List ℕ)
            → HasRolled width (Some (bucket, partial)) points handed
            → IsRollerOf result points handed }
    {
        Roller {
            width,
            current: Some((bucket, partial)),
        }
    }

    /// Adds a point, and gives the bucket that its moment closes, if there is one. A moment that does
    /// not come after those before it is safe, but no promise holds then.
    pub fn add(&mut self, moment: u32, units: Units, anomalous: bool) -> Option<(u32, Record)>
        requires { unsigned_abs units ≤ limit }
        ensures width { width_of self.new ≡ width_of self.old }
        ensures closed { result ≡ closed_by (width_of self.old) moment (open_of self.old) }
        ensures closed_record { (points : List Added) (handed : List ℕ)
            → IsRollerOf self.old points handed
            → IfSome result (λ closed. bucket_record (width_of self.old) closed.0 points
            ≡ Some closed.1) }
        ensures rolled { let added : Added =
            record { moment = moment; units = units; anomalous = anomalous } in
            (points : List Added) (handed : List ℕ) → IsRollerOf self.old points handed
            → IsNext (width_of self.old) moment points handed
            → IsRollerOf self.new (added ∷ points) (numbers result ++ handed) }
    {
        let closed = self.close_before(moment);
        let grown = record::with_point(self.current, moment / self.width, units, anomalous);
        self.current = Some(grown);
        closed
    }

    /// Hands out the open record, where its bucket ends at or before the moment.
    pub fn close_before(&mut self, moment: u32) -> Option<(u32, Record)>
        ensures width { width_of self.new ≡ width_of self.old }
        ensures closed { result ≡ closed_by (width_of self.old) moment (open_of self.old) }
        ensures kept { open_of self.new ≡ kept_by (width_of self.old) moment (open_of self.old) }
        ensures closed_record { (points : List Added) (handed : List ℕ)
            → IsRollerOf self.old points handed
            → IfSome result (λ closed. bucket_record (width_of self.old) closed.0 points
            ≡ Some closed.1) }
        ensures rolled { (points : List Added) (handed : List ℕ) → IsRollerOf self.old points handed
            → IsRollerOf self.new points (numbers result ++ handed) }
    {
        if is_over(self.width, moment, self.current) {
            self.current.take()
        } else {
            None
        }
    }

    /// The bucket that is not handed out yet and its record.
    pub fn open_record(&self) -> Option<(u32, Record)>
        ensures shown { result ≡ open_of self.now }
        ensures shown_record { (points : List Added) (handed : List ℕ)
            → IsRollerOf self.now points handed
            → IfSome result (λ shown. bucket_record (width_of self.now) shown.0 points
            ≡ Some shown.1) }
    {
        self.current
    }
}
