ghost use Rattle.std.specs.Prelude.{◌≡◌, ◌≤◌, length, drop};
ghost use Rattle.replication.specs.Copies.{RisesFrom, above};
ghost use Rattle.replication.specs.Names.{beat_moment};

use crate::beats::Beat;

/// The place of the first beat above a moment, or how many beats there are.
fn first_above(beats: &[Beat], from: u32) -> usize
    requires { RisesFrom beat_moment 0 beats.now }
    ensures within { result ≤ length beats.now }
    ensures above { drop result beats.now ≡ above beat_moment from beats.now }
{
    beats.partition_point(|beat| beat.moment <= from)
}

/// The beats above a moment.
pub(crate) fn beats_above(beats: &[Beat], from: u32) -> &[Beat]
    requires { RisesFrom beat_moment 0 beats.now }
    ensures { result.now ≡ above beat_moment from beats.now }
{
    beats.split_at(first_above(beats, from)).1
}
