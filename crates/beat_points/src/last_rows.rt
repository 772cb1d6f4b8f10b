ghost use Rattle.std.specs.Prelude.{◌≡◌, List, [], ◌∷◌, IfOk, OnOk, OnErr};
ghost use Rattle.history.specs.declared.beat.OpenBeat.{OpenBeat};
ghost use Rattle.history.specs.History.{Beat, Copy, collected, copied, registry_of};
ghost use Rattle.history.specs.Numbered.{numbered_beat, IsThere};
ghost use Rattle.history.specs.Registry.{same_chart};
ghost use Rattle.history.specs.Regular.{AreApart, IsRegular};
ghost use Rattle.beat_points.specs.LastRows.{AreLastOf};
ghost use Rattle.beat_points.specs.Points.{IsNext, ArePointsIn, AreRising, beat_points};

use crate::fault::PointFault;
use crate::series_word::SeriesWordList;
use crate::{giving, taking};
use algorithms::{Last, LastList};
use chart_registry::Registry;
use history::NumberedBeat;
use std::alloc::{AllocError, Global};
use std::marker::Model;

/// The last row in which each series was set, which contracts see as a list by the numbers of the series.
#[derive(Drop)]
pub struct LastRows {
    rows: Vec<Option<Last>>,
}

impl Model for LastRows {
    ghost use Rattle.std.specs.Prelude.{List, Option};
    ghost use Rattle.algorithms.specs.declared.last.Last.{Last as Row};

    ghost Value = { List (Option Row) };

    ghost view = { λ last. last.rows.items };
}

impl LastRows {
    /// The last rows of a history without beats.
    pub fn new(alloc: Global) -> LastRows
        ensures none { result ≡ [] }
        ensures of_no_beats { AreLastOf result [] }
    {
        LastRows {
            rows: Vec::new(alloc),
        }
    }

    /// The last rows of a list by the numbers of the series, without a copy.
    pub fn from_list(rows: LastList) -> LastRows
        ensures { result ≡ rows }
    {
        LastRows {
            rows: rows.into_vec(),
        }
    }

    /// The last rows by the numbers of the series: no more than there are series.
    pub fn as_slice(&self) -> &[Option<Last>]
        ensures { result.now ≡ self.now }
    {
        self.rows.as_slice()
    }

    /// The points that a beat gives, with its definitions in the registry, by ascending series, each
    /// series once. These are the last rows of the history before it, if there is one.
    pub fn points(
        &self,
        alloc: Global,
        registry: &Registry,
        beat: &NumberedBeat,
    ) -> Result<SeriesWordList, PointFault>
        requires { IsThere registry.now beat.now }
        ensures points { IfOk result (λ points. (h : List Beat) (opened : OpenBeat)
            → IsNext registry.now self.now h beat.now.moment opened
            → beat.now ≡ numbered_beat registry.now beat.now.moment opened
            → points ≡ beat_points registry.now h beat.now.moment opened) }
        ensures words { IfOk result (ArePointsIn registry.now) }
        ensures rising { IfOk result (λ points. (opened : OpenBeat)
            → AreApart same_chart registry.now.charts
            → beat.now ≡ numbered_beat registry.now beat.now.moment opened → AreRising points) }
    {
        let points = giving::gather(
            alloc,
            registry,
            self.rows.as_slice(),
            beat.rows.as_slice(),
            beat.moment,
        )?;
        giving::sorted(points)
    }

    /// Makes room for the series of a registry, as a copied beat wants it, which has no rows. After an `Err` all is as
    /// before.
    pub fn make_room(&mut self, registry: &Registry) -> Result<(), AllocError>
        ensures ok { OnOk result ((h : List Beat) (copy : Copy) → AreLastOf self.old h
            → registry.now ≡ registry_of (copied copy ∷ h)
            → AreLastOf self.new (copied copy ∷ h)) }
        ensures err { OnErr result (self.new ≡ self.old) }
    {
        taking::make_room(&mut self.rows, registry.dimensions() as usize)
    }

    /// Takes the rows of a beat, with its definitions in the registry. After an `Err` all is as before.
    pub fn apply(&mut self, registry: &Registry, beat: &NumberedBeat) -> Result<(), PointFault>
        requires { IsThere registry.now beat.now }
        ensures ok { OnOk result ((h : List Beat) (opened : OpenBeat) → AreLastOf self.old h
            → registry.now ≡ registry_of (collected beat.now.moment opened ∷ h)
            → IsRegular registry.now opened
            → beat.now ≡ numbered_beat registry.now beat.now.moment opened
            → AreLastOf self.new (collected beat.now.moment opened ∷ h)) }
        ensures err { OnErr result (self.new ≡ self.old) }
    {
        taking::make_room(&mut self.rows, registry.dimensions() as usize)?;
        taking::take_rows(&mut self.rows, beat.rows.as_slice(), beat.moment);
        Ok(())
    }
}
