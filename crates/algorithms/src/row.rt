ghost use Rattle.std.specs.Prelude.{◌≡◌, ℕ, ◌≤◌, length, map, IfOk};
ghost use Rattle.history.specs.Points.{row_words};
ghost use Rattle.algorithms.specs.Cells.{cells};
ghost use Rattle.algorithms.specs.Words.{packed};
ghost use Rattle.algorithms.specs.Samples.{cell_at};

use crate::fault::AlgoFault;
use crate::last::{Last, LastList};
use crate::sample::{self, Sample};
use crate::{total, word};
use fixed_num::ListOf;
use history::{DimDef, MOST_DIMENSIONS_OF_CHART, Value, ValueList};
use std::alloc::Global;

/// The most values of a row.
pub const ROW_LIMIT: usize = MOST_DIMENSIONS_OF_CHART as usize;

/// Definitions of dimensions.
pub type DimList = ListOf<DimDef>;

/// Storage numbers, where there is one.
pub type WordList = ListOf<Option<u32>>;

/// The samples of a row.
fn samples_of(
    alloc: Global,
    update_every: u32,
    store_first: bool,
    moment: u32,
    last: &[Option<Last>],
    now: &[Value],
    dims: &[DimDef],
) -> Result<Vec<Sample>, AlgoFault>
    requires lasts { length last.now ≡ length now.now }
    requires defs { length dims.now ≡ length now.now }
    ensures { IfOk result (λ samples. map cell_at samples.items
        ≡ cells update_every store_first moment now.now last.now dims.now) }
{
    let mut samples = Vec::with_capacity(alloc, now.len())?;
    for (i, value) in now.iter().enumerate() {
        let sample = sample::sample_of(update_every, store_first, moment, value, last[i], &dims[i]);
        samples.push(sample)?;
    }
    Ok(samples)
}

/// The storage number of each value of a row, in the order of the values, and none where an algorithm that
/// counts from a value before has none.
///
/// The samples are those of all values of the row, since a value in percent is a share of them all.
pub fn sample_words(alloc: Global, samples: &[Sample]) -> Result<WordList, AlgoFault>
    requires limit { length samples.now ≤ ROW_LIMIT }

    ensures words { IfOk result (λ words. words ≡ row_words packed (map cell_at samples.now)) }
    ensures count { IfOk result (λ words. length words ≡ length samples.now) }
{
    let values = total::total(samples);
    let rises = total::total_difference(samples);
    let mut words = Vec::with_capacity(alloc, samples.len())?;
    for sample in samples {
        words.push(word::word(sample, values, rises))?;
    }
    Ok(ListOf::from_vec(words))
}

/// The storage number of each value of a row that its chart collected at `moment`, in the order of the
/// values, and none where an algorithm that counts from a value before has none.
///
/// `last` has the last row of each value's dimension, and `dims` its definition. `update_every` and the
/// moments are in seconds. A last row that is not before `moment` counts as none, and a divisor or an
/// `update_every` of 0 as 1.
pub fn row_points(
    alloc: Global,
    update_every: u32,
    store_first: bool,
    moment: u32,
    last: &LastList,
    now: &ValueList,
    dims: &DimList,
) -> Result<WordList, AlgoFault>
    requires limit { length now.now ≤ ROW_LIMIT }
    requires lasts { length last.now ≡ length now.now }
    requires defs { length dims.now ≡ length now.now }

    ensures words { IfOk result (λ words. words
        ≡ row_words packed (cells update_every store_first moment now.now last.now dims.now)) }
    ensures count { IfOk result (λ words. length words ≡ length now.now) }
{
    let samples = samples_of(
        alloc,
        update_every,
        store_first,
        moment,
        last.as_slice(),
        now.as_slice(),
        dims.as_slice(),
    )?;
    sample_words(alloc, samples.as_slice())
}
