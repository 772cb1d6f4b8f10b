//! What is of each chart, found by the number of the chart.
ghost use Rattle.std.specs.Prelude.{◌≡◌, ◌<◌, ℕ, [], ◌∷◌, ◌++◌, length, filter, slice_index_or, IfOk, OnOk};
ghost use Rattle.alarm_core.specs.ByChart.{is_on_chart, AreByChart};

use fixed_num::ListOf;
use std::alloc::{AllocError, Global};

/// Something of a chart.
pub trait OnChart: Copy + Drop {
    ghost chart_of: { Self → ℕ };

    /// The number of its chart.
    fn chart_number(&self) -> u32
        ensures { result ≡ chart_of self.now };
}

/// Items, and a list of those of each chart.
#[derive(Drop)]
pub struct ByChart<'a, T: OnChart> {
    pub items: &'a [T],
    /// By the number of the chart. Behind the last list there are no items.
    pub lists: Vec<ListOf<T>>,
    ghost listed: { AreByChart T.chart_of items.now lists.items },
}

impl<'a, T: OnChart> ByChart<'a, T> {
    /// The items of a chart, in their order.
    pub fn on(&self, chart: u32) -> &[T]
        ensures { result.now ≡ filter (is_on_chart T.chart_of chart) self.now.items.now }
    {
        match self.lists.get(chart as usize) {
            Some(list) => list.as_slice(),
            None => &[],
        }
    }
}

fn push_list<T: Drop>(lists: &mut Vec<ListOf<T>>, list: ListOf<T>) -> Result<(), AllocError>
    ensures { OnOk result (lists.new.items ≡ lists.old.items ++ list ∷ []) }
{
    lists.push(list).map_err(|_| AllocError)
}

/// Adds lists without items, up to that of a chart.
fn reach<T: Drop>(alloc: Global, lists: &mut Vec<ListOf<T>>, chart: u32) -> Result<(), AllocError>
    ensures same { OnOk result ((other : ℕ) → slice_index_or lists.new.items other []
        ≡ slice_index_or lists.old.items other []) }
    ensures room { OnOk result (chart < length lists.new.items) }
{
    for _ in lists.len()..chart as usize + 1 {
        push_list(lists, ListOf::new(alloc))?;
    }
    Ok(())
}

/// Adds an item to the list of its chart.
fn add<T: OnChart>(alloc: Global, lists: &mut Vec<ListOf<T>>, item: T) -> Result<(), AllocError>
    ensures { OnOk result ((chart : ℕ) → slice_index_or lists.new.items chart []
        ≡ slice_index_or lists.old.items chart []
        ++ filter (is_on_chart T.chart_of chart) (item ∷ [])) }
{
    let chart = item.chart_number();
    reach(alloc, lists, chart)?;
    lists[chart as usize].push(item).map_err(|_| AllocError)
}

/// The items of each chart. It goes through all items once.
pub fn by_chart<'a, T: OnChart>(alloc: Global, items: &'a [T]) -> Result<ByChart<'a, T>, AllocError>
    ensures { IfOk result (λ all. all.items.now ≡ items.now) }
{
    let mut lists = Vec::new(alloc);
    for item in items {
        add(alloc, &mut lists, *item)?;
    }
    Ok(ByChart { items, lists })
}
