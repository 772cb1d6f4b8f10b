ghost use Rattle.std.specs.Prelude.{◌≡◌, ℕ, ◌<◌, ◌≤◌, List, Some, None, IfSome};
ghost use Rattle.std.specs.Option.{option_map};
ghost use Rattle.history.specs.declared.beat.OpenDim.{OpenDim};
ghost use Rattle.history.specs.declared.beat.OpenValue.{OpenValue};
ghost use Rattle.history.specs.declared.chart.ChartDef.{ChartDef};
ghost use Rattle.history.specs.History.{Beat};
ghost use Rattle.history.specs.Points.{Collected, before_at, last_set, cell_of as history_cell};
ghost use Rattle.algorithms.specs.Cells.{before_of, cell_of, last_of, numbered};

/// The laws of the last row of a dimension: what stands before a value is what the history says. It
/// does nothing.
pub fn last_rows_follow_the_history()
    ensures earlier { (chart : ChartDef) (moment : ℕ) (last : Collected) → last.moment < moment
        → before_of chart.update_every chart.store_first moment (Some (last_of last))
        ≡ before_at chart moment (Some last) }
    ensures later { (chart : ChartDef) (moment : ℕ) (last : Collected) → moment ≤ last.moment
        → before_of chart.update_every chart.store_first moment (Some (last_of last))
        ≡ before_at chart moment None }
    ensures none { (chart : ChartDef) (moment : ℕ)
        → before_of chart.update_every chart.store_first moment None ≡ before_at chart moment None }
{}

/// The law of a value of a history: with the last row that the history has, its cell is what the history
/// says. It does nothing.
pub fn cells_follow_the_history()
    ensures { (h : List Beat) (chart : ChartDef) (moment series : ℕ) (value : OpenValue)
        (dimension : OpenDim)
        → IfSome (last_set h dimension.chart dimension.def.id) (λ last. last.moment < moment)
        → history_cell h chart moment dimension value
        ≡ cell_of chart.update_every chart.store_first moment (numbered series value)
        (option_map last_of (last_set h dimension.chart dimension.def.id)) dimension.def }
{}
