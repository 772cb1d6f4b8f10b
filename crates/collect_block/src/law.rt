ghost use Rattle.std.specs.Prelude.{List};
ghost use Rattle.history.specs.Registry.{Registry, with_definitions};
ghost use Rattle.history.specs.declared.beat.OpenDim.{OpenDim as Dimension};
ghost use Rattle.history.specs.declared.chart.ChartDef.{ChartDef as Chart};
ghost use Rattle.collect_block.specs.declared.feed.Feed.{Feed};
ghost use Rattle.collect_block.specs.Feed.{CountsFor};
ghost use Rattle.collect_block.specs.Grown.{HasAllOf};

/// What a feed has counted holds on for a registry that has grown: for each that has all charts and all
/// dimensions of a registry for which it held. A registry with more definitions has all that it had. It
/// does nothing.
pub fn counts_hold_as_registry_grows()
    ensures counts { (feed : Feed) (registry later : Registry) → HasAllOf registry later
        → CountsFor feed registry → CountsFor feed later }
    ensures grown { (registry : Registry) (charts : List Chart) (dimensions : List Dimension)
        → HasAllOf registry (with_definitions registry charts dimensions) }
{}
