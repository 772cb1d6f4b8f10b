//! How the alarms of charts stand.
use crate::by_chart::OnChart;
use alarm_events::{Delay, Status};
use fixed_num::{ListOf, Text};
use health_expr::Value;

/// Whose state it is.
#[derive(Clone, Copy, Debug, PartialEq, Eq)]
pub enum Holder {
    /// The alarm at this place of the configuration.
    Alarm(usize),
    /// An alarm that the configuration has not for the state's chart: the place of its name among the lost.
    Lost(usize),
}

/// How an alarm of a chart stands.
#[derive(Clone, Copy, Debug, PartialEq, Eq)]
pub struct State {
    pub alarm: Holder,
    /// The number of the chart.
    pub chart: u32,
    pub value: Value,
    pub status: Status,
    /// How long its changes wait. None before the first that is told.
    pub delay: Option<Delay>,
}

impl OnChart for State {
    ghost chart_of = { λ state. state.chart };

    fn chart_number(&self) -> u32 {
        self.chart
    }
}

/// The states of alarms, in the order of the alarms, and of one alarm in the order of the charts.
pub type StateList = ListOf<State>;

/// Names of alarms.
pub type NameList = ListOf<Text>;
