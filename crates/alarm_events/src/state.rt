//! How an alarm of a chart stands, and that as bytes.
ghost use Rattle.std.specs.Prelude.{◌≡◌, ◌++◌, ◌↔◌, Ok, Err, IsTrue, IfOk, IfErr, OnOk, IsOkUnless};

use crate::delay::{self, Delay};
use crate::format::AlarmFormat;
use crate::status::Status;
use crate::{status_field, value};
use field_codec::list::ListItem;
use field_codec::{FieldFault, Reader, Writer, text};
use fixed_num::{ListOf, Text};
use health_expr::Value;
use std::alloc::Global;

/// How an alarm of a chart stands.
#[derive(Debug, Drop)]
pub struct KeptState {
    /// The name of the alarm: at most 65,535 bytes.
    pub alarm: Text,
    /// The number of the chart.
    pub chart: u32,
    pub status: Status,
    /// What the alarm is worth: a number has a size of at most 10^29 ten-millionths.
    pub value: Value,
    /// How long its changes wait. None before the first that is told.
    pub delay: Option<Delay>,
}

/// The states of alarms.
pub type KeptStateList = ListOf<KeptState>;

impl ListItem<AlarmFormat> for KeptState {
    ghost use Rattle.alarm_events.specs.States.{IsState, IsShortState, state_bytes, read_state};

    ghost is_item = { IsState };

    ghost is_short_item = { IsShortState };

    ghost item_bytes = { state_bytes };

    ghost read_item = { read_state };

    fn is_short(&self) -> bool {
        let _chart = self.chart;
        text::is_short(&self.alarm) && value::is_short(self.value) && delay::is_short(self.delay)
    }

    #[tactic(auto, unfolding(crate::specs::States::state_bytes))]
    fn put(&self, writer: &mut Writer) -> Result<(), FieldFault> {
        text::put(&self.alarm, writer)?;
        writer.put_u32(self.chart)?;
        status_field::put(self.status, writer)?;
        value::put(self.value, writer)?;
        delay::put(self.delay, writer)
    }

    #[tactic(auto, unfolding(crate::specs::States::read_state))]
    fn take(alloc: Global, reader: &mut Reader<'_>) -> Result<KeptState, FieldFault> {
        let alarm = text::take(alloc, reader)?;
        let chart = reader.take_u32()?;
        let status = status_field::take(reader)?;
        let value = value::take(reader)?;
        let delay = delay::take(reader)?;
        Ok(KeptState {
            alarm,
            chart,
            status,
            value,
            delay,
        })
    }
}
