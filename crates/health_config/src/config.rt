ghost use Rattle.std.specs.Prelude.{◌≡◌, ◌≤◌, length, map, Ok, IfOk, IfErr};
ghost use Rattle.health_config.specs.Entity.{alarm_of};
ghost use Rattle.health_config.specs.Fault.{IsRefusalFor};
ghost use Rattle.health_config.specs.Config.{config_read, of_sections, tally_of};
ghost use Rattle.health_config.specs.ConfigOf.{configuration_of, entities_of, text_of};
ghost use Rattle.health_config.specs.Lines.{lines};
ghost use Rattle.health_config.specs.Sections.{sections};

use crate::entity::AlarmList;
use crate::fault::ConfigFault;
use crate::lines::cut_lines;
use crate::tally::{Tally, read_tally};
use fixed_num::ByteList;
use std::alloc::Global;

/// The most bytes of a health text.
pub const TEXT_LIMIT: usize = 1_048_576;

/// A health text, its alarms, and how many of its keys were skipped.
///
/// Contracts see it by `configuration_of`, with its expressions as trees, and by `text_of`.
#[derive(Debug, Drop)]
pub struct Config {
    text: ByteList,
    tally: Tally,
}

/// The configuration of a text that is not too long.
fn read_text(alloc: Global, text: &[u8]) -> Result<Tally, ConfigFault>
    requires { length text.now ≤ TEXT_LIMIT }
    ensures ok { IfOk result (λ tally. of_sections (sections (lines text.now))
        ≡ Ok (tally_of tally)) }
    ensures fault { IfErr result (IsRefusalFor (of_sections (sections (lines text.now)))) }
{
    let lines = cut_lines(alloc, text).map_err(|_| ConfigFault::Memory)?;
    read_tally(alloc, lines.as_slice())
}

impl Config {
    /// Reads a health text.
    ///
    /// Of several refusals the first is told, from the first line on: that of an entity without `on` at
    /// the line that ends it and before that line's own, named by the entity's first line. A text that is
    /// too long is refused before all. `Memory` may come before any.
    #[tactic(auto, unfolding(crate::specs::Config::config_read))]
    pub fn read(alloc: Global, text: &[u8]) -> Result<Config, ConfigFault>
        ensures config { IfOk result
            (λ config. config_read text.now ≡ Ok (configuration_of config)) }
        ensures text { IfOk result (λ config. text_of config ≡ text.now) }
        ensures refused { IfErr result (IsRefusalFor (config_read text.now)) }
    {
        if text.len() > TEXT_LIMIT {
            return Err(ConfigFault::TextTooLong);
        }
        let tally = read_text(alloc, text)?;
        let kept = ByteList::from_slice(alloc, text).map_err(|_| ConfigFault::Memory)?;
        Ok(Config { text: kept, tally })
    }

    /// The text that was read: at most `TEXT_LIMIT` bytes.
    pub fn text(&self) -> &[u8]
        ensures { result.now ≡ text_of self.now }
    {
        self.text.as_slice()
    }

    /// The alarms in the order of the text. An entity that says neither `every` nor a lookup gives none.
    pub fn alarms(&self) -> &AlarmList
        ensures kept { result.now ≡ entities_of self.now }
        ensures alarms { map alarm_of result.now ≡ (configuration_of self.now).alarms }
    {
        &self.tally.alarms
    }

    /// The text that was read, and the alarms in the order of the text, without a copy.
    pub fn into_parts(self) -> (ByteList, AlarmList)
        ensures text { result.0 ≡ text_of self }
        ensures kept { result.1 ≡ entities_of self }
        ensures alarms { map alarm_of result.1 ≡ (configuration_of self).alarms }
    {
        let Config { text, tally } = self;
        let Tally { alarms, .. } = tally;
        (text, alarms)
    }

    /// How many lines have a key that is not read, or stand before the first entity.
    pub fn skipped(&self) -> u64
        ensures { result ≡ (configuration_of self.now).skipped }
    {
        self.tally.skipped
    }
}
