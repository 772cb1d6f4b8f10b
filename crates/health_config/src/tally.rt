//! The alarms of a text's entities.
ghost use Rattle.std.specs.Prelude.{◌≡◌, ◌<◌, ◌≤◌, ◌+◌, ◌^◌, [], ◌++◌, length, map, Ok, is_none, option_map, IfOk, IfErr, OnOk, MatchOption};
ghost use Rattle.std.specs.List.{prefix_len};
ghost use Rattle.std.specs.Option.{option_to_list};
ghost use Rattle.health_config.specs.declared.tally.TheConstants.{ENTITY_LIMIT};
ghost use Rattle.health_config.specs.Fault.{IsRefusalFor};
ghost use Rattle.health_config.specs.Key.{begins};
ghost use Rattle.health_config.specs.Draft.{draft_of};
ghost use Rattle.health_config.specs.Entity.{alarm_of};
ghost use Rattle.health_config.specs.Config as spec;
ghost use Rattle.health_config.specs.Config.{tally_of};
ghost use Rattle.health_config.specs.Sections.{sections};

use crate::draft::{Draft, read_draft};
use crate::entity::{AlarmList, Entity, alarm, read_name};
use crate::fault::ConfigFault;
use crate::key::begins;
use crate::lines::Line;
use fixed_num::Text;
use std::alloc::Global;

/// The most entities of a text.
const ENTITY_LIMIT: usize = 4096;

/// The alarms so far, and how many keys were skipped.
#[derive(Debug, Drop)]
pub struct Tally {
    pub alarms: AlarmList,
    pub skipped: u64,
}

/// How many lines stand before the first that begins an entity.
fn leading_len(lines: &[Line]) -> usize
    ensures len { result ≡ prefix_len (λ line. is_none (begins line.text)) lines.now }
    ensures within { result ≤ length lines.now }
{
    lines
        .iter()
        .take_while(|line| begins(line.text.as_slice()).is_none())
        .count()
}

/// Of lines that begin with an entity's, whether that is a template, its first line, and all lines behind
/// that.
fn first_entity(lines: &[Line]) -> Option<(bool, &Line, &[Line])>
    requires { (sections lines.now).prefix ≡ [] }
    ensures { MatchOption result (lines.now ≡ [])
        (λ found. spec.IsFound lines.now found.0 found.1.now found.2.now) }
{
    let (head, behind) = lines.split_first()?;
    match begins(head.text.as_slice()) {
        Some(template) => Some((template, head, behind)),
        None => None,
    }
}

/// Adds the alarm of an entity that gives one.
fn push_alarm(alarms: &mut AlarmList, alarm: Option<Entity>) -> Result<(), ConfigFault>
    ensures ok { OnOk result
        (map alarm_of alarms.new ≡ map alarm_of alarms.old ++ option_to_list
        (option_map alarm_of alarm)) }
    ensures memory { IfErr result (λ fault. fault ≡ ConfigFault.Memory) }
{
    match alarm {
        Some(entity) => alarms.push(entity).map_err(|_| ConfigFault::Memory),
        None => Ok(()),
    }
}

/// Adds what an entity is whose lines set this, by its name.
fn add_ended(
    alloc: Global,
    line: u64,
    name: Text,
    template: bool,
    draft: Draft,
    tally: &mut Tally,
) -> Result<(), ConfigFault>
    requires { tally.old.skipped + draft.skipped < 2 ^ 64 }
    ensures ok { OnOk result
        (spec.Adds (spec.ended line name template (draft_of draft)) (tally_of tally.old)
        (tally_of tally.new)) }
    ensures skipped { OnOk result (tally.new.skipped ≡ tally.old.skipped + draft.skipped) }
    ensures fault { IfErr result (IsRefusalFor (spec.ended line name template (draft_of draft))) }
{
    if draft.on.is_none() {
        return Err(ConfigFault::NoOn(line));
    }
    let skipped = draft.skipped;
    push_alarm(&mut tally.alarms, alarm(alloc, name, template, draft))?;
    tally.skipped += skipped;
    Ok(())
}

/// Adds the entity of a first line and of the lines up to the next, behind so many entities.
fn add_entity(
    alloc: Global,
    before: usize,
    template: bool,
    head: &Line,
    body: &[Line],
    tally: &mut Tally,
) -> Result<(), ConfigFault>
    requires { tally.old.skipped + length body.now < 2 ^ 63 }
    ensures ok { OnOk result (spec.Adds
        (spec.entity before (record { template = template; head = head.now; body = body.now }))
        (tally_of tally.old) (tally_of tally.new)) }
    ensures few { OnOk result (before < ENTITY_LIMIT) }
    ensures skipped { OnOk result (tally.new.skipped ≤ tally.old.skipped + length body.now) }
    ensures fault { IfErr result (IsRefusalFor
        (spec.entity before (record { template = template; head = head.now; body = body.now }))) }
{
    let name = match read_name(alloc, head.text.as_slice()) {
        Ok(name) => name,
        Err(fault) => return Err(fault.at(head.number)),
    };
    if before >= ENTITY_LIMIT {
        return Err(ConfigFault::TooManyAlarms(head.number));
    }
    let draft = read_draft(alloc, true, body)?;
    add_ended(alloc, head.number, name, template, draft, tally)
}

/// How many lines before the first entity have a key, which is skipped there.
fn read_prefix(alloc: Global, lines: &[Line]) -> Result<u64, ConfigFault>
    requires { length lines.now < 2 ^ 63 }
    ensures ok { IfOk result (λ skipped. spec.prefix_skipped lines.now ≡ Ok skipped) }
    ensures few { IfOk result (λ skipped. skipped ≤ length lines.now) }
    ensures fault { IfErr result (IsRefusalFor (spec.prefix_skipped lines.now)) }
{
    let draft = read_draft(alloc, false, lines)?;
    Ok(draft.skipped)
}

/// The alarms of lines that begin with an entity's, behind so many that were skipped.
fn read_entities(alloc: Global, skipped: u64, lines: &[Line]) -> Result<Tally, ConfigFault>
    requires here { (sections lines.now).prefix ≡ [] }
    requires few { skipped + length lines.now < 2 ^ 63 }
    ensures ok { IfOk result (λ tally. spec.then_entities (spec.none_but skipped)
        (spec.entities 0 (sections lines.now).groups) ≡ Ok (tally_of tally)) }
    ensures fault { IfErr result (IsRefusalFor (spec.then_entities (spec.none_but skipped)
        (spec.entities 0 (sections lines.now).groups))) }
{
    let mut tally = Tally {
        alarms: AlarmList::new(alloc),
        skipped,
    };
    let mut before = 0usize;
    let mut ahead = lines;
    while let Some((template, head, behind)) = first_entity(ahead) {
        let (body, next) = behind.split_at(leading_len(behind));
        add_entity(alloc, before, template, head, body, &mut tally)?;
        before += 1;
        ahead = next;
    }
    Ok(tally)
}

/// The alarms of lines. Of several refusals the first is told.
pub fn read_tally(alloc: Global, lines: &[Line]) -> Result<Tally, ConfigFault>
    requires { length lines.now < 2 ^ 62 }
    ensures ok { IfOk result (λ tally. spec.of_sections (sections lines.now)
        ≡ Ok (tally_of tally)) }
    ensures fault { IfErr result (IsRefusalFor (spec.of_sections (sections lines.now))) }
{
    let (prefix, rest) = lines.split_at(leading_len(lines));
    let skipped = read_prefix(alloc, prefix)?;
    read_entities(alloc, skipped, rest)
}
