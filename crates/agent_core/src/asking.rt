//! What a history answers to a parent that asks for its beats.
//!
//! The answer is a frame whatever database it is of: a point whose word is no storage number, that is of no series or
//! out of order is left out, and so is a beat without points. A history has no such points and beats. Of the names of
//! its registry only those are copied that the beats use.

ghost use Rattle.std.specs.Prelude.{◌≡◌, ℕ, ◌^◌, ◌<◌, ◌++◌, ◌&&◌, nat_le, nat_lt, None, List, length, map, IfOk, IfErr, IfSome, IsTrue, OnOk};
ghost use Rattle.std.specs.List.{AllByRecursion};
ghost use Rattle.storage_number.specs.Word.{is_word};
ghost use Rattle.host_model.specs.Past.{Event};
ghost use Rattle.history.specs.History.{Beat as HistoryBeat, registry_of};
ghost use Rattle.history.specs.Registry.{same_chart, same_dimension};
ghost use Rattle.history.specs.Regular.{AreApart};
ghost use Rattle.beat_tiers.specs.Above.{RiseAbove};
ghost use Rattle.tier_settings.specs.declared.settings.Settings.{Settings as ASettings};
ghost use Rattle.field_codec.specs.Lists.{IsShortListOf};
ghost use Rattle.replication.specs.declared.ask.Ask.{Ask as AnAsk};
ghost use Rattle.replication.specs.Answer.{data_of, from_of};
ghost use Rattle.replication.specs.Copies.{RisesFrom};
ghost use Rattle.replication.specs.Names.{beat_moment};
ghost use Rattle.link_frames.specs.declared.frame.Frame.TheVariants as frame;
ghost use Rattle.link_frames.specs.Children.{KeepsRules};
ghost use Rattle.link_frames.specs.Fields.{FitsBeat, FitsWord};
ghost use Rattle.link_frames.specs.Frames.{HasSpelling};
ghost use Rattle.agent_core.specs.Asking.{beat_with, AreSendable, IsSendable};
ghost use Rattle.agent_core.specs.Copies.{data_of_history, names_of, sent_beat, sent_word};
ghost use Rattle.agent_core.specs.Stands.{HoldsHistory};
ghost use Rattle.agent_core.specs.Rules.{HasLimits};

use crate::fault::AgentFault;
use crate::used::{placed_beats, used_names, used_series};
use chart_registry::Registry;
use host_model::Host;
use replication::{
    Ask, BEAT_LIMIT, Beat, BeatList, Child, CopyFault, Data, Names, SeriesWord, SeriesWordList,
};
use std::alloc::Global;
use storage_number::is_word;
use store_core::{KeptBeat, KeptBeatList, KeptPoint, Store};

/// Whether a point may be sent behind others, where its series may be from `least` on and below `series`.
fn may_follow(least: u32, series: u32, point: &KeptPoint) -> bool
    ensures value { result ≡ (nat_le least point.now.series && nat_lt point.now.series series
        && is_word point.now.word) }
    ensures small { IsTrue result → point.now.word < 2 ^ 32 }
{
    least <= point.series && point.series < series && is_word(point.word)
}

/// The words of the points that may be sent, where there are so many series.
fn sent_words(alloc: Global, series: u32, points: &[KeptPoint]) -> Result<SeriesWordList, CopyFault>
    ensures sendable { IfOk result (AreSendable series) }
    ensures fits { IfOk result (IsShortListOf FitsWord) }
    ensures all { IfOk result (λ words. AreSendable series (map sent_word points.now)
        → words ≡ map sent_word points.now) }
{
    let mut words = SeriesWordList::new(alloc);
    let mut least = 0;
    for point in points {
        if may_follow(least, series, point) {
            words.push(SeriesWord {
                series: point.series,
                word: point.word,
            })?;
            least = point.series + 1;
        }
    }
    Ok(words)
}

/// Adds a beat, if it has words.
fn add_beat(beats: &mut BeatList, moment: u32, words: SeriesWordList) -> Result<(), CopyFault>
    ensures { OnOk result (beats.new ≡ beats.old ++ beat_with moment words) }
{
    if words.is_empty() {
        return Ok(());
    }
    beats.push(Beat { moment, words })?;
    Ok(())
}

/// The beats that may be sent, where there are so many series.
fn sent_beats(alloc: Global, series: u32, kept: &[KeptBeat]) -> Result<BeatList, CopyFault>
    requires { RiseAbove 0 kept.now }
    ensures sendable { IfOk result (AllByRecursion (IsSendable series)) }
    ensures fits { IfOk result (AllByRecursion FitsBeat) }
    ensures rises { IfOk result (RisesFrom beat_moment 0) }
    ensures all { IfOk result (λ beats. AllByRecursion (IsSendable series) (map sent_beat kept.now)
        → beats ≡ map sent_beat kept.now) }
{
    let mut beats = BeatList::new(alloc);
    for beat in kept {
        let words = sent_words(alloc, series, beat.points.as_slice())?;
        add_beat(&mut beats, beat.moment, words)?;
    }
    Ok(beats)
}

/// The beats that may be sent, with the names that they use and the new places of their series.
fn sent(
    alloc: Global,
    registry: &Registry,
    kept: &KeptBeatList,
) -> Result<(Names, BeatList), CopyFault>
    requires charts { AreApart same_chart registry.now.charts }
    requires dimensions { AreApart same_dimension registry.now.dimensions }
    requires limits { HasLimits registry.now }
    requires rises { RiseAbove 0 kept.now }

    // An answer is the same as from the names of all series.
    ensures same { IfOk result (λ sent.
        AllByRecursion (IsSendable (length registry.now.dimensions)) (map sent_beat kept.now)
        → (child floor : ℕ) (ask : AnAsk) → data_of child floor sent.0 sent.1 ask
        ≡ data_of child floor (names_of registry.now) (map sent_beat kept.now) ask) }
    ensures rules { IfOk result (λ sent. KeepsRules sent.0 sent.1) }
{
    let sendable = sent_beats(alloc, registry.dimensions(), kept.as_slice())?;
    let beats = sendable.as_slice();
    let used = used_series(alloc, beats)?;
    let series = used.as_slice();
    let names = used_names(alloc, registry, series)?;
    let placed = placed_beats(alloc, series, beats)?;
    Ok((names, placed))
}

/// The answer of a history with this number, floor and registry, by the first of its kept beats above where the
/// answer begins. None without more ado where there are none.
fn answer_by(
    alloc: Global,
    child: u64,
    floor: u32,
    registry: &Registry,
    kept: &KeptBeatList,
    ask: Ask,
) -> Result<Option<Data>, CopyFault>
    requires charts { AreApart same_chart registry.now.charts }
    requires dimensions { AreApart same_dimension registry.now.dimensions }
    requires limits { HasLimits registry.now }
    requires rises { RiseAbove 0 kept.now }
    requires small { ask.last < 2 ^ 32 }
    ensures answered { IfOk result (λ answer.
        AllByRecursion (IsSendable (length registry.now.dimensions)) (map sent_beat kept.now)
        → answer ≡ data_of child floor (names_of registry.now) (map sent_beat kept.now) ask) }
    ensures form { IfOk result
        (λ answer. IfSome answer (λ message. HasSpelling (frame.Data message))) }
    ensures asked { IfOk result (λ answer. IfSome answer
        (λ message. (message.child ≡ child) × (message.prev ≡ ask.last))) }
{
    if kept.is_empty() {
        return Ok(None);
    }
    let (names, beats) = sent(alloc, registry, kept)?;
    Child::answer(alloc, child, floor, &names, &beats, &ask)
}

/// Above which moment an answer begins: what was asked for, or one below the floor.
fn from_of(floor: u32, last: u32) -> u32
    ensures { result ≡ from_of floor last }
{
    last.max(floor.saturating_sub(1))
}

/// What a history answers to a parent that asks for the beats above a moment. None without more ado where another
/// history is asked.
pub(crate) fn answer<H: Host>(
    alloc: Global,
    store: &mut Store,
    registry: &Registry,
    host: &mut H,
    ask: &Ask,
) -> Result<Option<Data>, AgentFault>
    requires going { store.old.fault ≡ None }
    requires charts { AreApart same_chart registry.now.charts }
    requires dimensions { AreApart same_dimension registry.now.dimensions }
    requires limits { HasLimits registry.now }
    ensures answered { IfOk result
        (λ answer. (past : List Event) (set : ASettings) (h : List HistoryBeat)
        → HoldsHistory past store.old set h → registry.now ≡ registry_of h
        → answer ≡ data_of_history set h ask.now) }

    // Whatever database it is of, it is a frame, of this history, that begins where it was asked.
    ensures form { IfOk result
        (λ answer. IfSome answer (λ message. HasSpelling (frame.Data message))) }
    ensures asked { IfOk result (λ answer. IfSome answer
        (λ message. (message.child ≡ store.old.body.settings.id) × (message.prev ≡ ask.now.last))) }
    ensures store { store.new ≡ store.old }
    ensures host { H.seen host.new ≡ H.seen host.old }
    ensures memory { IfErr result (λ fault. fault ≡ AgentFault.Memory) }
{
    let child = store.settings().id;
    if ask.child != child {
        return Ok(None);
    }
    let floor = store.floor(0);
    let kept = store.kept_above(host, from_of(floor, ask.last), BEAT_LIMIT)?;
    Ok(answer_by(alloc, child, floor, registry, &kept, *ask)?)
}
