ghost use Rattle.std.specs.Prelude.{◌≡◌, length, IfOk};
ghost use Rattle.replication.specs.Answer.{AreNames, AreBeatsOf, HaveWords};
ghost use Rattle.replication.specs.Copies.{RisesFrom};
ghost use Rattle.replication.specs.Names.{beat_moment};

use fixed_num::Text;
use replication::{
    Ask, Beat, BeatList, ChartName, ChartNameList, Child, Data, DimName, DimNameList, Names,
    SeriesWord, SeriesWordList,
};
use std::alloc::Global;
use std::test::Fail;

fn chart(alloc: Global, id: &str, every: u32) -> Result<ChartName, Fail> {
    Ok(ChartName {
        id: Text::from_str(alloc, id)?,
        context: Text::new(alloc),
        update_every: every,
    })
}

fn dimension(alloc: Global, chart: u32, id: &str, hidden: bool) -> Result<DimName, Fail>
    ensures { IfOk result (λ dimension. dimension.chart ≡ chart) }
{
    Ok(DimName {
        chart,
        id: Text::from_str(alloc, id)?,
        hidden,
    })
}

/// Charts z and a, with a dimension each.
fn two_names(alloc: Global) -> Result<Names, Fail>
    ensures names { IfOk result (λ names. AreNames names) }
    ensures count { IfOk result (λ names. length names.dimensions ≡ 2) }
{
    let mut charts = ChartNameList::new(alloc);
    charts.push(chart(alloc, "z.one", 2)?)?;
    charts.push(chart(alloc, "a.one", 5)?)?;
    let mut dimensions = DimNameList::new(alloc);
    dimensions.push(dimension(alloc, 0, "unused", false)?)?;
    dimensions.push(dimension(alloc, 1, "second", true)?)?;
    Ok(Names { charts, dimensions })
}

fn word(series: u32, word: u32) -> SeriesWord
    ensures { result ≡ record { series = series; word = word } }
{
    SeriesWord { series, word }
}

/// Beats at 2 and 4, the first of the first dimension, and the other of the second.
fn two_beats(alloc: Global) -> Result<BeatList, Fail>
    ensures rises { IfOk result (λ beats. RisesFrom beat_moment 0 beats) }
    ensures series { IfOk result (λ beats. AreBeatsOf 2 beats) }
    ensures words { IfOk result (λ beats. HaveWords beats) }
{
    let mut first = SeriesWordList::new(alloc);
    first.push(word(0, 10))?;
    let mut second = SeriesWordList::new(alloc);
    second.push(word(1, 21))?;
    let mut beats = BeatList::new(alloc);
    beats.push(Beat {
        moment: 2,
        words: first,
    })?;
    beats.push(Beat {
        moment: 4,
        words: second,
    })?;
    Ok(beats)
}

/// What the child 7 with these beats and the floor 4 answers.
fn answer_of(alloc: Global, last: u32) -> Result<Option<Data>, Fail> {
    let names = two_names(alloc)?;
    let beats = two_beats(alloc)?;
    let ask = Ask { child: 7, last };
    Ok(Child::answer(alloc, 7, 4, &names, &beats, &ask)?)
}

/// Whether these are the names of the second dimension alone.
fn are_of_second(names: &Names) -> bool {
    let [chart] = names.charts.as_slice() else {
        return false;
    };
    let [dimension] = names.dimensions.as_slice() else {
        return false;
    };
    let named = chart.id.as_str() == "a.one" && dimension.id.as_str() == "second";
    named && chart.update_every == 5 && dimension.chart == 0 && dimension.hidden
}

/// Whether this is the beat at 4 alone, with the place of its dimension among those of the answer.
fn is_second(beats: &BeatList) -> bool {
    match beats.as_slice() {
        [beat] => beat.moment == 4 && beat.words.as_slice() == [word(0, 21)].as_slice(),
        _ => false,
    }
}

#[test]
fn an_answer_has_what_its_beats_use(rt: HostRuntime) -> Result<(), Fail> {
    let Some(data) = answer_of(rt.alloc(), 2)? else {
        assert!(rt; false, "no answer");
        return Ok(());
    };
    assert_eq!(rt; (data.child, data.prev, data.from), (7, 2, 3));
    assert_eq!(rt; (data.upto, data.floor), (4, 4));
    assert!(rt; are_of_second(&data.names));
    assert!(rt; is_second(&data.beats));
    Ok(())
}

#[test]
fn nothing_above_is_no_answer(rt: HostRuntime) -> Result<(), Fail> {
    assert!(rt; answer_of(rt.alloc(), 4)?.is_none());
    Ok(())
}
