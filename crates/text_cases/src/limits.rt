//! The tests of `history`: the limits of definitions.

use fixed_num::Text;
use history::{
    Algorithm, ChartDef, ChartKind, DimDef, FACTOR_LIMIT, UPDATE_EVERY_LIMIT, is_chart_id, is_id,
};
use std::alloc::{AllocError, Global};
use std::test::Fail;

/// A text of so many bytes.
fn long(alloc: Global, size: usize) -> Result<String, AllocError> {
    let mut text = String::new(alloc);
    for _ in 0..size {
        text.push('x')?;
    }
    Ok(text)
}

#[test]
fn ids_have_a_form(rt: HostRuntime) -> Result<(), Fail> {
    let rows = [
        ("", false, false),
        ("a", true, false),
        ("a b", true, false),
        ("a\nb", false, false),
        (".", true, false),
        ("a.", true, false),
        (".b", true, false),
        ("..b", true, false),
        ("a.b", true, true),
        ("a.b.", true, true),
        ("a\n.b", false, false),
    ];
    for (text, id, chart_id) in rows {
        assert_eq!(rt; is_id(text), id, "at {text}");
        assert_eq!(rt; is_chart_id(text), chart_id, "at {text}");
    }
    assert!(rt; is_id(long(rt.alloc(), 200)?.as_str()));
    assert!(rt; !is_id(long(rt.alloc(), 201)?.as_str()));
    Ok(())
}

fn dimension(alloc: Global, id: &str, name: &str, factor: i32) -> Result<DimDef, AllocError> {
    Ok(DimDef {
        id: Text::from_str(alloc, id)?,
        name: Text::from_str(alloc, name)?,
        algorithm: Algorithm::Absolute,
        multiplier: 1,
        divisor: factor,
        hidden: false,
        noreset: false,
    })
}

fn chart(alloc: Global, id: &str, family: &str, every: u32) -> Result<ChartDef, AllocError> {
    Ok(ChartDef {
        id: Text::from_str(alloc, id)?,
        name: Text::new(alloc),
        title: Text::new(alloc),
        units: Text::new(alloc),
        family: Text::from_str(alloc, family)?,
        context: Text::new(alloc),
        kind: ChartKind::Line,
        priority: 1000,
        update_every: every,
        store_first: false,
    })
}

fn dimension_keeps(alloc: Global, id: &str, name: &str, factor: i32) -> Result<bool, AllocError> {
    let def = dimension(alloc, id, name, factor)?;
    Ok(def.keeps_limits())
}

fn chart_keeps(alloc: Global, id: &str, family: &str, every: u32) -> Result<bool, AllocError> {
    let def = chart(alloc, id, family, every)?;
    Ok(def.keeps_limits())
}

#[test]
fn dimensions_keep_limits(rt: HostRuntime) -> Result<(), Fail> {
    for (id, factor, keeps) in [
        ("a", -FACTOR_LIMIT, true),
        ("a", i32::MIN, false),
        ("", 1, false),
    ] {
        assert_eq!(rt; dimension_keeps(rt.alloc(), id, "", factor)?, keeps);
    }
    Ok(())
}

#[test]
fn charts_keep_limits(rt: HostRuntime) -> Result<(), Fail> {
    for (id, every, keeps) in [
        ("a.b", UPDATE_EVERY_LIMIT, true),
        ("a.b", UPDATE_EVERY_LIMIT + 1, false),
        ("a", 1, false),
    ] {
        assert_eq!(rt; chart_keeps(rt.alloc(), id, "", every)?, keeps);
    }
    Ok(())
}

#[test]
fn texts_of_definitions_keep_limits(rt: HostRuntime) -> Result<(), Fail> {
    let name = long(rt.alloc(), 201)?;
    assert!(rt; !dimension_keeps(rt.alloc(), "a", name.as_str(), 1)?);
    assert!(rt; !chart_keeps(rt.alloc(), "a.b", name.as_str(), 1)?);
    Ok(())
}
