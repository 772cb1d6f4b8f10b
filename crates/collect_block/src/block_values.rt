ghost use Rattle.std.specs.Prelude.{◌≡◌, ◌<◌, ◌-◌, ℕ, true, [], bit_and, length, not, filter, position, IfOk, OnOk, OnErr};
ghost use Rattle.history.specs.Looking.{is_value, same_value, set_value};
ghost use Rattle.history.specs.Put.{put};
ghost use Rattle.collect_block.specs.Marks.{mark_of, has_bit, AreMarksOf, AreSeen};

use fixed_num::{ListOf, Text};
use history::{MOST_DIMENSIONS_OF_CHART, OpenValue, OpenValueList};
use std::alloc::{AllocError, Global};
use std::marker::Model;

/// How many bits a table of marks has for each value.
const BITS_A_VALUE: usize = 8;

/// The bits of the smallest table of marks.
const FEWEST_BITS: usize = 16;

/// For how many values a table of marks has bits at most.
const MOST_VALUES: usize = MOST_DIMENSIONS_OF_CHART as usize;

/// Which marks there were: each sets a bit, which some marks share.
#[derive(Drop)]
struct MarkTable {
    bits: Vec<bool>,
}

impl Model for MarkTable {
    ghost use Rattle.std.specs.Prelude.{◌<◌, Bool, List, vec_len};

    ghost Value = { List Bool };

    ghost view = { λ table. table.bits.items };

    ghost invariant = { λ table. 0 < vec_len table.bits };
}

impl MarkTable {
    // No marks, and bits enough for so many.
    fn with_room(alloc: Global, room: usize) -> Result<MarkTable, AllocError> {
        let bits = vec![in alloc; false; bits_for(room)]?;
        Ok(MarkTable { bits })
    }

    // Whether the bit of a mark is set. Where it is not, the mark was never added.
    #[tactic(auto, unfolding(crate::specs::Marks::has_bit))]
    fn may_have(&self, mark: u32) -> bool
        ensures { result ≡ has_bit self.now mark }
    {
        let bits = self.bits.as_slice();
        bits[bit_of(bits, mark)]
    }

    // Sets the bit of a mark.
    fn add(&mut self, mark: u32)
        ensures own { has_bit self.new mark ≡ true }
        ensures others { (other : ℕ) → has_bit self.old other ≡ true
            → has_bit self.new other ≡ true }
    {
        let bit = bit_of(self.bits.as_slice(), mark);
        self.bits[bit] = true;
    }
}

// How many bits a table for so many values has: a power of two.
fn bits_for(room: usize) -> usize
    ensures { 0 < result }
{
    let bits = room.min(MOST_VALUES) * BITS_A_VALUE;
    bits.max(FEWEST_BITS).next_power_of_two()
}

// Which bit a mark sets.
#[tactic(auto, using(std::proofs::lemmas::Nat::and_le_r))]
fn bit_of(bits: &[bool], mark: u32) -> usize
    requires { 0 < length bits.now }
    ensures bit { result ≡ bit_and mark (length bits.now - 1) }
    ensures within { result < length bits.now }
{
    mark as usize & (bits.len() - 1)
}

/// The values of an open block, each dimension once. Beside each stands a short mark of its id: texts are
/// compared only where marks are equal. The marks are looked through only where `seen` may have that of the
/// id: it has those of all values that are or were in the block.
#[derive(Drop)]
pub(crate) struct BlockValues {
    seen: MarkTable,
    marks: Vec<u32>,
    values: Vec<OpenValue>,
}

impl Model for BlockValues {
    ghost use Rattle.std.specs.Prelude.{List};
    ghost use Rattle.history.specs.declared.beat.OpenValue.{OpenValue as SetValue};
    ghost use Rattle.collect_block.specs.Marks.{AreMarksOf, AreSeen};

    ghost Value = { List SetValue };

    ghost view = { λ block. block.values.items };

    ghost invariant = { λ block. AreMarksOf block.marks.items block.values.items
        × AreSeen block.seen block.marks.items };
}

impl BlockValues {
    /// No values, and room for so many.
    pub(crate) fn with_room(alloc: Global, room: usize) -> Result<BlockValues, AllocError>
        ensures { IfOk result (λ block. block ≡ []) }
    {
        let seen = MarkTable::with_room(alloc, room)?;
        let marks = Vec::with_capacity(alloc, room)?;
        let values = Vec::with_capacity(alloc, room)?;
        Ok(BlockValues {
            seen,
            marks,
            values,
        })
    }

    /// Sets a dimension, or leaves it not set where there is no value. After an `Err` all is as before.
    pub(crate) fn set(
        &mut self,
        id: Text,
        value: Option<i64>,
        anomalous: bool,
    ) -> Result<(), AllocError>
        ensures ok { OnOk result (self.new ≡ set_value self.old id value anomalous) }
        ensures err { OnErr result (self.new ≡ self.old) }
    {
        match value {
            Some(value) => {
                let value = OpenValue {
                    id,
                    value,
                    anomalous,
                };
                put_value(&mut self.seen, &mut self.marks, &mut self.values, value)
            }
            None => {
                drop_value(&self.seen, &mut self.marks, &mut self.values, id.as_str());
                Ok(())
            }
        }
    }

    /// The values, in the order in which each was first set.
    pub(crate) fn into_list(self) -> OpenValueList
        ensures { result ≡ self }
    {
        ListOf::from_vec(self.values)
    }
}

// A short mark of an id.
#[tactic(auto, unfolding(crate::specs::Marks::mark_of))]
fn mark_of(id: &str) -> u32
    ensures { result ≡ mark_of id.now }
{
    id.bytes().fold(0, |mark: u32, byte| {
        mark.wrapping_mul(31).wrapping_add(u32::from(byte))
    })
}

// Where the value of the dimension with this id and mark stands.
fn place_of(
    seen: &MarkTable,
    marks: &[u32],
    values: &[OpenValue],
    mark: u32,
    id: &str,
) -> Option<usize>
    requires marked { AreMarksOf marks.now values.now }
    requires seen { AreSeen seen.now marks.now }
    requires mark { mark ≡ mark_of id.now }
    ensures { result ≡ position (is_value id.now) values.now }
{
    if !seen.may_have(mark) {
        return None;
    }
    for (place, other) in marks.iter().enumerate() {
        if mark == *other && id == values[place].id.as_str() {
            return Some(place);
        }
    }
    None
}

// Keeps a value, in the place of an earlier one of the same dimension.
fn put_value(
    seen: &mut MarkTable,
    marks: &mut Vec<u32>,
    values: &mut Vec<OpenValue>,
    value: OpenValue,
) -> Result<(), AllocError>
    requires marked { AreMarksOf marks.old.items values.old.items }
    requires seen { AreSeen seen.old marks.old.items }
    ensures marked { AreMarksOf marks.new.items values.new.items }
    ensures seen { AreSeen seen.new marks.new.items }
    ensures ok { OnOk result (values.new.items ≡ put same_value values.old.items value) }
    ensures err { OnErr result (values.new.items ≡ values.old.items) }
{
    let mark = mark_of(value.id.as_str());
    match place_of(
        seen,
        marks.as_slice(),
        values.as_slice(),
        mark,
        value.id.as_str(),
    ) {
        Some(place) => {
            values[place] = value;
            Ok(())
        }
        None => {
            values.reserve(1)?;
            marks.push(mark)?;
            seen.add(mark);
            values.push(value).unwrap();
            Ok(())
        }
    }
}

// Drops the value of a dimension.
fn drop_value(seen: &MarkTable, marks: &mut Vec<u32>, values: &mut Vec<OpenValue>, id: &str)
    requires marked { AreMarksOf marks.old.items values.old.items }
    requires seen { AreSeen seen.now marks.old.items }
    ensures marked { AreMarksOf marks.new.items values.new.items }
    ensures seen { AreSeen seen.now marks.new.items }
    ensures dropped { values.new.items
        ≡ filter (λ value. not (is_value id.now value)) values.old.items }
{
    let mark = mark_of(id);
    while let Some(place) = place_of(seen, marks.as_slice(), values.as_slice(), mark, id) {
        marks.remove(place);
        values.remove(place);
    }
}
