ghost use Rattle.std.specs.Prelude.{ℕ, ◌↔◌, List};
ghost use Rattle.fixed_num.specs.declared.units.Record.{Record as TheRecord};
ghost use Rattle.page_buffer.specs.Slots.{AreSlots, IsPushed};
ghost use Rattle.page_buffer.specs.Records.{AreRecords, IsPushed as AreRecordsPushed};

/// The law of slots: pushes make each list of slots of a page, and no other list. It does nothing.
pub fn pushes_make_all_slots()
    ensures { (series first step : ℕ) (words : List ℕ)
        → AreSlots first step words ↔ IsPushed series first step words }
{}

/// The law of records: pushes make each list of records of a page, and no other list. It does nothing.
pub fn pushes_make_all_records()
    ensures { (series first step : ℕ) (items : List TheRecord)
        → AreRecords first step items ↔ AreRecordsPushed series first step items }
{}
