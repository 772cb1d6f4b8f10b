ghost use Rattle.std.specs.Prelude.{◌≡◌, ℕ, ◌+◌, ◌<◌, ◌≤◌, true, All, List, length, map};
ghost use Rattle.std.specs.List.{list_all};
ghost use Rattle.fixed_num.specs.declared.units.Record.{Record as ARecord};
ghost use Rattle.tier_settings.specs.declared.limits.TheConstants.{MOST_SERIES};
ghost use Rattle.beat_tiers.specs.declared.item.Item.{Item as AnItem};
ghost use Rattle.beat_tiers.specs.declared.item.Stepped.{Stepped as AStepped};
ghost use Rattle.beat_tiers.specs.Tiers.{AreOrdered};
ghost use Rattle.checkpoint_body.specs.declared.page.RecordPage.{RecordPage as ARecordPage};
ghost use Rattle.checkpoint_body.specs.declared.page.SlotPage.{SlotPage as ASlotPage};
ghost use Rattle.checkpoint_body.specs.Canonical.{is_record_page, is_slot_page};
ghost use Rattle.checkpoint_body.specs.Records.{EndsInTime as RecordsEndInTime, HasStep};
ghost use Rattle.checkpoint_body.specs.Slots.{EndsInTime as SlotsEndInTime};
ghost use Rattle.store_core.specs.disk.Holds.{page_of_records, page_of_slots};
ghost use Rattle.store_core.specs.disk.Next.{IsWritable};
ghost use Rattle.tier_settings.specs.declared.limits.TheConstants.{MOST_EXTENTS};
ghost use Rattle.store_core.specs.pages.Items.{HaveItems, HaveRecords};
ghost use Rattle.store_core.specs.pages.Pages.{AreRecordPagesOf, AreSlotPagesOf};

/// The laws of the pages of a segment. Two lists in their order that pages have are one. The pages
/// may be written as an extent into a slot of a tier whose segments are sealed once they have so
/// many items, where the segment has fewer than `MOST_SERIES` more. Pages that have the form of a
/// checkpoint's body end in time, and those of records have a step. It does nothing.
pub fn pages_determine_their_items()
    ensures one_order { (pages : List ASlotPage) (one other : List (AnItem AStepped))
        → AreOrdered one → AreOrdered other → HaveItems pages one → HaveItems pages other
        → one ≡ other }
    ensures one_order_of_records { (pages : List ARecordPage) (one other : List (AnItem ARecord))
        → AreOrdered one → AreOrdered other → HaveRecords pages one → HaveRecords pages other
        → one ≡ other }
    ensures writable { (most slot : ℕ) (items : List (AnItem AStepped)) (pages : List ASlotPage)
        → AreSlotPagesOf items pages → length items < most + MOST_SERIES → slot ≤ MOST_EXTENTS
        → IsWritable 0 most (record { slot = slot; pages = map page_of_slots pages }) }
    ensures writable_records { (tier width most slot : ℕ) (items : List (AnItem ARecord))
        (pages : List ARecordPage) → 0 < tier → AreRecordPagesOf tier width items pages
        → length items < most + MOST_SERIES → slot ≤ MOST_EXTENTS
        → IsWritable tier most (record { slot = slot; pages = map page_of_records pages }) }
    ensures ends_in_time { (pages : List ASlotPage) → list_all is_slot_page pages ≡ true
        → All SlotsEndInTime pages }
    ensures records_end_in_time { (width : ℕ) (pages : List ARecordPage)
        → list_all (is_record_page width) pages ≡ true → All RecordsEndInTime pages }
    ensures have_step { (width : ℕ) (pages : List ARecordPage)
        → list_all (is_record_page width) pages ≡ true → All HasStep pages }
{}
