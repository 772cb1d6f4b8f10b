ghost use Rattle.std.specs.Prelude.{◌≡◌, ◌≢◌, ◌<◌, ◌≤◌, ◌*◌, ℕ, List, length, All, Some};
ghost use Rattle.field_codec.specs.Field.{IsBytes};
ghost use Rattle.checkpoint_body.specs.declared.body.Body.{Body as ABody};
ghost use Rattle.checkpoint_body.specs.declared.item.BucketRecord.{BucketRecord as ABucketRecord};
ghost use Rattle.checkpoint_body.specs.declared.item.Point.{Point as APoint};
ghost use Rattle.checkpoint_body.specs.Body.{body_bytes, read_body, HasSpelling};
ghost use Rattle.checkpoint_body.specs.Records.{record_pages, record_pages_size, records_of};
ghost use Rattle.checkpoint_body.specs.Size.{body_limit};
ghost use Rattle.checkpoint_body.specs.Slots.{points_of, slot_pages, slot_pages_size};

/// The laws of the pages of points: they give the points back, and have 28 bytes at most for each
/// of them: 24 for a page's head, or for six empty slots before a point, and 4 for the point's own
/// slot. It does nothing.
pub fn slot_pages_give_points_back()
    ensures back { (points : List APoint) → All (λ (point : APoint). point.word ≢ 0) points
        → points_of (slot_pages points) ≡ points }
    ensures size { (points : List APoint)
        → slot_pages_size (slot_pages points) ≤ 28 * length points }
{}

/// The laws of the pages of records: they give the records back, and have 80 bytes at most for each
/// of them: 24 for a page's head, and 56 for the record. It does nothing.
pub fn record_pages_give_records_back()
    ensures back { (width : ℕ) (items : List ABucketRecord) → 0 < width
        → records_of (record_pages width items) ≡ items }
    ensures size { (width : ℕ) (items : List ABucketRecord)
        → record_pages_size (record_pages width items) ≤ 80 * length items }
{}

/// The law of bodies: a spelling reads as its body, and what bytes read as has them as its
/// spelling. So two bodies never share a spelling. A spelling has as many bytes as the settings and
/// the side allow, at most. It does nothing.
pub fn bodies_round_trip()
    ensures reads_back { (b : ABody) → HasSpelling b → read_body (body_bytes b) ≡ Some b }
    ensures has_spelling { (b : ABody) (bytes : List ℕ) → IsBytes bytes
        → read_body bytes ≡ Some b → HasSpelling b }
    ensures is_spelt { (b : ABody) (bytes : List ℕ) → IsBytes bytes → read_body bytes ≡ Some b
        → bytes ≡ body_bytes b }
    ensures one_value { (a b : ABody) → HasSpelling a → HasSpelling b
        → body_bytes a ≡ body_bytes b → a ≡ b }
    ensures size { (b : ABody) → HasSpelling b
        → length (body_bytes b) ≤ body_limit b.settings (length b.side) }
{}
