ghost use Rattle.std.specs.Prelude.{ℕ, ◌+◌, ◌*◌, ◌<◌, ◌↔◌, [], unwrap_or};
ghost use Rattle.history.specs.Registry.{Registry as Definitions};
ghost use Rattle.query_engine.specs.declared.request.Request.{Request as ARequest};
ghost use Rattle.query_engine.specs.declared.table.Table.{Table as ATable};
ghost use Rattle.query_text.specs.Asked.{windows};
ghost use Rattle.query_text.specs.Replies.{HasOneLineIds, IsReply};
ghost use Rattle.query_text.specs.Told.{fault_text, table_text};
ghost use Rattle.query_text.specs.declared.fault.QueryFault.{QueryFault as AFault};

/// What the number of windows is, said for every span; the call does nothing. Just those windows are
/// counted that start below `before`.
pub fn windows_start_in_the_span()
    ensures { (after before window i : ℕ) → 0 < window
        → (i < windows after before window) ↔ (after + i * window < before) }
{}

/// What every reply looks like; the call does nothing. It is whole lines, and each begins with `ROWS `,
/// with `ERROR ` or with a digit. Of a table that holds where no id of a dimension has a line feed.
pub fn replies_are_whole_lines()
    ensures table { (registry : Definitions) (request : ARequest) (table : ATable)
        → HasOneLineIds registry → IsReply (table_text registry request table) }
    ensures fault { (fault : AFault) → IsReply (unwrap_or (fault_text fault) []) }
{}
