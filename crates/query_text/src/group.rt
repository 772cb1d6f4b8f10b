ghost use Rattle.std.specs.Prelude.{◌≡◌};
ghost use Rattle.query_text.specs.Asked.{group_read};

use crate::fault::QueryFault;
use query_engine::Group;

/// The group that a word names.
pub fn read_group(word: &str) -> Result<Group, QueryFault>
    ensures { result ≡ group_read word.now }
{
    match word {
        "average" => Ok(Group::Average),
        "min" => Ok(Group::Min),
        "max" => Ok(Group::Max),
        "sum" => Ok(Group::Sum),
        "count" => Ok(Group::Count),
        "anomaly-rate" => Ok(Group::AnomalyRate),
        _ => Err(QueryFault::BadGroup),
    }
}
