use fixed_num::Text;
use history::OpenBeat;

/// What a line leads to.
#[derive(Debug, Drop)]
pub enum Step {
    /// Nothing yet.
    Nothing,
    /// The open beat is closed at this moment.
    Beat(OpenBeat, u32),
    /// A question, with what follows the first word of its line.
    Query(Text),
    /// The text ends here for good.
    Disabled,
}
