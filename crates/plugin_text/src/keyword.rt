ghost use Rattle.std.specs.Prelude.{◌≡◌};
ghost use Rattle.plugin_text.specs.Keyword.{keyword_of};

/// The first word of a line that says something to the agent.
#[derive(Clone, Copy, Debug, PartialEq, Eq)]
pub enum Keyword {
    Chart,
    Dimension,
    Begin,
    Set,
    End,
    Flush,
    Disable,
    Moment,
    Query,
}

/// The keyword that a word is, in capital letters.
pub fn keyword_of(word: &str) -> Option<Keyword>
    ensures { result ≡ keyword_of word.now }
{
    match word {
        "CHART" => Some(Keyword::Chart),
        "DIMENSION" => Some(Keyword::Dimension),
        "BEGIN" => Some(Keyword::Begin),
        "SET" => Some(Keyword::Set),
        "END" => Some(Keyword::End),
        "FLUSH" => Some(Keyword::Flush),
        "DISABLE" => Some(Keyword::Disable),
        "MOMENT" => Some(Keyword::Moment),
        "QUERY" => Some(Keyword::Query),
        _ => None,
    }
}
