//! Whether a name matches a word's text.
ghost use Rattle.std.specs.Prelude.{◌≡◌, ◌<◌, ℕ, false, List, ◌∷◌, ◌++◌, length, MatchOption};
ghost use Rattle.simple_pattern.specs.Glob.{star, is_match, any_end};
ghost use Rattle.simple_pattern.specs.Piece.{IsPlain, SplitsAtStar};

/// What stands before the first `*`, and what follows it.
fn split_at_star(glob: &str) -> Option<(&str, &str)>
    ensures { MatchOption result (IsPlain glob.now)
        (λ halves. SplitsAtStar glob.now halves.0.now halves.1.now) }
{
    glob.split_once('*')
}

/// What follows `piece` at the start of a name.
fn after_start<'a>(name: &'a str, piece: &str) -> Option<&'a str>
    requires { IsPlain piece.now }
    ensures { MatchOption result ((glob : List ℕ) → is_match (piece.now ++ glob) name.now ≡ false)
        (λ rest. (glob : List ℕ) → is_match (piece.now ++ glob) name.now ≡ is_match glob rest.now) }
{
    name.strip_prefix(piece)
}

/// What follows the first place in a name at which `piece` stands.
fn after_first<'a>(name: &'a str, piece: &str) -> Option<&'a str>
    requires { IsPlain piece.now }
    ensures { MatchOption result ((glob : List ℕ)
        → any_end (is_match (piece.now ++ star ∷ glob)) name.now ≡ false)
        (λ rest. (glob : List ℕ)
        → any_end (is_match (piece.now ++ star ∷ glob)) name.now
        ≡ any_end (is_match glob) rest.now) }
{
    let (_, rest) = name.split_once(piece)?;
    Some(rest)
}

/// Whether some end of a name matches.
fn is_end_match(glob: &str, name: &str) -> bool
    ensures { result ≡ any_end (is_match glob.now) name.now }
{
    let mut glob = glob;
    let mut name = name;
    while let Some((piece, more)) = split_at_star(glob) {
        let Some(rest) = after_first(name, piece) else {
            return false;
        };
        glob = more;
        name = rest;
    }
    name.ends_with(glob)
}

/// Whether a name matches a glob, in which `*` stands for any run of characters.
///
/// Each piece between two stars is looked for once, in what the piece before it left of the name: if
/// the rest can match at all, it does so behind the first place of the piece. So the cost is at most
/// the product of both lengths, whatever the number of stars.
pub fn is_match(glob: &str, name: &str) -> bool
    ensures { result ≡ is_match glob.now name.now }
{
    let Some((piece, more)) = split_at_star(glob) else {
        return name == glob;
    };
    let Some(rest) = after_start(name, piece) else {
        return false;
    };
    is_end_match(more, rest)
}
