ghost use Rattle.std.specs.Prelude.{◌≡◌};
ghost use Rattle.feed.specs.Kinds.{body_length_lem};

// How many bytes follow the letter of a kind; none where the letter is no kind.
pub fn body_length(kind: char) -> Option<usize>
    ensures { result ≡ body_length_lem kind }
{
    match kind {
        'z' | 'n' | 'p' | 't' => Some(0),
        'm' => Some(1),
        'e' | 'c' | 'f' | 'b' | 'y' | 'o' | 'u' => Some(2),
        'a' => Some(4),
        'w' | 's' => Some(6),
        _ => None,
    }
}
