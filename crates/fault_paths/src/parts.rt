//! Paths, part by part.
ghost use Rattle.std.specs.Prelude.{◌≡◌, ◌≢◌, ◌∷◌, [], IfSome, MatchOption};
ghost use Rattle.certificate_laws.specs.Words.{cuts, cuts_behind};
ghost use Rattle.fault_paths.specs.Texts.{text_left, IsNoPath};

/// The first part of what is left of a path, and what is left behind it.
pub fn first_part(text: &str) -> (&str, Option<&str>)
    ensures { cuts text.now ≡ result.0.now ∷ cuts_behind (text_left result.1) }
{
    match text.split_once('/') {
        Some((part, after)) => (part, Some(after)),
        None => (text, None),
    }
}

/// What is left of a path at its beginning; none of a text that is no path.
pub fn opened(text: &str) -> Option<Option<&str>>
    ensures { MatchOption result (IsNoPath text.now) (λ left. text.now ≡ text_left left) }
{
    if text.is_empty() {
        return Some(None);
    }
    match text.strip_prefix('/') {
        Some(left) => Some(Some(left)),
        None => None,
    }
}
