ghost use Rattle.std.specs.Prelude.{◌≡◌, ◌↔◌, ℕ, List, IsTrue, MatchOption, ◌∷◌, []};
ghost use Rattle.command_language.specs.Command.{texts};

/// The two words behind this one, if the words are just these.
pub fn two_words<'a>(words: &'a [String], wanted: &str) -> Option<(&'a str, &'a str)>
    ensures { MatchOption result
        ((a b : List ℕ) → texts words.now ≡ wanted.now ∷ a ∷ b ∷ [] → ⊥)
        (λ found. texts words.now ≡ wanted.now ∷ found.0.now ∷ found.1.now ∷ []) }
{
    match words {
        [word, a, b] if is_the_word(word.as_str(), wanted) => Some((a.as_str(), b.as_str())),
        _ => None,
    }
}

/// The three words behind this one, if the words are just these.
pub fn three_words<'a>(words: &'a [String], wanted: &str) -> Option<(&'a str, &'a str, &'a str)>
    ensures { MatchOption result
        ((a b c : List ℕ) → texts words.now ≡ wanted.now ∷ a ∷ b ∷ c ∷ [] → ⊥)
        (λ found. texts words.now ≡ wanted.now ∷ found.0.now ∷ found.1.now ∷ found.2.now ∷ []) }
{
    match words {
        [word, a, b, c] if is_the_word(word.as_str(), wanted) => {
            Some((a.as_str(), b.as_str(), c.as_str()))
        }
        _ => None,
    }
}

/// The four words behind this one, if the words are just these.
pub fn four_words<'a>(
    words: &'a [String],
    wanted: &str,
) -> Option<(&'a str, &'a str, &'a str, &'a str)>
    ensures { MatchOption result
        ((a b c d : List ℕ) → texts words.now ≡ wanted.now ∷ a ∷ b ∷ c ∷ d ∷ [] → ⊥)
        (λ found. texts words.now ≡ wanted.now ∷ found.0.now ∷ found.1.now ∷ found.2.now ∷ found.3.now ∷ []) }
{
    match words {
        [word, a, b, c, d] if is_the_word(word.as_str(), wanted) => {
            Some((a.as_str(), b.as_str(), c.as_str(), d.as_str()))
        }
        _ => None,
    }
}

/// The five words behind this one, if the words are just these.
pub fn five_words<'a>(
    words: &'a [String],
    wanted: &str,
) -> Option<(&'a str, &'a str, &'a str, &'a str, &'a str)>
    ensures { MatchOption result
        ((a b c d e : List ℕ) → texts words.now ≡ wanted.now ∷ a ∷ b ∷ c ∷ d ∷ e ∷ [] → ⊥)
        (λ found. texts words.now ≡ wanted.now ∷ found.0.now ∷ found.1.now ∷ found.2.now ∷ found.3.now ∷ found.4.now ∷ []) }
{
    match words {
        [word, a, b, c, d, e] if is_the_word(word.as_str(), wanted) => {
            Some((a.as_str(), b.as_str(), c.as_str(), d.as_str(), e.as_str()))
        }
        _ => None,
    }
}

/// The six words behind this one, if the words are just these.
pub fn six_words<'a>(
    words: &'a [String],
    wanted: &str,
) -> Option<(&'a str, &'a str, &'a str, &'a str, &'a str, &'a str)>
    ensures { MatchOption result
        ((a b c d e f : List ℕ) → texts words.now ≡ wanted.now ∷ a ∷ b ∷ c ∷ d ∷ e ∷ f ∷ [] → ⊥)
        (λ found. texts words.now ≡ wanted.now ∷ found.0.now ∷ found.1.now ∷ found.2.now ∷ found.3.now ∷ found.4.now ∷ found.5.now ∷ []) }
{
    match words {
        [word, a, b, c, d, e, f] if is_the_word(word.as_str(), wanted) => {
            Some((
                a.as_str(),
                b.as_str(),
                c.as_str(),
                d.as_str(),
                e.as_str(),
                f.as_str(),
            ))
        }
        _ => None,
    }
}

fn is_the_word(word: &str, wanted: &str) -> bool
    ensures { IsTrue result ↔ (word.now ≡ wanted.now) }
{
    word == wanted
}
