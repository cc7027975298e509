// The words that begin a statement.
ghost use Rattle.std.specs.Prelude.{◌≡◌};
ghost use Rattle.point_programs.specs.Reading.{keyword_of, keyword_text};

/// The word that begins a statement.
#[derive(Clone, Copy)]
pub(crate) enum Keyword {
    Set,
    Say,
    Stop,
    If,
}

const KEYWORDS: [Keyword; 4] = [Keyword::Set, Keyword::Say, Keyword::Stop, Keyword::If];

fn text_of(keyword: Keyword) -> &'static str
    ensures { result.now ≡ keyword_text keyword }
{
    match keyword {
        Keyword::Set => "set",
        Keyword::Say => "say",
        Keyword::Stop => "stop",
        Keyword::If => "if",
    }
}

/// The keyword that this word is.
#[tactic(auto, unfolding(crate::specs::Reading::keyword_of))]
pub(crate) fn keyword_from(word: &[u8]) -> Option<Keyword>
    ensures { result ≡ keyword_of word.now }
{
    KEYWORDS
        .iter()
        .copied()
        .find(|keyword| text_of(*keyword).as_bytes() == word)
}
