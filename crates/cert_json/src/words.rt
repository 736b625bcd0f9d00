ghost use Rattle.std.specs.Prelude.{◌≡◌};
ghost use Rattle.cert_json.specs.Words.{is_verdict_word};

/// Is it the word of the verdict that every deadline is met?
pub(crate) fn is_verdict_word(word: &str) -> bool
    ensures { result ≡ is_verdict_word word.now }
{
    word == "schedulable"
}
