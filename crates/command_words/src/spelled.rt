//! A law of words. The function does nothing: what it ensures holds for all words.

ghost use Rattle.std.specs.Prelude.{◌≡◌, ℕ, List, Some, option_map};
ghost use Rattle.protocol_names.specs.declared.ProtocolName.{ProtocolName};
ghost use Rattle.command_words.specs.Words.{Form, Analyse, Refute, Settle, Check, Confirm, Upgrade, Audit, form_of};
ghost use Rattle.command_words.specs.Spelled.{analyse_words, refute_words, settle_words, allowance_of, check_words};
ghost use Rattle.command_words.specs.Spelled.{confirm_words, upgrade_words, audit_words, IsSpelled};

/// Words have the form of `analyse`, `refute`, `settle`, `check`, `confirm`, `upgrade` or `audit` if they are typed like this, and
/// only then.
pub fn forms_are_spelled()
    ensures analyse { (protocol : ProtocolName) (set : List ℕ) (more : List (List ℕ))
        → form_of (analyse_words protocol set more) ≡ option_map (λ n. Analyse protocol set n) (allowance_of more) }
    ensures refute { (protocol : ProtocolName) (set : List ℕ) (more : List (List ℕ))
        → form_of (refute_words protocol set more) ≡ option_map (λ n. Refute protocol set n) (allowance_of more) }
    ensures settle { (protocol : ProtocolName) (set : List ℕ) (more : List (List ℕ))
        → form_of (settle_words protocol set more) ≡ option_map (λ n. Settle protocol set n) (allowance_of more) }
    ensures check { (protocol : ProtocolName) (set cert : List ℕ)
        → form_of (check_words protocol set cert) ≡ Some (Check protocol set cert) }
    ensures confirm { (protocol : ProtocolName) (set cert : List ℕ)
        → form_of (confirm_words protocol set cert) ≡ Some (Confirm protocol set cert) }
    ensures upgrade { (protocol : ProtocolName) (set cert : List ℕ)
        → form_of (upgrade_words protocol set cert) ≡ Some (Upgrade protocol set cert) }
    ensures audit { (protocol : ProtocolName) (set cert jobs rows : List ℕ)
        → form_of (audit_words protocol set cert jobs rows) ≡ Some (Audit protocol set cert jobs rows) }
    ensures only { (words : List (List ℕ)) (form : Form) → form_of words ≡ Some form → IsSpelled form words }
{}
