//! The protocols by their names: the words that a command or a certificate has for them.
#![tactic(auto)]

ghost use Rattle.std.specs.Prelude.{◌≡◌, List, ℕ, Some};
ghost use Rattle.protocol_names.specs.Names.{word_of, name_of, homes_as};

use sporadic_model::Protocol;

/// The name of a protocol: one for each that the program knows.
#[derive(Clone, Copy, Debug, PartialEq, Eq)]
pub enum ProtocolName {
    /// MPCP, FMLP+ or DPCP: a task set has a type of its own for these three.
    Base(Protocol),
    /// The distributed FIFO protocol.
    Dflp,
    /// FIFO spin locks, whose requests aren't preempted.
    Spin,
    /// DPCP, with a program that bounds what runs within each request's window.
    DpcpWindows,
    /// FMLP+, with the rows of the closer analysis.
    FmlpPlusCloser,
    /// FIFO spin locks, with the rows of the closer analysis.
    SpinCloser,
    /// DPCP, with the windows of requests and the rows of the closer analysis.
    DpcpCloser,
    /// The distributed FIFO protocol, with the rows of the closer analysis.
    DflpCloser,
    /// MPCP, with the rows of the closer analysis.
    MpcpCloser,
}

impl ProtocolName {
    /// Its word in commands and certificates.
    pub fn word(self) -> &'static str
        ensures { result.now ≡ word_of self }
    {
        match self {
            ProtocolName::Base(Protocol::Mpcp) => "mpcp",
            ProtocolName::Base(Protocol::FmlpPlus) => "fmlp+",
            ProtocolName::Base(Protocol::Dpcp) => "dpcp",
            ProtocolName::Dflp => "dflp",
            ProtocolName::Spin => "spin",
            ProtocolName::DpcpWindows => "dpcp-w",
            ProtocolName::FmlpPlusCloser => "fmlp+-c",
            ProtocolName::SpinCloser => "spin-c",
            ProtocolName::DpcpCloser => "dpcp-c",
            ProtocolName::DflpCloser => "dflp-c",
            ProtocolName::MpcpCloser => "mpcp-c",
        }
    }

    /// The protocol that asks a set for the same homes of resources.
    pub fn homes_as(self) -> Protocol
        ensures { result ≡ homes_as self }
    {
        match self {
            ProtocolName::Base(protocol) => protocol,
            ProtocolName::Dflp => Protocol::Dpcp,
            ProtocolName::Spin => Protocol::Mpcp,
            ProtocolName::DpcpWindows => Protocol::Dpcp,
            ProtocolName::FmlpPlusCloser => Protocol::FmlpPlus,
            ProtocolName::SpinCloser => Protocol::Mpcp,
            ProtocolName::DpcpCloser => Protocol::Dpcp,
            ProtocolName::DflpCloser => Protocol::Dpcp,
            ProtocolName::MpcpCloser => Protocol::Mpcp,
        }
    }
}

/// The protocol that a word names, or none.
pub fn protocol_named(word: &str) -> Option<ProtocolName>
    ensures { result ≡ name_of word.now }
{
    match word {
        "mpcp" => Some(ProtocolName::Base(Protocol::Mpcp)),
        "fmlp+" => Some(ProtocolName::Base(Protocol::FmlpPlus)),
        "dpcp" => Some(ProtocolName::Base(Protocol::Dpcp)),
        "dflp" => Some(ProtocolName::Dflp),
        "spin" => Some(ProtocolName::Spin),
        "dpcp-w" => Some(ProtocolName::DpcpWindows),
        "fmlp+-c" => Some(ProtocolName::FmlpPlusCloser),
        "spin-c" => Some(ProtocolName::SpinCloser),
        "dpcp-c" => Some(ProtocolName::DpcpCloser),
        "dflp-c" => Some(ProtocolName::DflpCloser),
        "mpcp-c" => Some(ProtocolName::MpcpCloser),
        _ => None,
    }
}

/// A law of the words: each protocol's word names it, and no other word does.
pub fn words_name_their_protocols()
    ensures named { (name : ProtocolName) → name_of (word_of name) ≡ Some name }
    ensures only { (word : List ℕ) (name : ProtocolName) → name_of word ≡ Some name → word ≡ word_of name }
{}
