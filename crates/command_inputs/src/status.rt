ghost use Rattle.std.specs.Prelude.{◌≡◌};
ghost use Rattle.command_inputs.specs.Statuses.{number_of};

/// How a run of the program ended.
#[derive(Clone, Copy, Debug, PartialEq, Eq)]
pub enum Status {
    /// 0: done, or the answer is yes.
    Done,
    /// 1: the answer is no. The set isn't shown to be schedulable, the certificate is invalid, or a rule is broken.
    No,
    /// 2: the words have none of the known forms.
    RefusedWords,
    /// 3: an input is refused.
    RefusedInput,
    /// 4: a read or a write failed.
    Fault,
    /// 5: a program is too wide for exact numbers.
    Wide,
    /// 6: the programs need more units than the allowance.
    Allowance,
    /// 7: no memory is left.
    Memory,
}

impl Status {
    /// The exit status of the process.
    pub fn number(self) -> u8
        ensures { result ≡ number_of self }
    {
        match self {
            Status::Done => 0,
            Status::No => 1,
            Status::RefusedWords => 2,
            Status::RefusedInput => 3,
            Status::Fault => 4,
            Status::Wide => 5,
            Status::Allowance => 6,
            Status::Memory => 7,
        }
    }
}
