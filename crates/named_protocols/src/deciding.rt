ghost use Rattle.settling.specs.Answers.{IsAnswerFor};
ghost use Rattle.named_laws.specs.Named.{HasHomes, source_of};

use closer_distributed::{CLOSER_DFLP, CLOSER_DPCP};
use closer_fmlp::CLOSER_FMLP_PLUS;
use closer_mpcp::CLOSER_MPCP;
use closer_spin::CLOSER_SPIN;
use dflp_protocol::Dflp;
use protocol_names::ProtocolName;
use protocol_programs::Written;
use request_windows::DPCP_WINDOWS;
use settling::{SettleStop, Settled, settle_by, settle_with};
use spin_protocol::Spin;
use sporadic_model::TaskSet;
use std::alloc::Global;
use std::thread::Threads;

/// The least bounds of the set under the protocol of this name, or steps that show that none fit, as `settle_with` of `settling` finds
/// them.
pub fn settle<R: Threads + Sync>(
    rt: &R,
    alloc: Global,
    set: &TaskSet,
    protocol: ProtocolName,
    allowance: u64,
) -> Result<Settled, SettleStop>
    requires suits { HasHomes protocol set.now }
    ensures { IsAnswerFor (source_of protocol set.now) allowance result }
{
    match protocol {
        ProtocolName::Base(base) => settle_by(rt, alloc, set, &Written(base), allowance),
        ProtocolName::Dflp => settle_with(rt, alloc, set, &Dflp, allowance),
        ProtocolName::Spin => settle_with(rt, alloc, set, &Spin, allowance),
        ProtocolName::DpcpWindows => settle_with(rt, alloc, set, &DPCP_WINDOWS, allowance),
        ProtocolName::FmlpPlusCloser => settle_with(rt, alloc, set, &CLOSER_FMLP_PLUS, allowance),
        ProtocolName::SpinCloser => settle_with(rt, alloc, set, &CLOSER_SPIN, allowance),
        ProtocolName::DpcpCloser => settle_with(rt, alloc, set, &CLOSER_DPCP, allowance),
        ProtocolName::DflpCloser => settle_with(rt, alloc, set, &CLOSER_DFLP, allowance),
        ProtocolName::MpcpCloser => settle_with(rt, alloc, set, &CLOSER_MPCP, allowance),
    }
}
