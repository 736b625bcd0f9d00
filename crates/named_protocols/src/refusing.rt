ghost use Rattle.refusal_laws.specs.Steps.{HasDenominators};
ghost use Rattle.refusal_laws.specs.Seen.{steps_seen};
ghost use Rattle.named_laws.specs.Named.{HasHomes, source_of};
ghost use Rattle.named_protocols.specs.Refuted.{IsRefuted, IsConfirmed};

use closer_distributed::{CLOSER_DFLP, CLOSER_DPCP};
use closer_fmlp::CLOSER_FMLP_PLUS;
use closer_mpcp::CLOSER_MPCP;
use closer_spin::CLOSER_SPIN;
use dflp_protocol::Dflp;
use protocol_names::ProtocolName;
use protocol_programs::Written;
use refusal_cert::{Answer, RefuteStop};
use refusal_confirm::Fault;
use refusal_laws::Refusal;
use request_windows::DPCP_WINDOWS;
use spin_protocol::Spin;
use sporadic_model::TaskSet;
use std::alloc::Global;
use std::thread::Threads;

/// Under the protocol of this name: steps that show that no bounds fit, or that some do, as `refute` of `refusal_cert` finds it.
pub fn refute(
    alloc: Global,
    set: &TaskSet,
    protocol: ProtocolName,
    allowance: u64,
) -> Result<Answer, RefuteStop>
    requires suits { HasHomes protocol set.now }
    ensures { IsRefuted (source_of protocol set.now) allowance result }
{
    match protocol {
        ProtocolName::Base(base) => refusal_cert::refute(alloc, set, &Written(base), allowance),
        ProtocolName::Dflp => refusal_cert::refute(alloc, set, &Dflp, allowance),
        ProtocolName::Spin => refusal_cert::refute(alloc, set, &Spin, allowance),
        ProtocolName::DpcpWindows => refusal_cert::refute(alloc, set, &DPCP_WINDOWS, allowance),
        ProtocolName::FmlpPlusCloser => refusal_cert::refute(
            alloc,
            set,
            &CLOSER_FMLP_PLUS,
            allowance,
        ),
        ProtocolName::SpinCloser => refusal_cert::refute(alloc, set, &CLOSER_SPIN, allowance),
        ProtocolName::DpcpCloser => refusal_cert::refute(alloc, set, &CLOSER_DPCP, allowance),
        ProtocolName::DflpCloser => refusal_cert::refute(alloc, set, &CLOSER_DFLP, allowance),
        ProtocolName::MpcpCloser => refusal_cert::refute(alloc, set, &CLOSER_MPCP, allowance),
    }
}

/// Whether the refusal holds under the protocol of this name, as `confirm` of `refusal_confirm` judges it.
pub fn confirm<R: Threads + Sync>(
    rt: &R,
    alloc: Global,
    set: &TaskSet,
    protocol: ProtocolName,
    refusal: &Refusal,
) -> Result<(), Fault>
    requires suits { HasHomes protocol set.now }
    requires denominators { HasDenominators (steps_seen refusal.now) }
    ensures { IsConfirmed (source_of protocol set.now) (steps_seen refusal.now) result }
{
    match protocol {
        ProtocolName::Base(base) => refusal_confirm::confirm(
            rt,
            alloc,
            set,
            &Written(base),
            refusal,
        ),
        ProtocolName::Dflp => refusal_confirm::confirm(rt, alloc, set, &Dflp, refusal),
        ProtocolName::Spin => refusal_confirm::confirm(rt, alloc, set, &Spin, refusal),
        ProtocolName::DpcpWindows => refusal_confirm::confirm(
            rt,
            alloc,
            set,
            &DPCP_WINDOWS,
            refusal,
        ),
        ProtocolName::FmlpPlusCloser => refusal_confirm::confirm(
            rt,
            alloc,
            set,
            &CLOSER_FMLP_PLUS,
            refusal,
        ),
        ProtocolName::SpinCloser => refusal_confirm::confirm(rt, alloc, set, &CLOSER_SPIN, refusal),
        ProtocolName::DpcpCloser => refusal_confirm::confirm(rt, alloc, set, &CLOSER_DPCP, refusal),
        ProtocolName::DflpCloser => refusal_confirm::confirm(rt, alloc, set, &CLOSER_DFLP, refusal),
        ProtocolName::MpcpCloser => refusal_confirm::confirm(rt, alloc, set, &CLOSER_MPCP, refusal),
    }
}
