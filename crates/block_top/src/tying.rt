//! Whether a certificate is of the set.

ghost use Rattle.std.specs.Prelude.{◌≡◌, ◌≢◌, ◌↔◌, IfOk, IsTrue, MatchOption};
ghost use Rattle.run_plans.specs.Commands.{other_set_answer};
ghost use Rattle.command_inputs.specs.Halts.{reply_seen};
ghost use Rattle.block_top.specs.Replying.{RepliesWith};

use cert_json::CertFile;
use command_inputs::{Reply, Status};
use reply_texts::other_set_line;
use std::alloc::{AllocError, Global};

/// The reply if a certificate is of another set.
pub(crate) fn other_set_reply(alloc: Global) -> Result<Reply, AllocError>
    ensures { RepliesWith result other_set_answer }
{
    Ok(Reply {
        status: Status::No,
        text: other_set_line(alloc)?,
    })
}

/// Are the two digests the same?
pub(crate) fn are_same(own: &[u8; 32], digest: &[u8; 32]) -> bool
    ensures { IsTrue result ↔ (own.now ≡ digest.now) }
{
    own.as_slice() == digest.as_slice()
}

/// The reply that the certificate isn't of the set of this digest. None if it is.
pub(crate) fn untied_reply(
    alloc: Global,
    file: &CertFile,
    digest: &[u8; 32],
) -> Result<Option<Reply>, AllocError>
    ensures { IfOk result (λ o. MatchOption o (file.now.digest ≡ digest.now)
        (λ r. (file.now.digest ≢ digest.now) × (reply_seen r ≡ other_set_answer))) }
{
    if are_same(&file.digest, digest) {
        return Ok(None);
    }
    Ok(Some(other_set_reply(alloc)?))
}
