//! Bytes to a sink.
ghost use Rattle.std.specs.Prelude.{◌≡◌, ◌+◌, ◌<◌, ◌^◌, OnOk, OnErr};
ghost use Rattle.std.specs.Io.KnownBytes.{Appends};
ghost use Rattle.mps_wire.specs.Sending.{TookFront};

use mps_dev::{Failed, Sink};

/// Writes all of the bytes, in as many writes as the sink needs, as std's `write_all` does. A failed write ends it at
/// once; only a front of the bytes may be written then. It does not allocate.
pub fn send_all<W: Sink>(writer: &mut W, bytes: &[u8]) -> Result<(), Failed>
    requires { W.failed_calls writer.old < 2 ^ 63 }
    ensures sent { OnOk result (Appends (W.taken writer.old) (W.taken writer.new) bytes.now) }
    ensures counted { OnOk result (W.failed_calls writer.new ≡ W.failed_calls writer.old) }
    ensures failed { OnErr result (W.failed_calls writer.new ≡ W.failed_calls writer.old + 1) }
    ensures front { OnErr result (TookFront (W.taken writer.old) (W.taken writer.new) bytes.now) }
{
    let mut rest = bytes;
    while !rest.is_empty() {
        let count = writer.write(rest)?;
        rest = &rest[count..];
    }
    Ok(())
}
