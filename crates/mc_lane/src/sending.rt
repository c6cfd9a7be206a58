//! How a request is sent.

ghost use Rattle.std.specs.Prelude.{◌≡◌};
ghost use Rattle.mc_lane.specs.{Streams.CanFail, Sending.Sends};

use crate::Stream;
use mc_protocol::Fault;

/// Writes a request, piece by piece as the stream takes it, and adds to `sent` what was written of it. Want of memory writes
/// nothing.
pub(crate) fn send<S: Stream>(
    stream: &mut S,
    sent: &mut Vec<u8>,
    request: &[u8],
) -> Result<(), Fault>
    requires { CanFail (S.state stream.old) }
    ensures { Sends request.now sent.old.items sent.new.items (S.state stream.old) (S.state stream.new) result }
{
    if sent.reserve(request.len()).is_err() {
        return Err(Fault::Memory);
    }
    let mut written = 0;
    while written < request.len() {
        let rest = &request[written..];
        let Ok(count) = stream.write(rest) else {
            return Err(Fault::WriteFailed);
        };
        // the room for the whole request is there
        let Ok(()) = sent.extend_from_slice(&rest[..count]) else {
            unreachable!()
        };
        written += count;
    }
    Ok(())
}
