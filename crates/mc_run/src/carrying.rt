//! One call of a section over its lane.
ghost use Rattle.std.specs.Prelude.{◌≡◌, ◌≢◌, ◌<◌, length, IfOk};
ghost use Rattle.mc_core.specs.Logs.{request_of};
ghost use Rattle.mc_protocol.specs.Texts.{request_text};
ghost use Rattle.mc_run.specs.Running.{ComesOver};

use mc_code::{Call, Code};
use mc_lane::{Lane, Stream};
use mc_protocol::{Event, OutOfMemory, Request, render_request};
use mc_reader::Shape;
use std::alloc::Global;

/// A call that is ready to be made, with its request and the request's text.
#[derive(Drop)]
pub(crate) struct Prepared {
    pub(crate) call: Call,
    request: Request,
    text: Vec<u8>,
    ghost written: { text.items ≡ request_text request },
}

/// Makes the call ready: its text, and room for it in the lane's record, so that it takes no memory before its bytes are written.
pub(crate) fn prepare<S: Stream>(
    alloc: Global,
    code: &Code,
    call: Call,
    lane: &mut Lane<S>,
) -> Result<Prepared, OutOfMemory>
    requires { call.template < length code.now.templates }
    ensures lane { lane.new ≡ lane.old }
    ensures call { IfOk result (λ prepared. prepared.call ≡ call) }
    ensures request { IfOk result (λ prepared. prepared.request ≡ request_of code.now call) }
{
    let request = code.request(alloc, call)?;
    let text = write_request(alloc, &request)?;
    lane.reserve(text.len())?;
    Ok(Prepared {
        call,
        request,
        text,
    })
}

/// The text of a request.
fn write_request(alloc: Global, request: &Request) -> Result<Vec<u8>, OutOfMemory>
    ensures { IfOk result (λ text. text.items ≡ request_text request.now) }
{
    let mut text = Vec::new(alloc);
    render_request(request, &mut text)?;
    Ok(text)
}

/// Makes the call over a lane. The result is the reply, or the fault that ends the section.
pub(crate) fn carry<S: Stream>(prepared: &Prepared, lane: &mut Lane<S>) -> Event
    ensures comes { ComesOver prepared.now.request lane.old lane.new result }
    ensures ended { result ≢ Event.Begin }
{
    let shape = Shape {
        verb: prepared.request.verb,
        key: prepared.request.key.as_slice(),
    };
    match lane.call(prepared.text.as_slice(), shape) {
        Ok(reply) => Event::Reply(reply),
        Err(fault) => Event::Fail(fault),
    }
}
