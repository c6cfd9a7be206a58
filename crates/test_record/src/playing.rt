//! What connections say, step by step, and the text that is written of it.
use mc_record::{ClientEar, Notebook, ServerEar};
use mc_relay::Ear;
use std::alloc::{AllocError, Global};
use std::sync::{Mutex, Wait};

/// What happens next.
#[derive(Clone, Copy)]
pub(crate) enum Step {
    /// The client of this connection sends bytes.
    Client(u8, &'static [u8]),
    /// The server answers on this connection.
    Server(u8, &'static [u8]),
    /// The connection ends.
    Close(u8),
}

/// The text of what three connections say.
pub(crate) fn text_of<R: Wait>(
    rt: &R,
    alloc: Global,
    steps: &[Step],
) -> Result<Vec<u8>, AllocError> {
    let notebook = Mutex::new(Notebook::new(alloc, false)?);
    let mut ears = Vec::new(alloc);
    for number in 0..3u8 {
        let _ = notebook.lock(rt).open();
        ears.push((
            ClientEar::new(alloc, &notebook, number),
            ServerEar::new(alloc, &notebook, number),
        ))?;
    }
    for step in steps {
        match step {
            Step::Client(number, bytes) => {
                if let Some((client, _)) = ears.get_mut(usize::from(*number)) {
                    client.hear(rt, bytes);
                }
            }
            Step::Server(number, bytes) => {
                if let Some((_, server)) = ears.get_mut(usize::from(*number)) {
                    server.hear(rt, bytes);
                }
            }
            Step::Close(number) => notebook.lock(rt).close(*number),
        }
    }
    notebook.lock(rt).finish();
    Ok(notebook.lock(rt).take_text())
}
