//! What a client is served by a server that has no memory, or no number left.
use crate::streams::conversation;
use mc_protocol::{Reply, Request};
use mc_server::{Caller, Served, Store, StoreFault, Why};
use std::sync::{Mutex, Wait};
use std::test::Fail;

/// What has no memory for any request.
struct NoMemory;

impl Caller for NoMemory {
    fn call<R: Wait>(&self, _rt: &R, _request: &Request) -> Result<Reply, StoreFault> {
        Err(StoreFault::OutOfMemory)
    }
}

/// Requests for which there is no memory. The last one asks for no reply.
static UNSERVED: [&[u8]; 3] = [
    b"foo\r\nget a b\r\nget a\r\n",
    b"foo\r\nset a 0 0 1\r\n1\r\nget a\r\n",
    b"foo\r\nset a 0 0 1 noreply\r\n1\r\nget a\r\n",
];

#[test]
fn closes_where_there_is_no_memory(rt: HostRuntime) -> Result<(), Fail> {
    for sent in UNSERVED {
        let (written, served) = conversation(&rt, rt.alloc(), &NoMemory, &[sent], None)?;
        assert_eq!(rt;
            written.as_slice(),
            b"ERROR\r\nSERVER_ERROR out of memory\r\n".as_slice()
        );
        assert_eq!(rt;
            served,
            Served {
                requests: 1,
                why: Why::Memory
            }
        );
    }
    Ok(())
}

/// One store under a lock.
#[derive(Drop)]
struct OneStore {
    store: Mutex<Store>,
}

impl Caller for OneStore {
    #[tactic(auto, using(mc_server::proofs::Callers::may_answer))]
    fn call<R: Wait>(&self, rt: &R, request: &Request) -> Result<Reply, StoreFault> {
        self.store.lock(rt).call(request)
    }
}

#[test]
fn goes_on_where_no_number_is_left(rt: HostRuntime) -> Result<(), Fail> {
    let last = OneStore {
        store: Mutex::new(Store::starting(rt.alloc(), u64::MAX)),
    };
    let sent: &[u8] = b"set a 0 0 1\r\n1\r\nset a 0 0 1 noreply\r\n1\r\nget a\r\n";
    let (written, served) = conversation(&rt, rt.alloc(), &last, &[sent], None)?;
    let answers: &[u8] = b"SERVER_ERROR out of numbers\r\nSERVER_ERROR out of numbers\r\nEND\r\n";
    assert_eq!(rt; written.as_slice(), answers);
    assert_eq!(rt;
        served,
        Served {
            requests: 3,
            why: Why::Ended
        }
    );
    Ok(())
}
