//! Replies of a real memcached, read at each cut.
use crate::cuts::first_other;
use crate::recorded::{OF_BAD_REQUESTS, OF_NOTHING, OF_OTHERS, OF_TEXTS};
use std::test::Fail;

#[test]
fn reads_replies_of_memcached(rt: HostRuntime) -> Result<(), Fail> {
    for rows in [OF_NOTHING, OF_TEXTS, OF_OTHERS, OF_BAD_REQUESTS] {
        assert_eq!(rt; first_other(rt.alloc(), rows)?, None);
    }
    Ok(())
}
