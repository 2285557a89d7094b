// A lock over a durable host may be shared by threads, and so may the host be handed on.

use crate::tape::Tape;
use context_lock::ContextLock;
use disk_model::MemoryDir;
use durable_host::DurableHost;
use std::test::Fail;

// It compiles for types alone that may be handed to another thread, and be used by several.
fn is_shared<T: Send + Sync>() -> bool {
    true
}

#[test]
fn hosts_are_shared(rt: HostRuntime) -> Result<(), Fail> {
    assert!(rt; is_shared::<DurableHost<MemoryDir>>());
    assert!(rt; is_shared::<ContextLock<Tape>>());
    Ok(())
}
