//! Hosts for tests. The keys of their caches are hashed with a fixed seed, so that a test runs alike each time.

use cil_server::Host;
use std::alloc::Global;
use std::hash::{BuildHasherDefault, FoldHasher};

/// What makes the hashers of a cache.
pub(crate) type Hashers = BuildHasherDefault<FoldHasher>;

/// A host whose cache holds 512 decisions, made at once or when it is asked for again.
pub(crate) fn new_host(alloc: Global) -> Option<Host<Hashers>> {
    match Host::new(alloc, 512, BuildHasherDefault::new()) {
        Ok(host) => Some(host),
        Err(_) => Host::new(alloc, 512, BuildHasherDefault::new()).ok(),
    }
}
