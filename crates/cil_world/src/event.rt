//! What may happen to hosts.

use cil_host::Excerpt;

/// What may happen. Hosts are counted from 0, and so are exports, in the order of their events.
#[derive(Debug, Drop)]
pub enum Event<'a> {
    /// A text is installed at a host.
    Install {
        /// The number of the host.
        host: u32,
        /// The text.
        text: Excerpt<'a>,
    },
    /// The modules of a host are put into a bundle, which is kept for deliveries. The event has the next export number, even if it fails.
    Export {
        /// The number of the host.
        host: u32,
    },
    /// The bundle of an export is imported at a host.
    Deliver {
        /// The number of the export.
        export: u64,
        /// The number of the host.
        host: u32,
    },
    /// A host compiles its modules, and loads the policy.
    Load {
        /// The number of the host.
        host: u32,
    },
    /// A boolean of the loaded policy of a host is turned on or off.
    Set {
        /// The number of the host.
        host: u32,
        /// The qualified name of the boolean.
        name: Excerpt<'a>,
        /// Whether it is on from then on.
        value: bool,
    },
    /// A host is asked what a source may do to a target of a class.
    Ask {
        /// The number of the host.
        host: u32,
        /// The context of the source.
        source: Excerpt<'a>,
        /// The context of the target.
        target: Excerpt<'a>,
        /// The name of the class.
        class: Excerpt<'a>,
    },
    /// A host begins anew: without modules, and without a policy.
    Restart {
        /// The number of the host.
        host: u32,
    },
}

impl<'a> Event<'a> {
    ghost use Rattle.std.specs.Prelude.{◌≡◌};
    ghost use Rattle.cil_world.specs.Events.{host_of, is_export};

    /// The number of the host to which it happens.
    pub fn host(&self) -> u32
        ensures { result ≡ host_of self.now }
    {
        match self {
            Event::Install { host, .. } => *host,
            Event::Export { host } => *host,
            Event::Deliver { host, .. } => *host,
            Event::Load { host } => *host,
            Event::Set { host, .. } => *host,
            Event::Ask { host, .. } => *host,
            Event::Restart { host } => *host,
        }
    }

    /// Whether it is an export.
    pub(crate) fn is_export(&self) -> bool
        ensures { result ≡ is_export self.now }
    {
        match self {
            Event::Export { .. } => true,
            Event::Install { .. } => false,
            Event::Deliver { .. } => false,
            Event::Load { .. } => false,
            Event::Set { .. } => false,
            Event::Ask { .. } => false,
            Event::Restart { .. } => false,
        }
    }
}
