use rep_types::{Call, Cluster, Event, Items, PeerId, RegionId, ServerId};

/// For which word of the program a script is read.
#[derive(Clone, Copy)]
pub enum Input {
    /// `run`, and `gen`.
    Run,
    /// `live`, whose script has one line `--`.
    Live,
}

/// What a line of a script asks for.
#[derive(Drop)]
pub enum Command {
    /// A command that is one event is spelled as the event.
    Single(Event),
    /// `openbegin`, then `openend`.
    Open {
        cluster: Cluster,
        region: RegionId,
        server: ServerId,
    },
    /// `closebegin`, then `closeend`.
    Close {
        cluster: Cluster,
        region: RegionId,
    },
    /// `closebegin`, `closeend`, `openbegin`, `openend`.
    Move {
        cluster: Cluster,
        region: RegionId,
        server: ServerId,
    },
    /// `send` of at most 25 entries, then `deliver` and `confirm` of its flight.
    Ship {
        cluster: Cluster,
        peer: PeerId,
        server: ServerId,
    },
    /// `sync` of each live server.
    SyncAll {
        cluster: Cluster,
    },
    /// `promotebegin`, `replay` while logs are left, and `promoteend`.
    Promote {
        cluster: Cluster,
    },
    /// Shipments until nothing is left to ship.
    Drain,
    /// Lines of the queues.
    Queues {
        cluster: Cluster,
    },
    /// Lines of the regions.
    Regions {
        cluster: Cluster,
    },
    /// A line of the whole state.
    Status,
    /// The store's so many-th call of this kind fails; an append or a sync leaves so many bytes.
    Fail {
        cluster: Cluster,
        call: Call,
        nth: u32,
        bytes: u32,
    },
    /// The store's next seal keeps so many bytes of the tail.
    Keep {
        cluster: Cluster,
        bytes: u32,
    },
    /// The line `--`, which ends what is done before the writers of `live` begin.
    Divider,
}

pub type Commands = Items<Command>;
