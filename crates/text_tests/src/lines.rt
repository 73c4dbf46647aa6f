use rep_types::{
    Bytes, Call, Cause, CellView, Cluster, DrainEnd, Event, Items, Key, Name, PeerId, Phase,
    Record, Refusal, RegionId, Reply, ServerId, StuckCause, SyncState, Tickets, Views,
};
use report_text::{drain_line, print_record, views};
use std::alloc::Global;
use std::test::Fail;

// Whether the reply, of a delivery as the third record, is printed so.
fn is_printed(alloc: Global, reply: Reply, text: &str) -> Result<bool, Fail> {
    let record = Record {
        event: Event::Deliver { flight: 7 },
        reply,
        faults_a: 0,
        faults_b: 0,
        actor: 0,
    };
    let mut out = Vec::new(alloc);
    print_record(3, &record, &mut out)?;
    Ok(out.as_slice() == text.as_bytes())
}

fn tickets(alloc: Global, numbers: &[u32]) -> Result<Tickets, Fail> {
    Ok(Tickets::from_slice(alloc, numbers)?)
}

fn is_split_printed(alloc: Global) -> Result<bool, Fail> {
    let low = RegionId::new(1).ok_or("no region")?;
    let high = RegionId::new(2).ok_or("no region")?;
    let split = Reply::Split { low, high };
    is_printed(alloc, split, "3 deliver 7 -> ok low=1 high=2\n")
}

fn is_replay_printed(alloc: Global) -> Result<bool, Fail> {
    let replayed = Reply::Replayed {
        server: ServerId::new(1).ok_or("no server")?,
        log: 13,
        entries: 14,
    };
    is_printed(
        alloc,
        replayed,
        "3 deliver 7 -> ok server=1 log=13 entries=14\n",
    )
}

fn is_change_printed(alloc: Global) -> Result<bool, Fail> {
    let changed = Reply::Changed {
        acks: tickets(alloc, &[])?,
        doubtful: tickets(alloc, &[2, 10])?,
    };
    is_printed(alloc, changed, "3 deliver 7 -> ok acks=- doubtful=2,10\n")
}

fn is_stop_printed(alloc: Global) -> Result<bool, Fail> {
    let stopped = Reply::Stopped {
        index: 1,
        acks: tickets(alloc, &[5])?,
        cause: Cause::WrongState {
            have: SyncState::Standby,
            phase: Phase::Replaying { left: 2 },
        },
    };
    let text = "3 deliver 7 -> stopped index=1 acks=5 wrongstate have=standby phase=replaying:2\n";
    is_printed(alloc, stopped, text)
}

fn is_fault_printed(alloc: Global) -> Result<bool, Fail> {
    let fault = Reply::StoreFault {
        store: Cluster::B,
        call: Call::Rename,
        count: 12,
    };
    is_printed(
        alloc,
        fault,
        "3 deliver 7 -> storefault store=b call=rename count=12\n",
    )
}

fn is_listed_queue_printed(alloc: Global) -> Result<bool, Fail> {
    let listed = Reply::Refused(Refusal::Unmigrated {
        peer: PeerId::new(1).ok_or("no peer")?,
        server: ServerId::new(2).ok_or("no server")?,
    });
    is_printed(alloc, listed, "3 deliver 7 -> unmigrated queue=1/2\n")
}

// Replies of events that no script performs yet; the others stand in the rows of the program.
#[test]
fn replies_are_printed(rt: HostRuntime) -> Result<(), Fail> {
    let alloc = rt.alloc();
    assert!(rt; is_split_printed(alloc)?);
    assert!(rt; is_replay_printed(alloc)?);
    assert!(rt; is_change_printed(alloc)?);
    assert!(rt; is_stop_printed(alloc)?);
    assert!(rt; is_fault_printed(alloc)?);
    assert!(rt; is_listed_queue_printed(alloc)?);
    Ok(())
}

// Whether a value of so many characters `v` is shown so.
fn is_shown(alloc: Global, length: usize, text: &str) -> Result<bool, Fail> {
    let value = vec![in alloc; b'v'; length]?;
    let mut cells: Views = Items::new(alloc);
    cells.push(CellView {
        row: Key::new(alloc, "r.1")?,
        family: Name::new(alloc, "f")?,
        qualifier: Name::new(alloc, "q")?,
        stamp: 10,
        value: Bytes::from_vec(value),
    })?;
    let mut out = Vec::new(alloc);
    views(&cells, &mut out)?;
    Ok(out.as_slice() == text.as_bytes())
}

#[test]
fn long_values_are_counted(rt: HostRuntime) -> Result<(), Fail> {
    let alloc = rt.alloc();
    let whole = "| r.1 f:q@10=vvvvvvvvvvvvvvvvvvvvvvvvvvvvvvv\n";
    assert!(rt; is_shown(alloc, 31, whole)?);
    assert!(rt; is_shown(alloc, 32, "| r.1 f:q@10=32*v\n")?);
    Ok(())
}

// Whether both ends of a drain are printed so, one behind the other.
fn are_ends_printed(alloc: Global, text: &str) -> Result<bool, Fail> {
    let mut out = Vec::new(alloc);
    drain_line(&DrainEnd::Drained, &mut out)?;
    let stuck = DrainEnd::Stuck {
        cluster: Cluster::B,
        peer: PeerId::new(4).ok_or("no peer")?,
        server: ServerId::new(64).ok_or("no server")?,
        cause: StuckCause::WrongState {
            have: SyncState::Standby,
            phase: Phase::Replaying { left: 2 },
        },
    };
    drain_line(&stuck, &mut out)?;
    Ok(out.as_slice() == text.as_bytes())
}

#[test]
fn the_end_of_a_drain_is_printed(rt: HostRuntime) -> Result<(), Fail> {
    let text = "drained\nstuck b 4 64 wrongstate have=standby phase=replaying:2\n";
    assert!(rt; are_ends_printed(rt.alloc(), text)?);
    Ok(())
}
