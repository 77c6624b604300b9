// The rings that calls are timed on.
use anyhow::anyhow;
use asking::{firm, len};
use entries::entry_book::EntryBook;
use lines::line_wire::LineWire;
use protocol::frame::Frame;
use protocol::limits::LINES_PLACES;
use replay::replay::EntryRing;
use ring::ring::Ring;
use runs::call::Call;
use vote::heads::Heads;

// A new ring.
fn make_ring(rt: &HostRuntime, roll: u32) -> anyhow::Result<EntryRing> {
    let heap = rt.alloc();
    let book = EntryBook::new(heap)?;
    let places = vec![in heap; Frame::IDLE; LINES_PLACES]?;
    let wire = LineWire::new(roll, places).map_err(|_| anyhow!("no wire"))?;
    let rule = Heads::new(roll).map_err(|_| anyhow!("no rule"))?;
    Ring::new(heap, wire, rule, &book).map_err(|_| anyhow!("no ring"))
}

// So many new rings.
pub fn make_rings(rt: &HostRuntime, roll: u32, count: u32) -> anyhow::Result<Vec<EntryRing>> {
    let mut rings = Vec::new(rt.alloc());
    for _ in 0..count {
        rings.push(make_ring(rt, roll)?)?;
    }
    Ok(rings)
}

// Makes some calls on each ring, and answers how many were refused.
pub fn count_refused(rings: &mut [EntryRing], calls: &[Call]) -> u64 {
    let mut refused = 0u64;
    for ring in rings.iter_mut() {
        for call in calls {
            if ring.call(*call).is_err() {
                refused = refused.saturating_add(1);
            }
        }
    }
    refused
}

// The firm counts of a ring's stations, and their lengths, each added up.
pub fn sums(ring: &EntryRing, roll: u32) -> (u64, u64) {
    let mut firms = 0u64;
    let mut lengths = 0u64;
    for at in 0..roll {
        if let (Ok(firm), Ok(length)) = (firm(ring, at), len(ring, at)) {
            firms = firms.saturating_add(u64::from(firm));
            lengths = lengths.saturating_add(length as u64);
        }
    }
    (firms, lengths)
}
