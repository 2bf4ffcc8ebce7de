#![tactic(auto)]
// The sheet (document 01; document 02, No. 7). What it promises to the layer above: for every configuration, every run, every cluster of its entities and
// every lent sheet, whether the run's records have room; where they have, the records of its entities, no header, in entity order, and
// the bytes past the last record stay; where they have not, every byte stays.
ghost use Rattle.std.specs.Prelude.{◌≡◌, length};
ghost use Rattle.ground.specs.Lists.{pad};
ghost use Rattle.records.specs.Records.{record_size, front_of, record_of, room_for, shown_in};

use entities::{Node, Run};
use layout::{Cluster, MOST_PINS};

// The bytes of a record in front of its source IDs.
const HEAD: usize = 8;

// The bytes of a record.
pub const RECORD: usize = HEAD + MOST_PINS as usize;

// Whether a sheet of that many bytes holds the run's records.
#[tactic(auto, unfolding(crate::specs::Records::room_for))]
pub fn has_room(run: Run, room: usize) -> bool
    ensures { result ≡ room_for run room }
{
    entities::count(run) * RECORD <= room
}

// The whole of a room filled: the bytes, as many as have a place there, and 00 behind them.
pub fn fill(room: &mut [u8], bytes: &[u8])
    ensures { room.new ≡ pad 0 (length room.old) bytes.now }
{
    let taken = room.len().min(bytes.len());
    room[..taken].copy_from_slice(&bytes[..taken]);
    room[taken..].fill(0);
}

// The front of a record: ID; kind; c; bitmap (2); name index; pins; 00.
fn front_of(node: Node, pins: u8, cluster: Cluster) -> [u8; HEAD]
    ensures { result ≡ front_of node.id node.kind pins cluster }
{
    let [low, high] = cluster.locations.to_le_bytes();
    [
        node.id,
        node.kind,
        cluster.channels,
        low,
        high,
        cluster.names,
        pins,
        0,
    ]
}

// An entity's record put into its part of the sheet.
fn put_record(config: &[u8], node: Node, cluster: Cluster, part: &mut [u8])
    requires { length part.old ≡ record_size }
    ensures { part.new ≡ record_of config.now node cluster }
{
    let sources = entities::sources(config, node);
    part[..HEAD].copy_from_slice(&front_of(node, sources.len() as u8, cluster));
    fill(&mut part[HEAD..], sources);
}

// The run's records in the front of the sheet, where they have room; else the sheet as it stood.
pub fn show(config: &[u8], run: Run, clusters: [Cluster; 32], sheet: &mut [u8])
    ensures { sheet.new ≡ shown_in config.now run clusters sheet.old }
{
    if !has_room(run, sheet.len()) {
        return;
    }
    let n = entities::count(run);
    // Stays: by index, since i is the place of the record on the sheet as well.
    for i in 0..n {
        let at = i * RECORD;
        let part = &mut sheet[at..at + RECORD];
        put_record(config, run.nodes[i], clusters[i], part);
    }
}
