#![tactic(auto)]
// Streaming (document 01). What it promises to the layer above: for every configuration, run and clusters, the place of the first streaming
// group that breaks rule 14. Which Terminal bears which ID is written once into a table by ID; then the configuration's descriptors are
// looked at once each.
ghost use Rattle.std.specs.Prelude.{◌≡◌};
ghost use Rattle.terminals.specs.Terminals.{terminals_of};
ghost use Rattle.terminals.specs.Table.{bearer_at};
ghost use Rattle.streaming.specs.Tests.{described_by, described_at, broken_at, first_broken, breach14};

use entities::Run;
use layout::Cluster;
use scan::{byte_at, descriptor_at, descriptors_from, end_of, word_at};
use terminals::{Bearer, bearer_at, enter_entity};

// Whether two descriptors are GENERAL, whose byte 3 is a Terminal of type 0x0101, and its FORMAT_TYPE.
fn described_by(g: &[u8], f: &[u8], table: &[Option<Bearer>; 256]) -> bool
    ensures { result ≡ described_by (bearer_at table.now) g.now f.now }
{
    if !formats::is_general(g) {
        return false;
    }
    let Some(bearer) = bearer_at(table, byte_at(g, 3)) else {
        return false;
    };
    if bearer.kind != 0x0101 {
        return false;
    }
    formats::format_right(f, word_at(g, 5), bearer.channels)
}

// The same of the two descriptors that stand from a place on.
fn described_at(config: &[u8], from: usize, table: &[Option<Bearer>; 256]) -> bool
    ensures { result ≡ described_at (bearer_at table.now) config.now from }
{
    let next = end_of(config, from);
    described_by(
        descriptor_at(config, from),
        descriptor_at(config, next),
        table,
    )
}

// Whether i opens a streaming group that breaks the rule; the group's other descriptors stand from a place on.
fn is_broken(config: &[u8], i: &[u8], from: usize, table: &[Option<Bearer>; 256]) -> bool
    ensures { result ≡ broken_at (bearer_at table.now) config.now i.now from }
{
    if !search::is_audio(i, 2) {
        return false;
    }
    if byte_at(i, 4) == 0 {
        return groups::strays_from(config, from);
    }
    !described_at(config, from, table)
}

// The place of the first streaming group's interface descriptor that breaks the rule, by the table.
fn first_broken(config: &[u8], table: &[Option<Bearer>; 256]) -> Option<usize>
    ensures { result ≡ first_broken (bearer_at table.now) config.now }
{
    for (at, d) in descriptors_from(config, 0) {
        if is_broken(config, d, at + d.len(), table) {
            return Some(at);
        }
    }
    None
}

// Rule 14: the place of the first streaming group's interface descriptor that breaks it.
pub fn check_streams(config: &[u8], run: Run, clusters: [Cluster; 32]) -> Option<usize>
    ensures { result ≡ breach14 (terminals_of config.now run clusters) config.now }
{
    let held = entities::count(run);
    let mut table = [None; 256];
    for (node, cluster) in run.nodes[..held].iter().zip(&clusters) {
        let entity = layout::read(descriptor_at(config, node.place));
        enter_entity(entity, cluster.channels, &mut table);
    }
    first_broken(config, &table)
}
