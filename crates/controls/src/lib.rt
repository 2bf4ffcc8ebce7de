#![tactic(auto)]
// Controls (document 01, "Controls and settings", first paragraph). What it promises to the layer above: for every configuration, every run
// and every cluster of its entities, the table of controls that the masks of the Feature Units and the Selectors give, none loaded; and
// rule 15, which counts them. What the masks are is crate masks's. A Feature Unit's channels are its cluster's, never told by its own length.
ghost use Rattle.std.specs.Prelude.{◌≡◌, ◌<◌};
ghost use Rattle.layout.specs.Layout.{entity_of};
ghost use Rattle.masks.specs.Masks.{bit_controls, mask_controls, feature_controls};
ghost use Rattle.masks.specs.Notes.{control_from};
ghost use Rattle.controls.specs.Controls.{entity_controls, controls_of_run, breach15};
ghost use Rattle.controls.specs.Growth.{added, table_of};
ghost use Rattle.controls.specs.Told.{table_by, table_from, Grows, Come, Room};

use entities::Run;
use layout::{Cluster, Entity};
use masks::{control_from, note_of};
use scan::word_at;
use table::Table;

// The notes of the controls so far: how many there are, and the first of them, as many as the table has places for.
// Stays: the count beside the array, since table_from counts the controls that have no place in it too.
#[derive(Drop)]
struct Notes {
    count: usize,
    notes: [u64; table::CONTROLS],
}

// Stays: Room in each requires, since the most that it allows is another for a bit, a mask, and a unit or the table.
impl Notes {
    // One note more; past the last place it is counted only.
    fn add(&mut self, note: u64)
        requires { Room (table_by self.old.notes self.old.count) 1000000 }
        ensures { table_by self.new.notes self.new.count
            ≡ added (table_by self.old.notes self.old.count) (control_from note) }
    {
        if self.count < table::CONTROLS {
            self.notes[self.count] = note;
        }
        self.count += 1;
    }

    // The control that a bit of a channel's mask carries; bit 5 carries none.
    fn add_bit(&mut self, mask: &[u8], unit: u8, channel: u8, bit: u8)
        requires room { Room (table_by self.old.notes self.old.count) 1000000 }
        requires bit_bound { bit < 10 }
        ensures { Grows self.old.notes self.old.count (bit_controls mask.now unit channel bit)
            self.new.notes self.new.count }
    {
        if bit == 5 {
            return;
        }
        if !masks::has_bit(mask, bit) {
            return;
        }
        self.add(note_of(unit, channel, bit + 1, 0, 0));
    }

    // The controls that a channel's mask carries; where its first two bytes are 0, which have all ten bits, none.
    fn add_mask(&mut self, mask: &[u8], unit: u8, channel: u8)
        requires { Room (table_by self.old.notes self.old.count) 990000 }
        ensures { Grows self.old.notes self.old.count (mask_controls mask.now unit channel)
            self.new.notes self.new.count }
    {
        if word_at(mask, 0) == 0 {
            return;
        }
        for bit in 0..10 {
            self.add_bit(mask, unit, channel, bit);
        }
    }

    // The controls of a Feature Unit: channel 0 is master, and one for each channel of its cluster.
    fn add_unit(&mut self, d: &[u8], unit: u8, size: u8, channels: u8)
        requires { Room (table_by self.old.notes self.old.count) 900000 }
        ensures { Grows self.old.notes self.old.count (feature_controls unit size channels d.now)
            self.new.notes self.new.count }
    {
        for channel in 0..=channels {
            let mask = masks::mask_of(d, size, channel);
            self.add_mask(mask, unit, channel);
        }
    }

    // The controls of the entity with this descriptor and these channels.
    fn add_entity(&mut self, d: &[u8], channels: u8)
        requires { Room (table_by self.old.notes self.old.count) 900000 }
        ensures { Come self.old.notes self.old.count (entity_controls (entity_of d.now) d.now channels) 2560
            self.new.notes self.new.count }
    {
        let entity = layout::read(d);
        match entity {
            Entity::Unknown => {}
            Entity::Input { .. } => {}
            Entity::Output { .. } => {}
            Entity::Mixer { .. } => {}
            Entity::Selector { id, pins } => self.add(note_of(id, 0, 0, pins, 1)),
            Entity::Feature { id, size, .. } => self.add_unit(d, id, size, channels),
        }
    }

    // The table of the counted notes, as many as it has places for.
    fn table(&self) -> Table
        requires { Room (table_by self.now.notes self.now.count) 900000 }
        ensures { result ≡ table_from self.now.notes self.now.count }
    {
        let count = self.count;
        let spare = control_from(0);
        let mut controls = [spare; table::CONTROLS];
        for i in 0..count.min(table::CONTROLS) {
            controls[i] = control_from(self.notes[i]);
        }
        Table { count, controls }
    }
}

// The table of controls of a run, none loaded. It counts every control and holds the first 128 of them.
pub fn read_controls(config: &[u8], run: Run, clusters: [Cluster; 32]) -> Table
    ensures { result ≡ table_of (controls_of_run config.now run clusters) }
{
    let n = entities::count(run);
    let mut notes = Notes {
        count: 0,
        notes: [0; table::CONTROLS],
    };
    for (node, cluster) in run.nodes[..n].iter().zip(&clusters) {
        let d = scan::descriptor_at(config, node.place);
        notes.add_entity(d, cluster.channels);
    }
    notes.table()
}

// Rule 15: at most 128 controls; the place is the header's.
pub fn check_count(table: Table, header: usize) -> Option<usize>
    ensures { result ≡ breach15 table.count header }
{
    if table.count <= table::CONTROLS {
        return None;
    }
    Some(header)
}
