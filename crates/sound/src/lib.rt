#![tactic(auto)]
// Refusal 30 (document 01, "Controls and settings"): the test that every entry point makes of a table, since everything in it is
// public. What it asks of one control by itself is crate single's. What this crate promises to the layer above: each function
// answers, for every table whatever, as the definitions of specs/ say; what 30 means, in document 01's words, stands in
// specs/Meaning.antt.
ghost use Rattle.std.specs.Prelude.{◌≡◌, ◌≤◌};
ghost use Rattle.table.specs.Controls.{most_controls};
ghost use Rattle.sound.specs.Sound.{sound_of};
ghost use Rattle.sound.specs.Rising.{Keyed, key_among};

use table::{Control, Table};

// Unit, channel and selector as one number: within a unit it rises as channel, then selector, do.
pub fn key_of(control: Control) -> u32
    ensures { Keyed control result }
{
    u32::from_be_bytes([0, control.unit, control.channel, control.selector])
}

// Whether the key is one of the first n.
fn among(keys: &[u32; table::CONTROLS], n: usize, wanted: u32) -> bool
    requires { n ≤ most_controls }
    ensures { result ≡ key_among keys.now n wanted }
{
    keys[..n].contains(&wanted)
}

// As `sound`, for a table in any order: each control's key is looked for among those of all earlier ones.
pub fn sound_any_order(table: Table) -> bool
    ensures { result ≡ sound_of table }
{
    if table::CONTROLS < table.count {
        return false;
    }
    let mut keys = [0u32; table::CONTROLS];
    for (index, control) in table.controls[..table.count].iter().enumerate() {
        if !single::sound_control(*control) {
            return false;
        }
        let key = key_of(*control);
        if among(&keys, index, key) {
            return false;
        }
        keys[index] = key;
    }
    true
}

// Whether refusal 30 has nothing against the table. One pass as long as the keys of each unit rise from index to index, as in
// every table that the reader makes: tops has one more than each unit's last key, and a key that is not below it stands at no
// earlier index. A function that takes the table copies it, so none is called in the loop.
pub fn sound(table: Table) -> bool
    ensures { result ≡ sound_of table }
{
    let count = table.count;
    if table::CONTROLS < count {
        return false;
    }
    let mut tops = [0u32; 256];
    for control in &table.controls[..count] {
        if !single::sound_control(*control) {
            return false;
        }
        let own = ground::index_of(control.unit);
        let key = key_of(*control);
        if key < tops[own] {
            return sound_any_order(table);
        }
        tops[own] = key + 1;
    }
    true
}
