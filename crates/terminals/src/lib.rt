#![tactic(auto)]
// Terminals by ID (document 01, "Streaming": "byte 3 a Terminal of type 0x0101"). What it promises to the layer above: a table by ID, an
// entity entered at a time, tells the type and the channels of the first Terminal entered that bears an ID, or that none does.
ghost use Rattle.std.specs.Prelude.{◌≡◌, [], ◌∷◌};
ghost use Rattle.terminals.specs.Terminals.{terminal_of};
ghost use Rattle.terminals.specs.Table.{bearer_at, Entered};

use ground::index_of;
use layout::Entity;

// The Terminal that bears an ID, by its type and its channels.
#[derive(Clone, Copy)]
pub struct Bearer {
    pub kind: u16,
    pub channels: u16,
}

// Writes a Terminal into the table, unless an earlier one bears its ID.
fn enter(table: &mut [Option<Bearer>; 256], own: u8, terminal: u16, channels: u8)
    ensures { Entered (record { id = own; kind = terminal; channels = channels } ∷ []) table.old table.new }
{
    let bearer = Bearer {
        kind: terminal,
        channels: channels as u16,
    };
    let at = index_of(own);
    table[at] = table[at].or(Some(bearer));
}

// Writes an entity with these channels into the table, if it is a Terminal.
#[tactic(auto, using(crate::specs::Table::entered_none), unfolding(crate::specs::Terminals::terminal_of))]
pub fn enter_entity(entity: Entity, channels: u8, table: &mut [Option<Bearer>; 256])
    ensures { Entered (terminal_of entity channels) table.old table.new }
{
    match entity {
        Entity::Input { id, terminal, .. } => enter(table, id, terminal, channels),
        Entity::Output { id, terminal, .. } => enter(table, id, terminal, channels),
        Entity::Unknown => {}
        Entity::Mixer { .. } => {}
        Entity::Selector { .. } => {}
        Entity::Feature { .. } => {}
    }
}

// The Terminal that bears an ID, by the table.
#[tactic(auto, unfolding(crate::specs::Table::bearer_at))]
pub fn bearer_at(table: &[Option<Bearer>; 256], id: u8) -> Option<Bearer>
    ensures { result ≡ bearer_at table.now id }
{
    table[index_of(id)]
}
