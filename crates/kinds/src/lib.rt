#![tactic(auto)]
// What an entity's case says besides its kind's own numbers (document 01, "Entities" and "The sheet"): its kind on the sheet, where the IDs
// of its sources stand in its descriptor and how many they are, and whether it may be a source itself.
ghost use Rattle.std.specs.Prelude.{◌≡◌};
ghost use Rattle.kinds.specs.Shown.{kind_of};
ghost use Rattle.kinds.specs.Sources.{sources_from, pins_of, feeds_of};

use layout::Entity;

// The number of an entity's kind on the sheet: byte 2.
#[tactic(auto, unfolding(crate::specs::Shown::kind_of))]
pub fn kind(entity: Entity) -> u8
    ensures { result ≡ kind_of entity }
{
    match entity {
        Entity::Unknown => 0,
        Entity::Input { .. } => 2,
        Entity::Output { .. } => 3,
        Entity::Mixer { .. } => 4,
        Entity::Selector { .. } => 5,
        Entity::Feature { .. } => 6,
    }
}

// The offset of an entity's first source ID in its descriptor; the others follow it, one for each pin.
#[tactic(auto, unfolding(crate::specs::Sources::sources_from))]
pub fn sources_from(entity: Entity) -> usize
    ensures { result ≡ sources_from entity }
{
    match entity {
        Entity::Unknown | Entity::Input { .. } => 0,
        Entity::Output { .. } => 7,
        Entity::Mixer { .. } | Entity::Selector { .. } => 5,
        Entity::Feature { .. } => 4,
    }
}

// How many sources an entity has: its pins.
#[tactic(auto, unfolding(crate::specs::Sources::pins_of))]
pub fn pins(entity: Entity) -> u8
    ensures { result ≡ pins_of entity }
{
    match entity {
        Entity::Unknown | Entity::Input { .. } => 0,
        Entity::Output { .. } | Entity::Feature { .. } => 1,
        Entity::Mixer { pins, .. } | Entity::Selector { pins, .. } => pins,
    }
}

// Whether an entity may be a source: it has an output, as all have but an Output Terminal and what has none of the layouts.
#[tactic(auto, unfolding(crate::specs::Sources::feeds_of))]
pub fn feeds(entity: Entity) -> bool
    ensures { result ≡ feeds_of entity }
{
    !matches!(entity, Entity::Unknown | Entity::Output { .. })
}
