//! The items of the actors, with a row for each.
ghost use Rattle.std.specs.Prelude.{◌≡◌, ◌≤◌, [], map, take, length, OnOk};
ghost use Rattle.sp_replay.specs.Rows.{lists_of, HaveSameRows, AddsItem};

use crate::formats::MOST_ACTORS;
use sp_machine::Item;
use std::alloc::{AllocError, Global};
use std::marker::Model;
use std::mem;

/// The items of the actors so far. There are no more rows than the actors need.
#[derive(Drop)]
pub struct ActorItems<const P: u32> {
    alloc: Global,
    rows: Vec<Vec<Item<P>>>,
}

impl<const P: u32> Model for ActorItems<P> {
    ghost use Rattle.std.specs.Prelude.{List, map};
    ghost use Rattle.sp_machine.specs.declared.item.Item.{Item};

    ghost Value = { List (List (Item P)) };

    ghost view = { λ r. map (λ row. row.items) r.rows.items };
}

impl<const P: u32> ActorItems<P> {
    /// Returns rows without items.
    pub fn new(alloc: Global) -> Self
        ensures { result ≡ [] }
    {
        ActorItems {
            alloc,
            rows: Vec::new(alloc),
        }
    }

    /// Appends an item to those of an actor. Actors are numbered from 1.
    pub fn push(&mut self, actor: u64, item: Item<P>) -> Result<(), AllocError>
        requires { actor ≤ MOST_ACTORS }
        ensures { OnOk result (AddsItem self.old actor item.entry self.new) }
    {
        push_item(self.alloc, &mut self.rows, actor, item)
    }

    /// Returns the rows of `actors` actors, and starts over.
    pub fn give(&mut self, actors: u64) -> Vec<Vec<Item<P>>>
        ensures given { map (λ row. row.items) result.items ≡ take actors self.old }
        ensures new { self.new ≡ [] }
    {
        let mut rows = mem::replace(&mut self.rows, Vec::new(self.alloc));
        rows.truncate(actors as usize);
        rows
    }
}

// Adds empty rows until there are at least `len`.
fn grow<const P: u32>(
    alloc: Global,
    rows: &mut Vec<Vec<Item<P>>>,
    len: usize,
) -> Result<(), AllocError>
    ensures same { OnOk result (HaveSameRows (lists_of rows.old) (lists_of rows.new)) }
    ensures long { OnOk result (len ≤ length rows.new.items) }
{
    while rows.len() < len {
        rows.push(Vec::new(alloc))?;
    }
    Ok(())
}

// Appends an item to those of an actor. Actors are numbered from 1.
fn push_item<const P: u32>(
    alloc: Global,
    rows: &mut Vec<Vec<Item<P>>>,
    actor: u64,
    item: Item<P>,
) -> Result<(), AllocError>
    requires { actor ≤ MOST_ACTORS }
    ensures { OnOk result (AddsItem (lists_of rows.old) actor item.entry (lists_of rows.new)) }
{
    let Some(place) = actor.checked_sub(1) else {
        return Ok(());
    };
    let place = place as usize;
    grow(alloc, rows, place + 1)?;
    rows[place].push(item)?;
    Ok(())
}
