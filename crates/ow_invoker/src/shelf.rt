// Where the containers of a day lie between runs.
ghost use Rattle.std.specs.Prelude.{◌≡◌, [], IfNone, IfOk, MatchResult, is_some, position};
ghost use Rattle.ow_invoker.specs.Shelf.{IsLaid, IsPlaced, is_at, lies, without};

use crate::living::Living;
use ow_value::NoMemory;
use std::alloc::Global;
use std::marker::Model;

/// A container, by its slot and the slot's generation.
#[derive(Drop)]
pub struct Laid<B: Drop> {
    /// The number of its slot.
    pub slot: u32,
    /// The generation of the slot.
    pub generation: u32,
    /// What lies there.
    pub container: B,
}

/// The containers that lie there, the last that was laid down last. Contracts see them as a list.
#[derive(Drop)]
pub struct Shelf<B: Drop> {
    laid: Vec<Laid<B>>,
}

impl<B: Drop> Model for Shelf<B> {
    ghost use Rattle.std.specs.Prelude.{List};
    ghost use Rattle.ow_invoker.specs.declared.shelf.Laid.{Laid};

    ghost Value = { List (Laid B) };

    ghost view = { λ a. a.laid.items };
}

impl<B: Drop> Shelf<B> {
    /// Nothing lies there.
    pub fn new(alloc: Global) -> Result<Shelf<B>, NoMemory>
        ensures { IfOk result (λ s. s ≡ []) }
    {
        Ok(Shelf {
            laid: Vec::new(alloc),
        })
    }

    /// Takes memory for one more container.
    pub(crate) fn make_room(&mut self) -> Result<(), NoMemory>
        ensures { self.new ≡ self.old }
    {
        self.laid.reserve(1)?;
        Ok(())
    }

    /// Lays a container down, or gives it back where there is no memory.
    pub(crate) fn lay(
        &mut self,
        slot: u32,
        generation: u32,
        living: Living<B>,
    ) -> Result<(), Living<B>>
        ensures { MatchResult result (λ laid. IsLaid slot generation self.old self.new) (λ back. self.new ≡ self.old) }
    {
        match self.laid.reserve(1) {
            Ok(()) => {
                let Living { container } = living;
                self.laid.push_reserved(Laid {
                    slot,
                    generation,
                    container,
                });
                Ok(())
            }
            Err(_) => Err(living),
        }
    }

    /// Takes the container of this slot and generation, where one lies there.
    pub(crate) fn take(&mut self, slot: u32, generation: u32) -> Option<Living<B>>
        ensures some { is_some result ≡ lies slot generation self.old }
        ensures left { self.new ≡ without slot generation self.old }
        ensures none { IfNone result (self.new ≡ self.old) }
    {
        match place_of(&self.laid, slot, generation) {
            Some(place) => {
                let Laid { container, .. } = self.laid.remove(place);
                Some(Living { container })
            }
            None => None,
        }
    }
}

// The place of the first that lies there.
#[tactic(auto, using(crate::proofs::Shelving::placed))]
fn place_of<B: Drop>(laid: &[Laid<B>], slot: u32, generation: u32) -> Option<usize>
    ensures { IsPlaced slot generation laid.now result }
{
    position_of(laid, slot, generation)
}

fn position_of<B: Drop>(laid: &[Laid<B>], slot: u32, generation: u32) -> Option<usize>
    ensures { result ≡ position (is_at slot generation) laid.now }
{
    laid.iter()
        .position(|laid| laid.slot == slot && laid.generation == generation)
}
