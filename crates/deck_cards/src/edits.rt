ghost use Rattle.std.specs.Prelude.{◌≡◌, ◌<◌, ◌++◌, ◌∷◌, [], length, slice_get, Some, IfOk, OnOk, OnErr};

use crate::edit::Edit;
use std::alloc::{AllocError, Global};
use std::marker::Model;

/// Edits in the order in which they were made. A contract sees the list of them.
#[derive(Drop)]
pub struct Edits {
    items: Vec<Edit>,
}

impl Model for Edits {
    ghost use Rattle.std.specs.Prelude.{List};
    ghost use Rattle.deck_cards.specs.declared.edit.Edit.{Edit};

    ghost Value = { List Edit };

    ghost view = { λ e. e.items.items };
}

/// Equal edits.
fn copies(alloc: Global, edits: &[Edit]) -> Result<Vec<Edit>, AllocError>
    ensures { IfOk result (λ copies. copies.items ≡ edits.now) }
{
    let mut copies = Vec::with_capacity(alloc, edits.len())?;
    for edit in edits {
        copies.push(edit.copy()?)?;
    }
    Ok(copies)
}

impl Edits {
    /// No edits.
    pub fn new(alloc: Global) -> Edits
        ensures { result ≡ [] }
    {
        Edits {
            items: Vec::new(alloc),
        }
    }

    /// The number of edits.
    pub fn len(&self) -> usize
        ensures { result ≡ length self.now }
    {
        self.items.len()
    }

    /// The edit at this place, in the order in which they were made.
    pub fn get(&self, place: usize) -> &Edit
        requires { place < length self.now }
        ensures { slice_get self.now place ≡ Some result.now }
    {
        &self.items[place]
    }

    /// Puts an edit behind the others.
    ///
    /// # Errors
    ///
    /// Where memory is wanting. The edits then stay as they are.
    pub fn push(&mut self, edit: Edit) -> Result<(), AllocError>
        ensures pushed { OnOk result (self.new ≡ self.old ++ edit ∷ []) }
        ensures kept { OnErr result (self.new ≡ self.old) }
    {
        self.items.push(edit)?;
        Ok(())
    }

    /// Equal edits.
    ///
    /// # Errors
    ///
    /// Where memory is wanting.
    pub fn copy(&self) -> Result<Edits, AllocError>
        ensures { IfOk result (λ edits. edits ≡ self.now) }
    {
        Ok(Edits {
            items: copies(*self.items.allocator(), &self.items)?,
        })
    }
}
