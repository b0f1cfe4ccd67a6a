// What the slots of a session hold.
ghost use Rattle.std.specs.Prelude.{◌≡◌, ℕ, List, string_bytes};
ghost use Rattle.layout.specs.Layout.{shape};
ghost use Rattle.layout.specs.Shape.{empty_shape};
ghost use Rattle.script.specs.Slots.{slot, placed, Leaves};

use crate::session::Session;
use layout::JaggedLayout;
use std::alloc::{AllocError, Global};
use std::collections::BTreeMap;

impl Session {
    // Every name holds one empty column.
    pub fn new(heap: Global) -> Session
        ensures { (name : List ℕ) → slot result name ≡ empty_shape }
    {
        Session {
            slots: BTreeMap::new(heap),
        }
    }

    // The layout that a name holds.
    pub fn held(&self, name: &str) -> JaggedLayout
        ensures { shape result ≡ slot self.now name.now }
    {
        self.slots.get(name).copied().unwrap_or_default()
    }

    // Has a name hold a layout.
    pub(crate) fn hold(&mut self, name: String, layout: JaggedLayout) -> Result<(), AllocError>
        ensures { Leaves result self.old self.new (placed (slot self.old) (string_bytes name) (shape layout)) }
    {
        self.slots.insert(name, layout)?;
        Ok(())
    }
}
