// The layouts that a script holds by name.
ghost use Rattle.std.specs.Prelude.{string_cmp};
ghost use Rattle.std.specs.BTreeMap.{IsOrdered};
ghost use Rattle.std.proofs.Props.{props};

use layout::JaggedLayout;
use std::collections::BTreeMap;

#[derive(Drop)]
pub struct Session {
    pub(crate) slots: BTreeMap<String, JaggedLayout>,
    ghost ordered: { IsOrdered string_cmp slots } by { Prim.hlevel props },
}
