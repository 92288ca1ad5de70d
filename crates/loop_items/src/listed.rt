//! A list of items that grows while there is memory.

use loop_form::LoopItem;

/// The items that are listed so far. Where memory was short for one of them, they are `short` from then on, and what
/// they hold means nothing.
#[derive(Drop)]
pub struct Listed<'a> {
    pub items: Vec<LoopItem<'a>>,
    pub short: bool,
}
