//! The table of tiles that workers share.

ghost use Rattle.std.specs.Prelude.{◌≡◌, ◌*◌, ◌<◌, ◌^◌};

use crate::aim::Aim;
use crate::rule::Tiles;
use crate::view::View;
use atomic_table::Table;
use std::alloc::Global;
use tile_machine::Phase;

/// The tiles of a stage, as threads share them: for each place a claim, a lock, a mark and a slot.
pub struct TileTable<P: Phase> {
    pub(crate) table: Table<Option<P::Tile>, View<P::Tile>, Aim<View<P::Tile>>, Tiles, Global>,
    pub(crate) count: u64,
    ghost words: { table.shared.table_id.words ≡ 3 * count },
    ghost slots: { table.shared.table_id.slots ≡ count },
    ghost some: { 0 < count },
    ghost few: { count < 2 ^ 32 },
}

impl<P: Phase> Drop for TileTable<P> {
    fn drop(self) {
        let TileTable { table: _, count: _ } = self;
    }
}

impl<P: Phase> TileTable<P> {
    pub(crate) fn into_table(
        self,
    ) -> Table<Option<P::Tile>, View<P::Tile>, Aim<View<P::Tile>>, Tiles, Global>
        ensures { result ≡ self.table }
    {
        let TileTable { table, count: _ } = self;
        table
    }
}
