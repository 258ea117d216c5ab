// A level with its values.
ghost use Rattle.std.specs.Prelude.{◌≡◌, length};
ghost use Rattle.tables.specs.Lent.{mesh};

use crate::rows::Rows;
use kinds::value::ValueKind;
use tables::lawful::LawfulTables;

// A lawful mesh, and for each of its points a row that makes a value.
#[derive(Drop)]
pub(crate) struct Valued<'a, 'r, K: ValueKind> {
    pub(crate) level: LawfulTables<'a>,
    pub(crate) rows: Rows<'r, K>,
    ghost count: { length rows.rows.now ≡ (mesh level.tables).points },
}
