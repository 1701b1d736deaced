// The change of flags that brings a held contract back, from tables.
ghost use Rattle.std.specs.Prelude.{◌≡◌};
ghost use Rattle.rules.specs.Flags.{brings_back};

use crate::accepted::Accepted;
use curve::Sides;

// The answers from one old flag to each new flag, 0 to 3.
#[derive(Clone, Copy)]
struct Row {
    to: [bool; 4],
}

// A row for each old flag, 0 to 3.
#[derive(Clone, Copy)]
struct Table {
    from: [Row; 4],
}

// A table for those who hold low only, high only, and both: in the order of `Sides`. (Arrays of a fixed size with no count beside
// them; a table of tables, each row in a struct, is a form that the project wants.)
const TABLES: [Table; 3] = [
    Table {
        from: [
            Row {
                to: [false, true, false, true],
            },
            Row {
                to: [false, false, false, false],
            },
            Row {
                to: [false, true, false, true],
            },
            Row {
                to: [false, false, false, false],
            },
        ],
    },
    Table {
        from: [
            Row {
                to: [false, false, true, true],
            },
            Row {
                to: [false, false, true, true],
            },
            Row {
                to: [false, false, false, false],
            },
            Row {
                to: [false, false, false, false],
            },
        ],
    },
    Table {
        from: [
            Row {
                to: [false, true, true, true],
            },
            Row {
                to: [false, false, true, true],
            },
            Row {
                to: [false, true, false, true],
            },
            Row {
                to: [false, false, false, false],
            },
        ],
    },
];

// Whether the change from the old reading's flag to the new one's brings a held contract back.
pub fn brings_back(held: Sides, old: &Accepted, new: &Accepted) -> bool
    ensures { result ≡ brings_back held old.now.reading.flag new.now.reading.flag }
{
    TABLES[held as usize].from[old.flag()].to[new.flag()]
}
