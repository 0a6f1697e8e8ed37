// The SPI commands of 000's Table 1, but for the three factory ones, in one table: dispatch and the checks of length
// and reply read it.
#![tactic(auto)]

ghost use Rattle.std.specs.Prelude.{◌≡◌, slice_get};
ghost use Rattle.commands.specs.Table.{rows, lookup, place_in};

mod table;
pub mod verb;

#[derive(Clone, Copy, Debug, PartialEq, Eq)]
pub struct Row {
    pub command: u8,
    // The fewest and the most bytes after the command byte.
    pub least: u8,
    pub most: u8,
    // The bytes of its reply.
    pub out: u8,
    pub verb: u8,
    // Which filter or mask, for the commands that name one.
    pub index: u8,
}

// The row of a line of the table.
fn at(i: usize) -> Option<Row>
    ensures { result ≡ slice_get rows i }
{
    let [command, least, most, out, verb, index] = table::ROWS.get(i).copied()?;
    Some(Row {
        command,
        least,
        most,
        out,
        verb,
        index,
    })
}

// The place of the command's row. It is looked up and not searched for: a search took more time than all else that a
// transfer does (docs/DECISIONS.md, 50).
#[tactic(auto, unfolding(crate::specs::Table::rows))]
fn place(command: u8) -> u8
    ensures { result ≡ place_in rows command }
{
    table::PLACES[(command / 8) as usize][(command % 8) as usize]
}

// The command's row.
pub fn find(command: u8) -> Option<Row>
    ensures { result ≡ lookup rows command }
{
    at(place(command) as usize)
}
