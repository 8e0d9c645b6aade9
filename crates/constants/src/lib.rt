// The round constants S. Document 01, "Compression".
#![tactic(auto)]

ghost use Rattle.std.specs.Prelude.{◌≡◌, ◌*◌, ◌<◌, length, replicate};
ghost use mathlib.Core.List.{map, flatten};
ghost use Rattle.constants.specs.Constants.{RoundTable, table_entries, table_parts, part_entries};

mod table; // table.rt: the constants of all rounds, made by table.py

// The table stands in so many parts, each of so many constants. One part at a time is in use.
pub const PART: usize = 273;

pub const PARTS: usize = 15;

// The whole table, whose rule is shown here, once over all.
pub fn round_constants() -> &'static [[u64; PART]; PARTS]
    ensures { RoundTable 0 (flatten result.now) × (length (flatten result.now) ≡ table_entries) × (map length result.now ≡ replicate table_parts part_entries) }
{
    &table::ROUND_CONSTANTS
}

// The constants of the first 273 rounds: copied once a message, and lent to each compression of it.
pub fn first_part() -> [u64; PART]
    ensures { RoundTable 0 result }
{
    part(0)
}

// The constants of the 273 rounds from 273 * number on.
pub fn part(number: usize) -> [u64; PART]
    requires { number < table_parts }
    ensures { RoundTable (part_entries * number) result }
{
    round_constants()[number]
}
