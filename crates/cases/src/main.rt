// Cases that are run: the examples of document 01 that are not proved as theorems, the most trips, each kind of damage once, days, and the second ruler.
// Each writes a line, `ok` or `WRONG` and its name. Drawn tables, questions, damage and days of edits are the model's, through `probe` (tests/agree).
#![tactic(auto)]

mod damage_cases;
mod day_cases;
mod example_cases;
mod full_cases;
mod say;
mod spread_cases;

use std::io;

fn main(rt: HostRuntime) -> io::Result<()> {
    example_cases::all(&rt)?;
    damage_cases::all(&rt)?;
    day_cases::all(&rt)?;
    spread_cases::all(&rt)?;
    full_cases::all(&rt)
}
