// Prints what judging a few worked examples answers.
#![tactic(auto)]

mod examples;
mod line;

use examples::worked_examples;
use line::JudgedLine;

fn main(rt: HostRuntime) -> anyhow::Result<()> {
    for entry in worked_examples() {
        rt.print(JudgedLine(&entry))?;
    }
    Ok(())
}
