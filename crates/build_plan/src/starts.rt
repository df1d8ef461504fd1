//! The programs of a configuration.

ghost use Rattle.std.specs.Prelude.{◌≡◌, ◌++◌, IfOk, OnOk, map};
ghost use Rattle.build_plan.specs.Building.{start_of, starts_of};

use app_config::{Config, Program};
use build_runs::Start;
use load_model::{List, NoMemory};
use std::alloc::Global;

/// The programs of a configuration, the main one first, each with the names that it opens.
pub fn starts_in(alloc: Global, config: &Config) -> Result<List<Start>, NoMemory>
    ensures { IfOk result (λ starts. starts ≡ starts_of config.now) }
{
    let mut starts = List::new(alloc);
    starts.push(start_of(alloc, &config.main)?)?;
    push_tools(alloc, &mut starts, config.tools.as_slice())?;
    Ok(starts)
}

/// Adds these programs.
fn push_tools(alloc: Global, starts: &mut List<Start>, tools: &[Program]) -> Result<(), NoMemory>
    ensures { OnOk result (starts.new ≡ starts.old ++ map start_of tools.now) }
{
    'tools: for tool in tools {
        starts.push(start_of(alloc, tool)?)?;
    }
    Ok(())
}

fn start_of(alloc: Global, program: &Program) -> Result<Start, NoMemory>
    ensures { IfOk result (λ start. start ≡ start_of program.now) }
{
    Ok(Start {
        path: program.path.copy(alloc)?,
        opens: program.opens.copy(alloc)?,
    })
}
