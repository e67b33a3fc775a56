// What is left of a session that closed.
ghost use Rattle.std.specs.Prelude.{◌≡◌, ◌-◌, ◌≤◌, List, ℕ, Option, IfErr, IfOk, IfSome, option_map, true};
ghost use Rattle.step_laws.specs.Turns.{MayGoOn};
ghost use Rattle.lua_feed.specs.Closes.{close_of};
ghost use Rattle.machine_runs.specs.Runs.{is_suspended};
ghost use Rattle.program.specs.Faults.{status_of};
ghost use Rattle.program.specs.Outcomes.{IsLeftBy, LeavesFor};
ghost use Rattle.program.specs.Report.{CodeFits, ImageFits, is_quiet};

use crate::fault::Fault;
use io_edge::Files;
use lua_feed::Close;
use lua_heap::World;
use lua_saving::save_session;

/// Leaves a session that closed: where it waits for a line and a file is named for that, its image is put into the file, which is written only once the whole
/// image is there. Answers a status that has no line on standard error.
pub fn leave_session<F: Files>(
    world: &World,
    close: Close,
    save: Option<&str>,
    files: &mut F,
) -> Result<u8, Fault>
    requires { close_of close ≡ is_suspended → MayGoOn world.now }
    ensures left { IsLeftBy world.now (close_of close) (option_map (λ name. name.now) save.entry) (record { faults = F.faults files.old; faults' = F.faults files.new; content = F.held files.old; content' = F.held files.new }) (status_of result) }
    ensures quiet { IfOk result (λ status. is_quiet status ≡ true) }
    ensures code { (content : List ℕ) → IfErr result (λ fault. CodeFits content fault) }
    ensures image { (content : List ℕ) → IfErr result (λ fault. ImageFits content fault) }
    ensures limits { IfErr result (λ fault. LeavesFor (close_of close) fault) }
    ensures once { F.faults files.new - F.faults files.old ≤ 1 }
{
    match close {
        Close::Returned => Ok(0),
        Close::Failed => Ok(1),
        Close::Spent => Err(Fault::Spent),
        Close::Suspended => leave_waiting(world, save, files),
    }
}

/// Leaves a session that waits for a line.
fn leave_waiting<F: Files>(world: &World, save: Option<&str>, files: &mut F) -> Result<u8, Fault>
    requires { MayGoOn world.now }
    ensures left { IsLeftBy world.now is_suspended (option_map (λ name. name.now) save.entry) (record { faults = F.faults files.old; faults' = F.faults files.new; content = F.held files.old; content' = F.held files.new }) (status_of result) }
    ensures quiet { IfOk result (λ status. is_quiet status ≡ true) }
    ensures code { (content : List ℕ) → IfErr result (λ fault. CodeFits content fault) }
    ensures image { (content : List ℕ) → IfErr result (λ fault. ImageFits content fault) }
    ensures limits { IfErr result (λ fault. LeavesFor is_suspended fault) }
    ensures once { F.faults files.new - F.faults files.old ≤ 1 }
{
    let Some(name) = save else {
        return Ok(3);
    };
    let image = save_session(world)?;
    files.put(name, image.as_slice())?;
    Ok(3)
}
