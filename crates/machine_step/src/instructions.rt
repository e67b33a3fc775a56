// The instruction at the place of the Lua frame on top, by its form (luaV_execute of lvm.c of Lua 5.4).
ghost use Rattle.std.specs.Prelude.{◌≡◌, IfOk, OnErr};
ghost use Rattle.instruction_forms.specs.declared.form.Form.TheVariants.{Close};
ghost use Rattle.machine_moves.specs.Ending.{ending_of};
ghost use Rattle.move_laws.specs.Memory.{InOrder};
ghost use Rattle.machine_step.specs.Places.{MayRun};
ghost use Rattle.machine_step.specs.Step.{Goes};

use instruction_forms::Form;
use int_core::Allocated;
use lua_heap::World;
use machine_call_rows::{CallAt, call, tail_call};
use machine_loops::{go_round, jump, loop_over, start_loop};
use machine_moves::Ending;
use machine_objects::{extra_arguments, fill_table, new_function};
use machine_operations::{arithmetic, concatenate, operate};
use machine_returns::{close_variables, mark, return_some, return_values};
use machine_rows::{
    clear, go_on, load, load_far, negate, new_table, store_upvalue, test, test_set,
};

/// The Lua frame on top does the instruction at its place, which has this form. After a refusal the world is in order, and no more has been printed.
pub(crate) fn run_instruction(
    world: &mut World,
    budget: &mut u64,
    pc: usize,
    form: Form,
) -> Allocated<Ending>
    requires { MayRun world.old pc form }
    ensures does { IfOk result (λ next. Goes world.old budget.old world.new budget.new (ending_of next)) }
    ensures order { InOrder world.new }
    ensures err { OnErr result (world.new.printed ≡ world.old.printed) }
{
    match form {
        Form::Next => {
            go_on(world, pc);
            Ok(Ending::Go)
        }
        Form::Load { from, to, skips } => {
            load(world, pc, from, to, skips);
            Ok(Ending::Go)
        }
        Form::LoadFar { to } => {
            load_far(world, pc, to);
            Ok(Ending::Go)
        }
        Form::Clear { from, count } => {
            clear(world, pc, from, count);
            Ok(Ending::Go)
        }
        Form::StoreUpvalue { from, upvalue } => {
            store_upvalue(world, pc, from, upvalue);
            Ok(Ending::Go)
        }
        Form::Operate {
            operation,
            operands,
            also,
            after,
        } => operate(world, budget, pc, operation, operands, also, after),
        Form::Arithmetic {
            operator,
            left,
            right,
            to,
        } => arithmetic(world, pc, operator, left, right, to),
        Form::Negate { from, to } => {
            negate(world, pc, from, to);
            Ok(Ending::Go)
        }
        Form::Concatenate { first, count } => concatenate(world, budget, pc, first, count),
        Form::Close { from } => close_from(world, budget, pc, from),
        Form::Mark { register, ahead } => mark(world, pc, register, ahead),
        Form::Jump { by } => Ok(jump(world, budget, pc, by)),
        Form::Test { register, wanted } => {
            test(world, pc, register, wanted);
            Ok(Ending::Go)
        }
        Form::TestSet { from, to, wanted } => {
            test_set(world, pc, from, to, wanted);
            Ok(Ending::Go)
        }
        Form::StartLoop { base, by } => start_loop(world, pc, base, by),
        Form::Loop { base, by } => go_round(world, budget, pc, base, by),
        Form::LoopOver { base, by } => Ok(loop_over(world, budget, pc, base, by)),
        Form::Call {
            function,
            count,
            keeps,
            iterates,
        } => {
            let at = CallAt {
                function,
                count,
                keeps,
                iterates,
            };
            call(world, budget, at)
        }
        Form::TailCall { function, count } => tail_call(world, budget, function, count),
        Form::Return { from, count } => return_values(world, budget, from, count),
        Form::ReturnSome { from, count } => return_some(world, budget, from, count),
        Form::NewTable { to } => {
            new_table(world, pc, to)?;
            Ok(Ending::Go)
        }
        Form::FillTable {
            table,
            count,
            last,
            far,
        } => fill_table(world, pc, table, count, last, far),
        Form::NewFunction { inner, to } => new_function(world, pc, inner, to),
        Form::ExtraArguments { to, count } => extra_arguments(world, pc, to, count),
    }
}

/// Variables are closed (CLOSE).
fn close_from(world: &mut World, budget: &mut u64, pc: usize, from: usize) -> Allocated<Ending>
    requires { MayRun world.old pc (Close from) }
    ensures does { IfOk result (λ next. Goes world.old budget.old world.new budget.new (ending_of next)) }
    ensures order { InOrder world.new }
    ensures err { OnErr result (world.new.printed ≡ world.old.printed) }
{
    close_variables(world, budget, pc, from as u32)
}
