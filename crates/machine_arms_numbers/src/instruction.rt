// The instructions that the running frame does by itself, by their opcodes.
ghost use Rattle.std.specs.Prelude.{◌≡◌, IfSome, IfNone, IsTrue, is_some};
ghost use Rattle.code_core.specs.declared.opcode.Opcode.TheVariants.{Jmp};
ghost use Rattle.machine_arms_numbers.specs.Numbers.{always_goes};
ghost use Rattle.machine_view.specs.View.{IsAt, Goes};

use crate::arithmetic::{with_numeral, with_one, with_two};
use crate::comparisons::{
    equal_constant, equal_number, equal_registers, order_number, order_registers,
};
use crate::jumps::{begin_varargs, for_each_loop, for_each_prep, for_loop, for_prep, jump};
use crate::loads::{
    load_constant, load_far_constant, load_integer, load_nil, load_truth, move_register,
};
use crate::site::Site;
use crate::truths::{negate_truth, test, test_set};
use code_core::{Instruction, Opcode};
use table_core::Value;

/// Does an instruction on the registers of its frame and answers where the frame goes on. `None`, with all as before, where that
/// takes more than the frame: a call, a handler, an error, a table, a captured variable, a spent budget.
#[inline(always)]
pub fn run_instruction(
    op: Opcode,
    words: &[Instruction],
    constants: &[Value],
    registers: &mut [Value],
    i: Instruction,
    pc: usize,
    fuel: &mut u64,
) -> Option<usize>
    requires { IsAt op i words.now constants.now registers.old pc }
    ensures goes { IfSome result (λ to. Goes op i words.now constants.now registers.old pc fuel.old registers.new to fuel.new) }
    ensures kept { IfNone result (registers.new ≡ registers.old) }
    ensures unpaid { IfNone result (fuel.new ≡ fuel.old) }
    ensures always { IsTrue (always_goes op) → IsTrue (is_some result) }
    ensures spent { IfNone result (op ≡ Jmp → fuel.old ≡ 0) }
{
    let site = Site {
        words,
        constants,
        word: i,
        pc,
    };
    match op {
        Opcode::Move => Some(move_register(site, registers)),
        Opcode::LoadI => Some(load_integer(site, registers)),
        Opcode::LoadK => Some(load_constant(site, registers)),
        Opcode::LoadKx => Some(load_far_constant(site, registers)),
        Opcode::LoadFalse => Some(load_truth(Opcode::LoadFalse, site, registers, false, 1)),
        Opcode::LFalseSkip => Some(load_truth(Opcode::LFalseSkip, site, registers, false, 2)),
        Opcode::LoadTrue => Some(load_truth(Opcode::LoadTrue, site, registers, true, 1)),
        Opcode::LoadNil => Some(load_nil(site, registers)),
        // An arm for each operator, so that the choice is not made a second time in it.
        Opcode::AddI => Some(with_numeral(Opcode::AddI, site, registers)),
        Opcode::ShrI => Some(with_numeral(Opcode::ShrI, site, registers)),
        Opcode::ShlI => Some(with_numeral(Opcode::ShlI, site, registers)),
        Opcode::AddK => with_two(Opcode::AddK, site, registers),
        Opcode::SubK => with_two(Opcode::SubK, site, registers),
        Opcode::MulK => with_two(Opcode::MulK, site, registers),
        Opcode::ModK => with_two(Opcode::ModK, site, registers),
        Opcode::IDivK => with_two(Opcode::IDivK, site, registers),
        Opcode::BAndK => with_two(Opcode::BAndK, site, registers),
        Opcode::BOrK => with_two(Opcode::BOrK, site, registers),
        Opcode::BXorK => with_two(Opcode::BXorK, site, registers),
        Opcode::Add => with_two(Opcode::Add, site, registers),
        Opcode::Sub => with_two(Opcode::Sub, site, registers),
        Opcode::Mul => with_two(Opcode::Mul, site, registers),
        Opcode::Mod => with_two(Opcode::Mod, site, registers),
        Opcode::IDiv => with_two(Opcode::IDiv, site, registers),
        Opcode::BAnd => with_two(Opcode::BAnd, site, registers),
        Opcode::BOr => with_two(Opcode::BOr, site, registers),
        Opcode::BXor => with_two(Opcode::BXor, site, registers),
        Opcode::Shl => with_two(Opcode::Shl, site, registers),
        Opcode::Shr => with_two(Opcode::Shr, site, registers),
        Opcode::Unm => with_one(Opcode::Unm, site, registers),
        Opcode::BNot => with_one(Opcode::BNot, site, registers),
        Opcode::Not => Some(negate_truth(site, registers)),
        Opcode::Jmp => jump(site, registers, fuel),
        Opcode::Eq => equal_registers(site, registers),
        Opcode::EqK => equal_constant(site, registers),
        Opcode::EqI => equal_number(site, registers),
        Opcode::Lt => order_registers(Opcode::Lt, site, registers),
        Opcode::Le => order_registers(Opcode::Le, site, registers),
        Opcode::LtI => order_number(Opcode::LtI, site, registers),
        Opcode::LeI => order_number(Opcode::LeI, site, registers),
        Opcode::GtI => order_number(Opcode::GtI, site, registers),
        Opcode::GeI => order_number(Opcode::GeI, site, registers),
        Opcode::Test => Some(test(site, registers)),
        Opcode::TestSet => Some(test_set(site, registers)),
        Opcode::ForLoop => for_loop(site, registers, fuel),
        Opcode::ForPrep => for_prep(site, registers),
        Opcode::TForPrep => for_each_prep(site, registers),
        Opcode::TForLoop => for_each_loop(site, registers, fuel),
        Opcode::VarArgPrep => Some(begin_varargs(site, registers)),
        _ => None,
    }
}
