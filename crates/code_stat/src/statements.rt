// Statements and blocks (Lua 5.4 manual, 3.3).
ghost use Rattle.std.specs.Prelude.{◌≡◌, ◌+◌, true, [], ◌∷◌, OnOk, IfOk, length, map, drop};
ghost use Rattle.std.specs.Option.{option_map};
ghost use Rattle.tree_core.specs.Tree.{stats, arms, EndArms, While, Repeat};
ghost use Rattle.tree_core.specs.Plain.{plain_arm, plain_exp, plain_stat, plain_block};
ghost use Rattle.tree_terms.specs.Levels.{levels_after, levels_in};
ghost use Rattle.code_of.specs.Levels.{closings_after, made_in_block};
ghost use Rattle.code_stat.specs.Declares.{DeclaresStat, DeclaresStats, DeclaresBlock, DeclaresOpen, DeclaresRounds};
ghost use Rattle.code_stat.specs.Drafts.{Wrote, WroteStat, WroteStats, WroteBlock, WroteOpen};
ghost use Rattle.code_stat.specs.Forms.{choice, counted_code, iterated_code};

use crate::forms::write_range;
use crate::jumps::{Destination, settle_all};
use crate::labels::{Frame, meet_label};
use crate::marks::write_close;
use crate::returns::write_return;
use crate::scope::{Scope, closed_below, scope_after, void_from};
use crate::stores::behind;
use crate::writer::Writer;
use code_core::Opcode;
use code_emitter::next;
use code_expr::{condition, list};
use int_core::Allocated;
use tree_core::{Arm, Block, Exp, Name, Stat, StatNode};

impl Writer {
    /// Writes a statement, where so many locals are in scope, and a variable is to be closed or none is.
    #[cycle(statements)]
    fn statement(&mut self, stat: &Stat, closing: bool, level: usize) -> Allocated<()>
        ensures code { OnOk result (WroteStat self.old self.new (plain_stat stat.now) closing level) }
        ensures variables { OnOk result (DeclaresStat self.old self.new (plain_stat stat.now) closing level) }
    {
        let line = stat.line;
        match &stat.node {
            StatNode::Empty => Ok(()),
            StatNode::Label(_) => Ok(()),
            StatNode::Local(names, values) => self.local(names, values, level, line),
            StatNode::LocalFunction(name, body) => self.local_function(name, body, level),
            StatNode::Assign(targets, values) => self.assign(targets, values, level, line),
            StatNode::Call(call) => self.call(call, level),
            StatNode::Do(block) => self.block(block, closing, level, level),
            StatNode::While(test, block) => self.while_loop(test, block, closing, level, line),
            StatNode::Repeat(block, test) => self.repeat_loop(block, test, closing, level, line),
            StatNode::If(list, otherwise) => self.arms(list, 0, otherwise, closing, level, line),
            StatNode::NumFor(name, from, limit, step, block) => {
                write_range(&mut self.emitter, from, limit, step, level, line)?;
                self.counted(name, block, closing, level, line)?;
                Ok(())
            }
            StatNode::GenFor(names, values, block) => {
                list(&mut self.emitter, values, Some(4), level, line)?;
                self.iterated(names, block, level, line)?;
                Ok(())
            }
            StatNode::Goto(name) => self.goto(name, closing, line),
            StatNode::Break => self.leave_loop(closing, line),
        }
    }

    /// Writes statements of a block, and answers what is in scope behind them.
    #[cycle(statements)]
    pub(crate) fn statements(
        &mut self,
        list: &Vec<Stat>,
        falls: bool,
        closing: bool,
        outer: usize,
        level: usize,
    ) -> Allocated<Scope>
        ensures code { OnOk result (WroteStats self.old self.new (stats (map plain_stat list.now.items)) falls closing outer level) }
        ensures variables { OnOk result (DeclaresStats self.old self.new (stats (map plain_stat list.now.items)) closing level) }
        ensures level { IfOk result (λ scope. scope.level ≡ levels_after (stats (map plain_stat list.now.items)) level) }
        ensures closing { IfOk result (λ scope. scope.closing ≡ closings_after (stats (map plain_stat list.now.items)) closing) }
    {
        let first = self.jumps.len();
        let frame = Frame {
            falls,
            outer,
            void_from: void_from(list),
        };
        let mut passed = Vec::new(self.alloc);
        let mut scope = Scope { level, closing };
        let mut done = 0;
        for stat in list.iter() {
            done = next(done)?;
            let from = self.jumps.len();
            let here = Destination {
                place: self.place(),
                level: scope.level,
            };
            self.statement(stat, scope.closing, scope.level)?;
            settle_all(&mut self.jumps, from, &passed);
            let there = frame.level_at(done, scope.level);
            meet_label(
                self.alloc,
                &mut self.jumps,
                &mut passed,
                first,
                stat,
                here,
                there,
            )?;
            scope = scope_after(stat, scope)?;
        }
        Ok(scope)
    }

    /// Writes a block around which `outer` locals are in scope, and `level` with those that stand in front of it.
    #[cycle(statements)]
    pub(crate) fn block(
        &mut self,
        block: &Block,
        closing: bool,
        outer: usize,
        level: usize,
    ) -> Allocated<()>
        ensures code { OnOk result (WroteBlock self.old self.new (plain_block block.now) closing outer level) }
        ensures variables { OnOk result (DeclaresBlock self.old self.new (plain_block block.now) closing outer level) }
    {
        let first = self.variables.count();
        match &block.result {
            None => {
                let before = self.emitter.made();
                let end = self.statements(&block.stats, true, closing, outer, level)?;
                let behind = self.emitter.made();
                let top = closed_below(&block.stats, behind > before, outer, end.level);
                write_close(&mut self.emitter, outer, top, block.line)?;
                let closed = self.place();
                self.variables.end_scopes(first, closed)?;
                Ok(())
            }
            Some(values) => {
                let end = self.statements(&block.stats, false, closing, outer, level)?;
                let back = self.back.back;
                write_return(
                    &mut self.emitter,
                    end.closing,
                    values,
                    end.level,
                    block.line,
                    back,
                )?;
                let returned = self.place();
                self.variables.end_scopes(first, returned)?;
                Ok(())
            }
        }
    }

    /// Writes the block of a `repeat` up to its test, and answers how many locals are in scope there.
    #[cycle(statements)]
    fn open_block(&mut self, block: &Block, closing: bool, level: usize) -> Allocated<usize>
        ensures code { OnOk result (WroteOpen self.old self.new (plain_block block.now) closing level) }
        ensures variables { OnOk result (DeclaresOpen self.old self.new (plain_block block.now) closing level) }
        ensures level { IfOk result (λ n. n ≡ levels_in (plain_block block.now) level) }
    {
        let end = self.statements(&block.stats, false, closing, level, level)?;
        match &block.result {
            None => Ok(end.level),
            Some(values) => {
                let back = self.back.back;
                write_return(
                    &mut self.emitter,
                    end.closing,
                    values,
                    end.level,
                    block.line,
                    back,
                )?;
                Ok(end.level)
            }
        }
    }

    /// Writes `while`.
    #[cycle(statements)]
    fn while_loop(
        &mut self,
        test: &Exp,
        block: &Block,
        closing: bool,
        level: usize,
        line: u32,
    ) -> Allocated<()>
        ensures code { OnOk result (WroteStat self.old self.new (While line (plain_exp test.now) (plain_block block.now)) closing level) }
        ensures variables { OnOk result (DeclaresStat self.old self.new (While line (plain_exp test.now) (plain_block block.now)) closing level) }
    {
        let start = self.place();
        let first = self.jumps.len();
        let away = condition(&mut self.emitter, test, true, level)?;
        self.block(block, closing, level, level)?;
        self.emitter.put_jump_back(start, line)?;
        let end = self.place();
        self.emitter.lead(&away, end)?;
        self.end_loop(first, level);
        Ok(())
    }

    /// Writes `repeat`.
    #[cycle(statements)]
    fn repeat_loop(
        &mut self,
        block: &Block,
        test: &Exp,
        closing: bool,
        level: usize,
        line: u32,
    ) -> Allocated<()>
        ensures code { OnOk result (WroteStat self.old self.new (Repeat line (plain_block block.now) (plain_exp test.now)) closing level) }
        ensures variables { OnOk result (DeclaresStat self.old self.new (Repeat line (plain_block block.now) (plain_exp test.now)) closing level) }
    {
        let start = self.place();
        let first = self.jumps.len();
        let declared = self.variables.count();
        let before = self.emitter.made();
        let inner = self.open_block(block, closing, level)?;
        let away = condition(&mut self.emitter, test, false, inner)?;
        let behind = self.emitter.made();
        let top = closed_below(&block.stats, behind > before, level, inner);
        write_close(&mut self.emitter, level, top, block.line)?;
        self.emitter.put_jump_back(start, line)?;
        let exit = self.place();
        self.emitter.lead(&away, exit)?;
        write_close(&mut self.emitter, level, top, block.line)?;
        self.end_loop(first, level);
        let place = self.place();
        self.variables.end_scopes(declared, place)?;
        Ok(())
    }

    /// Writes the rounds of a numeric `for`, behind its values.
    #[cycle(statements)]
    fn counted(
        &mut self,
        name: &Name,
        block: &Block,
        closing: bool,
        level: usize,
        line: u32,
    ) -> Allocated<()>
        ensures code { OnOk result (Wrote self.old self.new (made_in_block (plain_block block.now)) (λ reach. counted_code self.old.emitter.constants self.old.back (plain_block block.now) closing level self.old.emitter.made (length self.old.emitter.steps) line reach)) }
        ensures variables { OnOk result (DeclaresRounds self.old self.new 3 (name.now ∷ []) (plain_block block.now) closing (level + 3) (level + 4) 2) }
    {
        let first = self.jumps.len();
        let start = self.place();
        let outer = behind(level, 3)?;
        let inner = behind(level, 4)?;
        let hidden = self.variables.count();
        self.variables.hide(3, start)?;
        self.emitter.put_abx(Opcode::ForPrep, level, 0, line)?;
        let named = self.variables.count();
        self.variables.declare(self.alloc, name, next(start)?)?;
        self.block(block, closing, outer, inner)?;
        let end = self.place();
        self.variables.end_scopes(named, end)?;
        let size = end.saturating_sub(start + 1);
        self.emitter
            .put_abx(Opcode::ForLoop, level, size + 1, line)?;
        self.emitter
            .set_abx(start, Opcode::ForPrep, level, size, line);
        self.end_loop(first, level);
        let place = self.place();
        self.variables.end_scopes(hidden, place)?;
        Ok(())
    }

    /// Writes the rounds of a generic `for`, behind its values.
    #[cycle(statements)]
    fn iterated(
        &mut self,
        names: &Vec<Name>,
        block: &Block,
        level: usize,
        line: u32,
    ) -> Allocated<()>
        ensures code { OnOk result (Wrote self.old self.new (made_in_block (plain_block block.now)) (λ reach. iterated_code self.old.emitter.constants self.old.back (plain_block block.now) (length names.now.items) level self.old.emitter.made (length self.old.emitter.steps) line reach)) }
        ensures variables { OnOk result (DeclaresRounds self.old self.new 4 names.now.items (plain_block block.now) true (level + 4) (level + 4 + length names.now.items) 4) }
    {
        let first = self.jumps.len();
        let start = self.place();
        let outer = behind(level, 4)?;
        let inner = behind(outer, names.len())?;
        let hidden = self.variables.count();
        self.variables.hide(4, start)?;
        self.emitter.put_abx(Opcode::TForPrep, level, 0, line)?;
        let named = self.variables.count();
        self.variables
            .declare_names(self.alloc, names, next(start)?)?;
        self.block(block, true, outer, inner)?;
        let end = self.place();
        self.variables.end_scopes(named, end)?;
        let size = end.saturating_sub(start + 1);
        self.emitter
            .put_abc(Opcode::TForCall, level, 0, names.len(), line)?;
        self.emitter
            .put_abx(Opcode::TForLoop, level, behind(size, 2)?, line)?;
        self.emitter.put_abc(Opcode::Close, level, 0, 0, line)?;
        self.emitter
            .set_abx(start, Opcode::TForPrep, level, size, line);
        self.end_loop(first, level);
        let place = self.place();
        self.variables.end_scopes(hidden, place)?;
        Ok(())
    }

    /// Writes the arms of an `if` from one on, and what stands behind `else`.
    #[cycle(statements)]
    fn arms(
        &mut self,
        list: &Vec<Arm>,
        at: usize,
        otherwise: &Option<Box<Block>>,
        closing: bool,
        level: usize,
        line: u32,
    ) -> Allocated<()>
        ensures code { OnOk result (WroteStat self.old self.new (choice line (arms (map plain_arm (drop at list.now.items))) (option_map (λ b. plain_block b.value) otherwise.now)) closing level) }
        ensures variables { OnOk result (DeclaresStat self.old self.new (choice line (arms (map plain_arm (drop at list.now.items))) (option_map (λ b. plain_block b.value) otherwise.now)) closing level) }
    {
        if at >= list.len() {
            self.otherwise(otherwise, closing, level, line)?;
            return Ok(());
        }
        let arm = &list[at];
        let away = condition(&mut self.emitter, &arm.test, true, level)?;
        self.block(&arm.block, closing, level, level)?;
        let past = self.emitter.put_open_jump(line)?;
        let first = self.jumps.len();
        let place = self.place();
        self.arms(list, at + 1, otherwise, closing, level, line)?;
        let end = self.place();
        if end > place {
            self.emitter.land(past);
            self.emitter.lead(&away, place)?;
            return Ok(());
        }
        self.emitter.cut(past);
        self.emitter.lead(&away, past)?;
        self.jumps.truncate(first);
        Ok(())
    }

    /// Writes what stands behind `else`.
    #[cycle(statements)]
    fn otherwise(
        &mut self,
        otherwise: &Option<Box<Block>>,
        closing: bool,
        level: usize,
        line: u32,
    ) -> Allocated<()>
        ensures code { OnOk result (WroteStat self.old self.new (choice line EndArms (option_map (λ b. plain_block b.value) otherwise.now)) closing level) }
        ensures variables { OnOk result (DeclaresStat self.old self.new (choice line EndArms (option_map (λ b. plain_block b.value) otherwise.now)) closing level) }
    {
        match otherwise {
            None => Ok(()),
            Some(block) => {
                self.block(block, closing, level, level)?;
                Ok(())
            }
        }
    }
}
