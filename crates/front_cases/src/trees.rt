// What no clause says of trees.
use crate::cases::{SHAPES, STATEMENTS};
use lua_lex::tokens;
use lua_parse::parse;
use std::alloc::Global;
use std::test::Fail;
use tree_core::{BinOp, Block, Exp, ExpNode, Stat, StatNode, UnOp};

fn letter(exp: &Exp) -> u8 {
    match &exp.node {
        ExpNode::Nil => b'0',
        ExpNode::True | ExpNode::False | ExpNode::Vararg => b'.',
        ExpNode::Int(_) => b'1',
        ExpNode::Str(_) => b's',
        ExpNode::Function(_) => b'F',
        ExpNode::Var(_) => b'v',
        ExpNode::Index(_, _) => b'i',
        ExpNode::Call(_, _) => b'C',
        ExpNode::Method(_, _, _) => b'M',
        ExpNode::Unary(operator, _) => before(*operator),
        ExpNode::Binary(operator, _, _) => between(*operator),
        ExpNode::And(_, _) => b'a',
        ExpNode::Or(_, _) => b'o',
        ExpNode::Paren(_) => b'(',
        ExpNode::Table(_) => b'{',
    }
}

fn before(operator: UnOp) -> u8 {
    match operator {
        UnOp::Not => b'n',
        UnOp::Len => b'#',
        UnOp::Neg => b'_',
        UnOp::BitNot => b'~',
    }
}

fn between(operator: BinOp) -> u8 {
    match operator {
        BinOp::Add => b'+',
        BinOp::Sub => b'-',
        BinOp::Mul => b'*',
        BinOp::Mod => b'%',
        BinOp::Idiv => b'/',
        BinOp::Band => b'&',
        BinOp::Bor => b'|',
        BinOp::Bxor => b'x',
        BinOp::Shl => b'L',
        BinOp::Shr => b'R',
        BinOp::Concat => b'c',
        BinOp::Eq => b'=',
        BinOp::Ne => b'!',
        BinOp::Lt => b'<',
        BinOp::Le => b'l',
        BinOp::Gt => b'>',
        BinOp::Ge => b'g',
    }
}

// What stands to the left and to the right in an expression.
fn operands(exp: &Exp) -> (Option<&Exp>, Option<&Exp>) {
    match &exp.node {
        ExpNode::Index(left, right)
        | ExpNode::Binary(_, left, right)
        | ExpNode::And(left, right)
        | ExpNode::Or(left, right) => (Some(&**left), Some(&**right)),
        ExpNode::Call(left, list) | ExpNode::Method(left, _, list) => (Some(&**left), list.first()),
        ExpNode::Unary(_, inner) | ExpNode::Paren(inner) => (Some(&**inner), Some(&**inner)),
        _ => (None, None),
    }
}

#[derive(Clone, Copy)]
enum Side {
    Left,
    Right,
}

fn operand(exp: &Exp, side: Side) -> Option<&Exp> {
    let (left, right) = operands(exp);
    match side {
        Side::Left => left,
        Side::Right => right,
    }
}

// The letters of an expression and of those that are met from it to one side.
fn letters_to(alloc: Global, exp: &Exp, side: Side) -> Result<Vec<u8>, Fail> {
    let mut letters = Vec::new(alloc);
    letters.push(letter(exp))?;
    let mut at = operand(exp, side);
    for _ in 0..8u32 {
        if let Some(next) = at {
            letters.push(letter(next))?;
            at = operand(next, side);
        }
    }
    Ok(letters)
}

fn stat_letter(stat: &Stat) -> u8 {
    match &stat.node {
        StatNode::Empty => b';',
        StatNode::Local(_, _) => b'L',
        StatNode::LocalFunction(_, _) => b'f',
        StatNode::Assign(_, _) => b'A',
        StatNode::Call(_) => b'C',
        StatNode::Do(_) => b'D',
        StatNode::While(_, _) => b'W',
        StatNode::Repeat(_, _) => b'R',
        StatNode::If(_, _) => b'I',
        StatNode::NumFor(_, _, _, _, _) => b'N',
        StatNode::GenFor(_, _, _) => b'G',
        StatNode::Label(_) => b':',
        StatNode::Goto(_) => b'g',
        StatNode::Break => b'b',
    }
}

fn tree(alloc: Global, source: &[u8]) -> Result<Block, Fail> {
    let list = tokens(alloc, source)?;
    match parse(alloc, list) {
        Ok(block) => Ok(block),
        Err(fault) => Err(Fail::from(fault)),
    }
}

#[test]
fn operators_and_suffixes_have_their_operands(rt: HostRuntime) -> Result<(), Fail> {
    for (source, before, behind) in &SHAPES {
        let mut whole = Vec::new(rt.alloc());
        whole.extend_from_slice(b"return ".as_slice())?;
        whole.extend_from_slice(source)?;
        let block = tree(rt.alloc(), &whole)?;
        let values = block.result.as_ref().ok_or("no value")?;
        let exp = values.first().ok_or("no value")?;
        assert_eq!(rt;
            letters_to(rt.alloc(), exp, Side::Left)?.as_slice(),
            *before
        );
        assert_eq!(rt;
            letters_to(rt.alloc(), exp, Side::Right)?.as_slice(),
            *behind
        );
    }
    Ok(())
}

#[test]
fn statements_are_told_apart(rt: HostRuntime) -> Result<(), Fail> {
    for (source, letters) in &STATEMENTS {
        let block = tree(rt.alloc(), source)?;
        let mut found = Vec::new(rt.alloc());
        for stat in &block.stats {
            found.push(stat_letter(stat))?;
        }
        if block.result.is_some() {
            found.push(b'r')?;
        }
        assert_eq!(rt; found.as_slice(), *letters);
    }
    Ok(())
}
