// The words of the code that luac writes for `print("hi")`, taken apart and made again.
use code_core::{Instruction, Opcode};

/// A word, its opcode and its fields A, B and C.
const WORDS: [(u32, Opcode, u8, u8, u8); 5] = [
    (0x0000_0051, Opcode::VarArgPrep, 0, 0, 0),
    (0x0000_000b, Opcode::GetTabUp, 0, 0, 0),
    (0x0000_8083, Opcode::LoadK, 1, 0, 0),
    (0x0102_0044, Opcode::Call, 0, 2, 1),
    (0x0101_0046, Opcode::Return, 0, 1, 1),
];

#[test]
fn words_of_a_chunk_have_their_fields(rt: HostRuntime) {
    for (word, op, a, b, c) in WORDS {
        let instruction = Instruction(word);
        assert_eq!(rt; instruction.opcode(), Some(op));
        assert_eq!(rt;
            (instruction.a(), instruction.b(), instruction.c()),
            (a, b, c)
        );
    }
    assert_eq!(rt; Instruction(0x0000_8083).bx(), 1);
    assert_eq!(rt; Instruction(0x0000_0053).opcode(), None);
    assert_eq!(rt;
        Instruction::make_abx(Opcode::LoadK, 1, 1),
        Instruction(0x0000_8083)
    );
    assert_eq!(rt;
        Instruction::make_abc(Opcode::Call, 0, 2, 1, false),
        Instruction(0x0102_0044)
    );
}
