//! The table row by row.

use crate::cost;
use rv32_table::{BranchOp, ImmOp, Instr, LoadOp, RegOp, StoreOp};
use std::test::Fail;

fn register(op: RegOp) -> Instr {
    Instr::Op {
        op,
        rd: 1,
        rs1: 2,
        rs2: 3,
    }
}

#[test]
fn rows(rt: HostRuntime) -> Result<(), Fail> {
    let branch = Instr::Branch {
        op: BranchOp::Bltu,
        rs1: 1,
        rs2: 2,
        offset: -4,
    };
    let load = Instr::Load {
        op: LoadOp::Lbu,
        rd: 1,
        rs1: 2,
        imm: 3,
    };
    let store = Instr::Store {
        op: StoreOp::Sw,
        rs1: 1,
        rs2: 2,
        imm: 3,
    };
    let immediate = Instr::OpImm {
        op: ImmOp::Srai,
        rd: 1,
        rs1: 2,
        imm: 3,
    };
    let jalr = Instr::Jalr {
        rd: 0,
        rs1: 1,
        imm: 0,
    };
    let table: [(Instr, bool, u64, u64); 24] = [
        (Instr::Lui { rd: 1, imm: 4096 }, false, 0, 1),
        (Instr::Auipc { rd: 1, imm: 0 }, true, 9, 1),
        (Instr::Jal { rd: 1, offset: 8 }, false, 0, 2),
        (jalr, false, 0, 2),
        (branch, true, 0, 2),
        (branch, false, 0, 1),
        (load, false, 4, 2),
        (store, true, 4, 2),
        (immediate, false, 0, 1),
        (register(RegOp::Add), false, 0, 1),
        (register(RegOp::Sra), true, 0, 1),
        (register(RegOp::Mul), false, 0, 3),
        (register(RegOp::Mulh), false, 0, 3),
        (register(RegOp::Mulhsu), false, 0, 3),
        (register(RegOp::Mulhu), false, 0, 3),
        (register(RegOp::Div), false, 0, 34),
        (register(RegOp::Divu), false, 0, 34),
        (register(RegOp::Rem), false, 0, 34),
        (register(RegOp::Remu), false, 0, 34),
        (Instr::Fence { rest: 0 }, false, 0, 1),
        (Instr::FenceI { rest: 0 }, false, 0, 1),
        (Instr::Ebreak, true, 7, 1),
        (Instr::Ecall, false, 0, 10),
        (Instr::Ecall, false, 4_294_967_295, 4_294_967_305),
    ];
    for (instr, taken, moved, cycles) in table {
        assert!(rt; moved < 1 << 32);
        assert_eq!(rt; cost(&instr, taken, moved), cycles);
    }
    Ok(())
}
