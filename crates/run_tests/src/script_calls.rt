//! The calls of `cht_script`.
use cht_ids::Memory;
use cht_script::{Fault, ScriptRefused, Statement, Verb, check, parse};
use mm_text::Form;
use std::alloc::Global;
use std::test::Fail;

const SUM: &[u8] =
    b"grid 4095 leaf 64\nmarket a\n%%MatrixMarket matrix coordinate integer general\n1 2 0\n# a comment\nadd b a a\ndelete a\nprint b\n";

#[test]
fn statements_are_read_and_judged(rt: HostRuntime) -> Result<(), Fail> {
    let script = parse(rt.alloc(), SUM)?;
    assert_eq!(rt; [script.grid, script.leaf], [4095, 64]);
    assert_eq!(rt; script.statements.len(), 4);
    assert!(rt; script.begun.is_none());
    assert!(rt; script.stop.is_none());
    let checked = check(rt.alloc(), script)?;
    assert_eq!(rt; [checked.grid, checked.leaf, checked.height], [4095, 64, 6]);
    let step = checked.steps.get(1).ok_or("a sum")?;
    let Statement::Act { line, verb, names } = &step.statement else {
        return Err("a verb".into());
    };
    assert_eq!(rt; *line, 6);
    assert_eq!(rt; *verb, Verb::Add);
    assert_eq!(rt; names.count, 3);
    assert_eq!(rt; names.third.as_bytes(), b"a".as_slice());
    assert_eq!(rt; step.shapes.count, 3);
    assert_eq!(rt; [step.shapes.first.rows, step.shapes.first.columns], [1, 2]);
    assert_eq!(rt; step.shapes.first.form, Form::General);
    Ok(())
}

// Whether the fault of a text is that of this line with this code.
fn has_fault(alloc: Global, text: &[u8], line: u64, code: u32) -> Result<bool, Memory> {
    let script = parse(alloc, text)?;
    match check(alloc, script) {
        Err(ScriptRefused::Fault(fault)) => Ok(fault == Fault { line, code }),
        Err(ScriptRefused::Memory) => Err(Memory),
        Ok(_) => Ok(false),
    }
}

#[test]
fn faults_are_told_with_their_lines(rt: HostRuntime) -> Result<(), Fail> {
    assert!(rt; has_fault(rt.alloc(), b"", 1, 3)?);
    assert!(rt; has_fault(rt.alloc(), b"grid 5000 leaf 2\n", 1, 3)?);
    assert!(rt; has_fault(rt.alloc(), b"grid 4 leaf 2\nprint \xff\n", 2, 2)?);
    assert!(rt; has_fault(rt.alloc(), b"grid 4 leaf 2\nswap a b\n", 2, 4)?);
    assert!(rt; has_fault(rt.alloc(), b"grid 4 leaf 2\nmarket 1a\n", 2, 6)?);
    assert!(rt; has_fault(rt.alloc(), b"grid 4 leaf 2\nmarket a\nx\n", 3, 7)?);
    assert!(rt;
        has_fault(
            rt.alloc(),
            b"grid 4 leaf 2\nmarket a\n%%MatrixMarket matrix coordinate integer general\n2 2 2\n1 1 3\n",
            6,
            13
        )?
    );
    assert!(rt; has_fault(rt.alloc(), b"grid 4 leaf 2\nprint a", 2, 14)?);
    assert!(rt;
        has_fault(
            rt.alloc(),
            b"grid 4 leaf 2\nmarket a\n%%MatrixMarket matrix coordinate integer general\n2 2 0\ndelete a\nprint a\n",
            6,
            15
        )?
    );
    assert!(rt;
        has_fault(
            rt.alloc(),
            b"grid 4 leaf 2\nmarket a\n%%MatrixMarket matrix coordinate integer general\n2 2 0\nmarket a\nx\n",
            5,
            16
        )?
    );
    assert!(rt;
        has_fault(
            rt.alloc(),
            b"grid 4 leaf 2\nmarket a\n%%MatrixMarket matrix coordinate integer general\n2 2 1\n1 1 3\nsquare b a\n",
            6,
            18
        )?
    );
    Ok(())
}
