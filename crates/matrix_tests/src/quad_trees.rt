use cht_ids::{List, Memory};
use leaf_blocks::Leaf;
use quad_matrix::{Entries, MatChunk, MatKind, Spot, What};
use std::alloc::Global;
use std::process::Abort;
use std::test::Fail;
use task_types::{Kinds, Payload};

// Whether a kind has this text, and is the one that its words give.
fn is_known_by<K: Kinds>(kind: K, text: &[u8], name: &[u8], height: u32) -> bool {
    kind.text().as_bytes() == text && K::of_words(name, height) == Some(kind)
}

#[test]
fn kinds_are_known_by_their_names_and_heights(rt: HostRuntime) {
    let cases: [(&str, &str, What, u32); 19] = [
        ("assign 0", "assign", What::Assign, 0),
        ("add 16", "add", What::Add, 16),
        ("mul 2", "mul", What::Mul, 2),
        ("tmul 16", "tmul", What::TMul, 16),
        ("mult 0", "mult", What::MulT, 0),
        ("transpose 1", "transpose", What::Transpose, 1),
        ("join 17", "join", What::Join, 17),
        ("trace 4294967295", "trace", What::Trace, 4294967295),
        ("addnum 3", "addnum", What::AddNum, 3),
        ("sassign 5", "sassign", What::SAssign, 5),
        ("sadd 16", "sadd", What::SAdd, 16),
        ("square 4", "square", What::Square, 4),
        ("rankmul 1", "rankmul", What::RankMul, 1),
        ("trank 0", "trank", What::TRank, 0),
        ("smul 12", "smul", What::SMul, 12),
        ("muls 2", "muls", What::MulS, 2),
        ("full 9", "full", What::Full, 9),
        ("sjoin 1", "sjoin", What::SJoin, 1),
        ("strace 16", "strace", What::STrace, 16),
    ];
    for (text, name, what, height) in &cases {
        let kind = MatKind {
            what: *what,
            height: *height,
        };
        assert!(rt;
            is_known_by(kind, text.as_bytes(), name.as_bytes(), *height),
            "{text}"
        );
    }
    assert_eq!(rt; MatKind::of_words(b"add 1", 1), None);
}

// The block of side 2 with these numbers.
fn leaf(rt: &(impl Abort + AllocGlobal), numbers: [i128; 4]) -> Result<MatChunk, Fail> {
    let numbers = List::from_vec(Vec::from_array(rt.alloc(), numbers)?);
    assert_eq!(rt; numbers.len(), 4);
    assert!(rt; numbers.as_slice().iter().all(|x| x.unsigned_abs() <= 4));
    Ok(MatChunk::Leaf(Leaf::new(2, numbers)))
}

// A list of two entries in the first column.
fn entries(alloc: Global, first: i64, second: i64) -> Result<MatChunk, Memory> {
    let mut list = List::new(alloc);
    for (row, value) in [(0, first), (3, second)] {
        let spot = Spot {
            row,
            column: 0,
            value,
        };
        list.push(spot).map_err(|_| Memory)?;
    }
    Ok(MatChunk::Entries(Entries {
        leaf: 2,
        height: 1,
        symmetric: false,
        list,
    }))
}

#[test]
fn a_peak_is_the_greatest_absolute_value(rt: HostRuntime) -> Result<(), Fail> {
    let least = entries(rt.alloc(), 1, -9223372036854775808)?;
    let cases = [
        (leaf(&rt, [3, 0, -4, 0])?, 4, 0),
        (MatChunk::Node { height: 1, peak: 4 }, 4, 4),
        (MatChunk::SymNode { height: 1, peak: 4 }, 4, 3),
        (least, 9223372036854775808, 0),
        (MatChunk::Num(-7), 7, 0),
    ];
    for (chunk, peak, arity) in &cases {
        assert_eq!(rt; chunk.peak(), *peak);
        assert_eq!(rt; chunk.arity(), *arity);
    }
    Ok(())
}
