use cht_ids::{List, Unpack};
use chunk_codec::{Plain, Spot, pack, unpack};
use std::alloc::Global;
use std::test::Fail;

const NUM: [u8; 17] = [6, 0, 0, 0, 0, 0, 0, 0, 0, 0, 0, 0, 0, 0, 0, 0, 3];

const NODE: [u8; 18] = [2, 1, 0, 0, 0, 0, 0, 0, 0, 0, 0, 0, 0, 0, 0, 0, 0, 4];

const LEAF: [u8; 82] = [
    1, 2, 0, 0, 0, 0, 0, 0, 0, 0, 0, 0, 0, 0, 0, 0, 0, 4, 0, 0, 0, 0, 0, 0, 0, 0, 0, 0, 0, 0, 0, 0,
    0, 3, 0, 0, 0, 0, 0, 0, 0, 0, 0, 0, 0, 0, 0, 0, 0, 0, 255, 255, 255, 255, 255, 255, 255, 255,
    255, 255, 255, 255, 255, 255, 255, 252, 0, 0, 0, 0, 0, 0, 0, 0, 0, 0, 0, 0, 0, 0, 0, 0,
];

const ENTRIES: [u8; 40] = [
    5, 2, 1, 0, 0, 0, 0, 2, 0, 0, 0, 0, 0, 0, 0, 0, 0, 0, 0, 0, 0, 0, 0, 3, 0, 0, 0, 1, 0, 0, 0, 0,
    255, 255, 255, 255, 255, 255, 255, 252,
];

// What the bytes are read as, in words: the form, and its numbers.
fn told(alloc: Global, bytes: &[u8]) -> Result<String, Fail> {
    match unpack(alloc, bytes) {
        Err(Unpack::NotChunk) => Ok(String::from_str(alloc, "no chunk")?),
        Err(Unpack::Memory) => Ok(String::from_str(alloc, "memory")?),
        Ok(Plain::Leaf { side, entries }) => Ok(format!(in alloc;
            "leaf {side} {:?}",
            entries.as_slice()
        )?),
        Ok(Plain::Node { height, peak }) => Ok(format!(in alloc; "node {height} {peak}")?),
        Ok(Plain::SymLeaf { side, entries }) => Ok(format!(in alloc;
            "sym leaf {side} {:?}",
            entries.as_slice()
        )?),
        Ok(Plain::SymNode { height, peak }) => Ok(format!(in alloc; "sym node {height} {peak}")?),
        Ok(
            Plain::Entries {
                leaf,
                height,
                symmetric,
                list,
            },
        ) => Ok(format!(in alloc; "entries {leaf} {height} {symmetric} {:?}", list.as_slice())?),
        Ok(Plain::Num { value }) => Ok(format!(in alloc; "num {value}")?),
    }
}

#[test]
fn bytes_are_read_as_their_chunk(rt: HostRuntime) -> Result<(), Fail> {
    let mut peak = LEAF;
    peak[17] = 5;
    let mut lower = ENTRIES;
    lower[3] = 1;
    let mut tall = NODE;
    tall[1] = 17;
    let cases: [(&[u8], &str); 8] = [
        (&NUM, "num 3"),
        (&NODE, "node 1 4"),
        (&LEAF, "leaf 2 [3, 0, -4, 0]"),
        (
            &ENTRIES,
            "entries 2 1 false [Spot { row: 0, column: 0, value: 3 }, Spot { row: 1, column: 0, value: -4 }]",
        ),
        (&peak, "no chunk"),
        (&lower, "no chunk"),
        (&tall, "no chunk"),
        // A count of 2^32 - 1 entries, of which none is there.
        (&[5, 2, 1, 0, 255, 255, 255, 255], "no chunk"),
    ];
    for (bytes, text) in cases {
        assert_eq!(rt; told(rt.alloc(), bytes)?.as_str(), text);
    }
    Ok(())
}

#[test]
fn fronts_of_bytes_and_longer_bytes_are_no_chunk(rt: HostRuntime) -> Result<(), Fail> {
    let examples: [&[u8]; 4] = [&NUM, &NODE, &LEAF, &ENTRIES];
    for bytes in examples {
        for len in 0..bytes.len() {
            assert_eq!(rt;
                told(rt.alloc(), &bytes[..len])?.as_str(),
                "no chunk",
                "{len}"
            );
        }
        let mut more = bytes.to_vec(rt.alloc())?;
        more.push(0)?;
        assert_eq!(rt; told(rt.alloc(), more.as_slice())?.as_str(), "no chunk");
    }
    Ok(())
}

#[test]
fn chunks_are_packed(rt: HostRuntime) -> Result<(), Fail> {
    let alloc = rt.alloc();
    let node = Plain::Node { height: 1, peak: 4 };
    assert_eq!(rt; pack(alloc, &node)?.as_slice(), NODE.as_slice());
    let num = Plain::Num { value: 3 };
    assert_eq!(rt; pack(alloc, &num)?.as_slice(), NUM.as_slice());
    let numbers: [i128; 4] = [3, 0, -4, 0];
    let leaf = Plain::Leaf {
        side: 2,
        entries: List::from_vec(numbers.to_vec(alloc)?),
    };
    assert_eq!(rt; pack(alloc, &leaf)?.as_slice(), LEAF.as_slice());
    let spots = [
        Spot {
            row: 0,
            column: 0,
            value: 3,
        },
        Spot {
            row: 1,
            column: 0,
            value: -4,
        },
    ];
    let entries = Plain::Entries {
        leaf: 2,
        height: 1,
        symmetric: false,
        list: List::from_vec(spots.to_vec(alloc)?),
    };
    assert_eq!(rt; pack(alloc, &entries)?.as_slice(), ENTRIES.as_slice());
    Ok(())
}
