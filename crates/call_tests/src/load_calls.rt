use cht_ids::Memory;
use cht_load::load_script;

#[test]
fn a_script_of_two_rows_is_drawn(rt: HostRuntime) -> Result<(), Memory> {
    // The first draw from 0 gives 335903614, so that the first column is 1.
    let start: &[u8] =
        b"grid 2 leaf 32\nmarket a\n%%MatrixMarket matrix coordinate integer general\n2 2 2\n1 1 ";
    let text = load_script(rt.alloc(), 0, 2, 1)?;
    assert!(rt; text.as_slice().starts_with(start));
    assert!(rt; text.as_slice().ends_with(b"mul c a b\ntrace c\ncount c\n"));
    Ok(())
}
