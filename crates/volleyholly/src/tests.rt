use crate::volleyholly_run;
use std::process::Abort;

// A write, a read that hits, a read past the end, a block return and a full return; then the end word.
const LIST: &[u8; 24] =
    b"\xA0\x00\x12\x07\x82\x00\x12\x00\x80\x01\x2C\x00\xC0\x00\x10\x00\xE0\x00\x00\x00\x00\x00\x00\x00";

// Their results, and a byte past the last.
const RESULTS: &[u8; 41] =
    b"\x00\x07\x00\x12\x00\x00\x00\x16\x00\x07\x00\x12\x00\x00\x00\x01\x81\x01\x01\x2C\x00\x00\x00\x00\
    \x00\x00\x00\x10\x00\x00\x00\x12\x00\x00\x00\x00\x00\x00\x00\x08\x09";

#[test]
fn a_list_is_run(rt: HostRuntime) {
    let mut memory = [0; 256];
    let mut results = [9; 41];
    let code = volleyholly_run(2, &mut memory, 3, LIST, &mut results);
    assert_eq!(rt; code, 0);
    assert_eq!(rt; memory[18], 7);
    assert_eq!(rt; results, *RESULTS);
}

// What a call that is refused returns. It leaves memory and results as they were.
fn refusal(
    rt: &impl Abort,
    pile: u32,
    length: usize,
    clocks: u32,
    list: &[u8],
    room: usize,
) -> u32 {
    let mut memory = [5; 8];
    let mut results = [9; 40];
    assert!(rt; length <= 8 && room <= 40);
    let code = volleyholly_run(
        pile,
        &mut memory[0..length],
        clocks,
        list,
        &mut results[0..room],
    );
    assert_eq!(rt; memory, [5; 8]);
    assert_eq!(rt; results, [9; 40]);
    code
}

// What is wrong is mended from call to call, so the next test speaks.
#[test]
fn refusals_come_in_order(rt: HostRuntime) {
    let bad = [0x80, 0, 0, 1];
    assert_eq!(rt; refusal(&rt, 4, 6, 259, &bad[0..3], 0), 10);
    assert_eq!(rt; refusal(&rt, 1, 6, 259, &bad[0..3], 0), 3);
    assert_eq!(rt; refusal(&rt, 1, 8, 259, &bad[0..3], 0), 4);
    assert_eq!(rt; refusal(&rt, 1, 8, 15, &bad[0..3], 0), 7);
    assert_eq!(rt; refusal(&rt, 1, 8, 15, &bad[0..4], 0), 8);
    assert_eq!(rt; refusal(&rt, 1, 8, 15, LIST, 39), 9);
}
