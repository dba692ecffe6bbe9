use crate::{
    Accepted, CallRefusal, CallResult, ListRefusal, ListSummary, Operation, Reader, Request,
    ResultWord, Wait, Word, check_list,
};
use std::process::Abort;
use std::test::Fail;

// BF BF BF BF is a write with the longest wait.
const WRITES: [u8; 16388] = [0xBF; 16388];

fn taken(rt: &impl Abort, list: &[u8], requests: u16, waits: u32) {
    assert_eq!(rt; check_list(list), Ok(ListSummary { requests, waits }));
}

fn refused(rt: &impl Abort, list: &[u8], refusal: ListRefusal) {
    assert_eq!(rt; check_list(list), Err(refusal));
}

fn request(bytes: [u8; 4]) -> Result<Request, ListRefusal> {
    Word { place: 3, bytes }.decode()
}

fn told(bytes: [u8; 8]) -> Option<CallResult> {
    ResultWord { bytes }.decode()
}

#[test]
fn list_lengths(rt: HostRuntime) {
    refused(&rt, &WRITES[0..0], ListRefusal::Size);
    refused(&rt, &WRITES[0..3], ListRefusal::Size);
    taken(&rt, &WRITES[0..4], 1, 31);
    taken(&rt, &WRITES[0..16384], 4096, 126976);
    refused(&rt, &WRITES[0..16385], ListRefusal::Size);
    refused(&rt, &WRITES[0..16388], ListRefusal::Size);
}

#[test]
fn the_zero_word_ends_a_list(rt: HostRuntime) {
    taken(&rt, &[0, 0, 0, 0, 255, 255, 255, 255], 0, 0);
    taken(&rt, &[0x85, 0, 1, 0, 0, 0, 0, 0, 255, 255, 255, 255], 1, 5);
    taken(&rt, &[0x85, 0, 1, 0, 0xE1, 0, 0, 0], 2, 6);
    refused(
        &rt,
        &[0x85, 0, 1, 0, 0, 0, 0, 1],
        ListRefusal::Layout { word: 2 },
    );
}

#[test]
fn words_at_the_edges(rt: HostRuntime) -> Result<(), Fail> {
    assert!(rt; Wait::new(32).is_none());
    let longest = Wait::new(31).ok_or("31 does not fit five bits")?;
    let last = Request {
        wait: longest,
        operation: Operation::Write {
            address: 65535,
            byte: 255,
        },
    };
    assert_eq!(rt; last.encode(), [0xBF, 0xFF, 0xFF, 0xFF]);
    assert_eq!(rt; request([0xBF, 0xFF, 0xFF, 0xFF]), Ok(last));
    assert_eq!(rt;
        request([0x80, 0x00, 0x12, 0x01]),
        Err(ListRefusal::Layout { word: 3 })
    );
    assert_eq!(rt;
        request([0xE0, 0x00, 0x01, 0x00]),
        Err(ListRefusal::Layout { word: 3 })
    );
    assert_eq!(rt;
        request([0x3F, 0xFF, 0xFF, 0xFF]),
        Err(ListRefusal::Layout { word: 3 })
    );
    Ok(())
}

#[test]
fn the_reader_counts_from_one(rt: HostRuntime) -> Result<(), Fail> {
    let mut reader = Reader::new(&[0x80, 0, 0, 0, 0xC0, 0, 4, 0, 0, 0]);
    let first = reader.next().ok_or("no first word")?;
    let second = reader.next().ok_or("no second word")?;
    assert_eq!(rt; first.place, 1);
    assert_eq!(rt; second.place, 2);
    assert_eq!(rt; second.bytes, [0xC0, 0, 4, 0]);
    assert!(rt; reader.next().is_none());
    Ok(())
}

#[test]
fn result_words(rt: HostRuntime) {
    let refusal = Err(CallRefusal::ReadOnly {
        address: 9,
        depth: 1,
    });
    assert_eq!(rt;
        ResultWord::from(refusal).bytes,
        [0x82, 1, 0, 9, 0, 0, 0, 0]
    );
    assert_eq!(rt; told([0x82, 1, 0, 9, 0, 0, 0, 0]), Some(refusal));
    assert_eq!(rt; told([0x82, 1, 0, 9, 0, 0, 0, 1]), None);
    assert_eq!(rt; told([0x83, 1, 0, 9, 0, 0, 0, 0]), None);
    let read = Ok(Accepted {
        value: 7,
        address: 18,
        clocks: 22,
    });
    assert_eq!(rt; ResultWord::from(read).bytes, [0, 7, 0, 18, 0, 0, 0, 22]);
    assert_eq!(rt; told([1, 7, 0, 18, 0, 0, 0, 22]), None);
}
