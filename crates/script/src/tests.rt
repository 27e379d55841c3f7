// Lines that are calls and lines that are none, and whole scripts.
use crate::fault::Fault;
use crate::reader::read;
use month::calls::{Call, Post, StageCall};
use prorating::built_in::BuiltIn;
use std::test::Fail;
use worth::Line;

#[test]
fn lines_are_read_or_refused(rt: HostRuntime) -> Result<(), Fail> {
    let cases: [(&[u8], Result<usize, Fault>); 22] = [
        (b"", Ok(0)),
        (b"reopen", Ok(1)),
        (b"reopen\nreopen\n", Ok(2)),
        (b"company 99999999999\n", Ok(1)),
        (b"shed 1 2 3 4 0\n", Ok(1)),
        (b"shed 1 2 3 4 2 5 6 7 8\n", Ok(1)),
        (b"line 1 2 8 2 3 4 5\n", Ok(1)),
        (b"\n", Err(Fault::NoCall(1))),
        (b"reopen\n\n", Err(Fault::NoCall(2))),
        (b"reopen \n", Err(Fault::NoCall(1))),
        (b"reopen\r\n", Err(Fault::NoCall(1))),
        (b"company\n", Err(Fault::NoCall(1))),
        (b"company  1\n", Err(Fault::NoCall(1))),
        (b"company 01\n", Err(Fault::NoCall(1))),
        (b"company 100000000000\n", Err(Fault::NoCall(1))),
        (b"companies 1\n", Err(Fault::NoCall(1))),
        (b"shed 1 2 3 4 2 5 6 7\n", Err(Fault::NoCall(1))),
        (b"shed 1 2 3 4 1 5 6 7 8\n", Err(Fault::NoCall(1))),
        (b"line 1 2 9 2 3 4 5\n", Err(Fault::NoCall(1))),
        (b"line 1 2 8 2 3 4\n", Err(Fault::NoCall(1))),
        (b"settle smallest\n", Err(Fault::NoCall(1))),
        (b"reopen\nreopen\nclose\nopen", Err(Fault::NoCall(3))),
    ];
    for (bytes, expected) in cases {
        let found = match read(rt.alloc(), bytes) {
            Ok(script) => Ok(script.calls().len()),
            Err(fault) => Err(fault),
        };
        assert_eq!(rt; found, expected);
    }
    Ok(())
}

const WORDS: &[u8] = b"open 1 2 3 4 5
company 6
replace 7 8
unit 9 10 11
performance 12 1 13 14
line 15 16 3 1 17 18 19
installation 20 2 21 22
meter 23 24 25
point 26 27
shed 28 29 30 31 2 32 33 34 35
shed 36 37 38 39 1 40 41
settle largest
reopen
";

#[test]
fn every_word_is_read(rt: HostRuntime) -> Result<(), Fail> {
    let Ok(script) = read(rt.alloc(), WORDS) else {
        return Err(Fail::new("the script was not read"));
    };
    let calls = script.calls();
    assert_eq!(rt; calls.len(), 13);
    let Call::Stage(StageCall::Open(terms)) = calls[0] else {
        return Err(Fail::new("no opening"));
    };
    assert_eq!(rt;
        (terms.period, terms.failure_cost, terms.seconds),
        (1, 3, 5)
    );
    let Call::Post(
        Post::Line {
            line: Line::Downward { seconds, .. },
            ..
        },
    ) = calls[5]
    else {
        return Err(Fail::new("no line of kind 3"));
    };
    assert_eq!(rt; seconds, 19);
    let Call::Post(Post::Shed { zone, readings, .. }) = &calls[10] else {
        return Err(Fail::new("no shedding"));
    };
    let [reading] = readings.as_slice() else {
        return Err(Fail::new("not one reading"));
    };
    assert_eq!(rt; (*zone, reading.unit, reading.kwh), (39, 40, 41));
    let Call::Stage(StageCall::Settle(BuiltIn::Largest)) = calls[11] else {
        return Err(Fail::new("no settling"));
    };
    Ok(())
}
