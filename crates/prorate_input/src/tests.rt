// Inputs with what is read of them, and the messages.
use crate::faults::Fault;
use crate::reader::read;
use std::test::Fail;

#[test]
fn good_inputs_are_read(rt: HostRuntime) -> Result<(), Fail> {
    let cases: [(&[u8], u64, &[u64]); 5] = [
        (b"0\n0", 0, &[0]),
        (b"100\n1 2 3\n", 100, &[1, 2, 3]),
        (b"100\n1 2 3", 100, &[1, 2, 3]),
        (
            b"99999999999\n99999999999 0 10\n",
            99_999_999_999,
            &[99_999_999_999, 0, 10],
        ),
        (
            b"7\n5 5 5 5 5 5 5 5 5 5 5 5 5 5 5 5 5 5 5 5 5 5 5 5 5 5 5 5 5 5 5 5 5 5 5 5 5 5 5 5 5 5 5 5 5 5 5 5\n",
            7,
            &[5; 48],
        ),
    ];
    for (bytes, pot, weights) in cases {
        let input = read(bytes)?;
        assert_eq!(rt; input.pot(), pot);
        assert_eq!(rt; input.weights(), weights);
    }
    Ok(())
}

#[test]
fn bad_inputs_are_refused(rt: HostRuntime) -> Result<(), Fail> {
    let cases: [(&[u8], Fault); 20] = [
        (b"", Fault::BadPot),
        (b"\n1\n", Fault::BadPot),
        (b"x\n1\n", Fault::BadPot),
        (b"01\n1\n", Fault::BadPot),
        (b"+1\n1\n", Fault::BadPot),
        (b"1\r\n1\n", Fault::BadPot),
        (b"100000000000\n1\n", Fault::BadPot),
        (b"x", Fault::BadPot),
        (b"5", Fault::NoSecondLine),
        (b"5\n", Fault::BadWeight(1)),
        (b"5\n\n", Fault::BadWeight(1)),
        (b"5\n 1\n", Fault::BadWeight(1)),
        (b"5\n1  2\n", Fault::BadWeight(2)),
        (b"5\n1 2 \n", Fault::BadWeight(3)),
        (b"5\n1 00\n", Fault::BadWeight(2)),
        (b"5\n1 2\r\n", Fault::BadWeight(2)),
        (b"5\n1 x y\n6\n", Fault::BadWeight(2)),
        (
            b"5\n1 1 1 1 1 1 1 1 1 1 1 1 1 1 1 1 1 1 1 1 1 1 1 1 1 1 1 1 1 1 1 1 1 1 1 1 1 1 1 1 1 1 1 1 1 1 1 1 x\n",
            Fault::TooManyWeights,
        ),
        (b"5\n1 2\n\n", Fault::BytesAfterEnd),
        (b"5\n1 2\n3", Fault::BytesAfterEnd),
    ];
    for (bytes, fault) in cases {
        match read(bytes) {
            Ok(_) => return Err(Fail::new("a bad input was read")),
            Err(found) => assert_eq!(rt; found, fault),
        }
    }
    Ok(())
}

#[test]
fn a_fault_says_which_weight(rt: HostRuntime) -> Result<(), Fail> {
    let fault = Fault::BadWeight(12);
    let text = format!(in rt.alloc(); "{fault}")?;
    assert!(rt; text.starts_with("weight 12 is not a number"));
    Ok(())
}
