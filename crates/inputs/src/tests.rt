// Sources below, at and above the limit.
use crate::read_at_most;
use std::io;
use std::io::Read;
use std::test::Fail;

// A source that gives a byte, and then fails.
#[derive(Drop)]
struct Broken {
    given: bool,
}

impl Read for Broken {
    fn read(&mut self, buf: &mut [u8]) -> io::Result<usize> {
        if self.given || buf.is_empty() {
            return Err(io::Error::from(io::ErrorKind::BrokenPipe));
        }
        self.given = true;
        buf[0] = b'a';
        Ok(1)
    }
}

#[test]
fn a_source_within_the_limit_is_read_whole(rt: HostRuntime) -> Result<(), Fail> {
    for (source, longest) in [("", 0), ("", 3), ("ab", 3), ("abc", 3), ("abc", usize::MAX)] {
        let bytes = read_at_most(rt.alloc(), source.as_bytes(), longest)?;
        assert!(rt; bytes.is_some_and(|bytes| bytes.as_slice() == source.as_bytes()));
    }
    Ok(())
}

#[test]
fn a_longer_source_is_refused(rt: HostRuntime) -> Result<(), Fail> {
    for (source, longest) in [("a", 0), ("abcd", 3), ("abcdefgh", 3)] {
        assert!(rt; read_at_most(rt.alloc(), source.as_bytes(), longest)?.is_none());
    }
    Ok(())
}

#[test]
fn a_source_that_fails_is_an_error(rt: HostRuntime) {
    assert!(rt; read_at_most(rt.alloc(), Broken { given: false }, 3).is_err());
}
