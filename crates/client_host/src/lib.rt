// Tests of what no contract says of the programs' reading and writing: a read that gives few bytes, one that fails, a file that is not there, a writer
// that takes nothing. The expected lines are read off document 01 and docs/DECISIONS.md (38, 93, 131).
#![tactic(auto)]

#[cfg(test)]
mod tests {
    use host_bytes::{open_named, put_failure, read_full};
    use player_console::play_from;
    use std::io;
    use std::io::{ErrorKind, Read, Write};
    use std::test::Fail;

    // Gives its bytes one at a time, and an error in place of their end.
    #[derive(Drop)]
    struct Broken<'a>(&'a [u8]);

    impl Read for Broken<'_> {
        fn read(&mut self, buf: &mut [u8]) -> io::Result<usize> {
            if self.0.is_empty() {
                return Err(io::Error::from(ErrorKind::BrokenPipe));
            }
            let most = buf.len().min(1);
            self.0.read(&mut buf[..most])
        }
    }

    // Has no room.
    #[derive(Drop)]
    struct Full;

    impl Write for Full {
        fn write(&mut self, _buf: &[u8]) -> io::Result<usize> {
            Err(io::Error::from(ErrorKind::StorageFull))
        }

        fn flush(&mut self) -> io::Result<()> {
            Ok(())
        }
    }

    // The line for a name that no file has.
    fn line_for(rt: &HostRuntime, name: &[u8]) -> io::Result<Vec<u8>> {
        let mut line = Vec::new(rt.alloc());
        if let Err(error) = open_named(rt, name) {
            put_failure(&mut line, name, error)?;
        }
        Ok(line)
    }

    #[test]
    fn says_why_no_file_is_opened(rt: HostRuntime) -> Result<(), Fail> {
        let missing = line_for(&rt, b"no/such")?;
        assert!(rt; missing.as_slice() == b"no/such: No such file or directory\n".as_slice());
        let other = line_for(&rt, b"\xff")?;
        assert!(rt; other.as_slice() == b"\xff: the name is not UTF-8\n".as_slice());
        Ok(())
    }

    #[test]
    fn reads_until_full(rt: HostRuntime) -> Result<(), Fail> {
        let mut buf = [0u8; 3];
        let mut short: &[u8] = b"ab";
        assert_eq!(rt; read_full(&mut short, &mut buf)?, 2);
        assert_eq!(rt; buf, [b'a', b'b', 0]);
        assert_eq!(rt; read_full(&mut Broken(b"cde"), &mut buf)?, 3);
        assert_eq!(rt; buf, [b'c', b'd', b'e']);
        assert!(rt; read_full(&mut Broken(b"fg"), &mut buf).is_err());
        Ok(())
    }

    #[test]
    fn a_read_that_fails_is_the_end(rt: HostRuntime) -> Result<(), Fail> {
        let mut lines = Vec::new(rt.alloc());
        play_from(
            &mut Broken(b"sites=2\nset=1\nset=1\nask=1\nask"),
            0,
            &mut lines,
        )?;
        assert!(rt;
            lines.as_slice()
                == b"step=1 code=0 inside=0 waiting=1 flying=1\nstop=11 line=5\n".as_slice()
        );
        Ok(())
    }

    #[test]
    fn a_write_that_fails_ends_the_run(rt: HostRuntime) -> Result<(), Fail> {
        let mut text: &[u8] = b"sites=0\n";
        assert!(rt; play_from(&mut text, 0, &mut Full).is_err());
        Ok(())
    }
}
