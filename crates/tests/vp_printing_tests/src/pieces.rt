//! A reader and a writer over memory that move at most `most` bytes a call, and fail at call `fails_at`.
use crate::checks::same;
use std::alloc::Global;
use std::io;
use std::io::{ErrorKind, Read, Write};
use std::test::Fail;
use vp_engine::{Counted, Sink, Source};

/// Gives the bytes in pieces.
#[derive(Drop)]
pub struct Pieces<'a> {
    pub rest: &'a [u8],
    pub most: usize,
    pub calls: usize,
    pub fails_at: usize,
}

impl Read for Pieces<'_> {
    fn read(&mut self, buf: &mut [u8]) -> io::Result<usize> {
        self.calls = self.calls.wrapping_add(1);
        if self.calls == self.fails_at {
            return Err(io::Error::from(ErrorKind::TimedOut));
        }
        let n = self.rest.len().min(self.most).min(buf.len());
        buf[..n].copy_from_slice(&self.rest[..n]);
        self.rest = &self.rest[n..];
        Ok(n)
    }
}

/// Takes bytes in sips.
#[derive(Drop)]
pub struct Sips {
    pub bytes: Vec<u8>,
    pub most: usize,
    pub calls: usize,
    pub fails_at: usize,
}

impl Write for Sips {
    fn write(&mut self, buf: &[u8]) -> io::Result<usize> {
        self.calls = self.calls.wrapping_add(1);
        if self.calls == self.fails_at {
            return Err(io::Error::from(ErrorKind::TimedOut));
        }
        let n = buf.len().min(self.most);
        if self.bytes.extend_from_slice(&buf[..n]).is_err() {
            return Err(io::Error::from(ErrorKind::OutOfMemory));
        }
        Ok(n)
    }

    fn flush(&mut self) -> io::Result<()> {
        Ok(())
    }
}

/// Gives `bytes`, at most `most` a call.
pub fn reader(bytes: &[u8], most: usize, fails_at: usize) -> Counted<Pieces<'_>> {
    Counted::new(Pieces {
        rest: bytes,
        most,
        calls: 0,
        fails_at,
    })
}

/// Takes at most `most` bytes a call.
pub fn writer(alloc: Global, most: usize, fails_at: usize) -> Counted<Sips> {
    Counted::new(Sips {
        bytes: Vec::new(alloc),
        most,
        calls: 0,
        fails_at,
    })
}

/// What one read of at most three bytes gives is written: how many were read, and how many written.
fn pass<S: Source, K: Sink>(reader: &mut S, writer: &mut K) -> Result<(usize, usize), Fail> {
    let mut buffer = [0; 3];
    let n = reader.read(&mut buffer)?;
    Ok((n, writer.write(&buffer[..n])?))
}

#[test]
fn bytes_go_through(rt: HostRuntime) -> Result<(), Fail> {
    let mut reader = Counted::new(b"paper".as_slice());
    let mut writer = Counted::new(Vec::<u8>::new(rt.alloc()));
    same(&rt, "first", &pass(&mut reader, &mut writer)?, &(3, 3));
    same(&rt, "second", &pass(&mut reader, &mut writer)?, &(2, 2));
    same(&rt, "last", &pass(&mut reader, &mut writer)?, &(0, 0));
    let (rest, written) = (reader.into_inner(), writer.into_inner());
    same(&rt, "rest", &rest.len(), &0);
    same(&rt, "written", &written.as_slice(), &b"paper".as_slice());
    Ok(())
}
