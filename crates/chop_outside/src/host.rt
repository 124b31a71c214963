//! The host's files and its standard output, which tell nothing of content.
ghost use Rattle.std.specs.Prelude.{◌≡◌, None, false};
ghost use Rattle.chop_outside.specs.Reading.{untold};

use crate::mem_reading::is_ended;
use crate::{Fault, Files, Gate, Sink};
use std::io::{Read, Write};
use std::{fs, rt};

/// A gate that lets everyone through at once.
#[derive(Clone, Copy, Debug)]
pub struct FreeGate;

impl Gate for FreeGate {
    fn pass(&self, _ticket: u64) {}
}

/// The host's files.
#[derive(Drop)]
pub struct HostFiles<'a, R: rt::Files> {
    host: &'a R,
    asked: Option<String>,
    file: Option<R::File>,
    count: u64,
    ended: bool,
    faults: u64,
    ghost unread: { asked ≡ None → count ≡ 0 },
    ghost unended: { asked ≡ None → ended ≡ false },
    ghost asks_first: { asked ≡ None → file ≡ None },
}

impl<'a, R: rt::Files> HostFiles<'a, R> {
    /// The host's files, of which no name was asked for.
    pub fn new(host: &'a R) -> HostFiles<'a, R>
        ensures { ⟦<HostFiles<'a, R> as Files>⟧.state result ≡ untold }
    {
        HostFiles {
            host,
            asked: None,
            file: None,
            count: 0,
            ended: false,
            faults: 0,
        }
    }
}

impl<R: rt::Files> Files for HostFiles<'_, R> {
    ghost use Rattle.std.specs.Prelude.{None, string_bytes};
    ghost use Rattle.std.specs.Option.{option_map, is_some};
    ghost use Rattle.chop_outside.specs.MemReading.{none_asked};

    ghost state = { λ m. record { named = None; asked = option_map string_bytes m.asked; is_open = is_some m.file; left = None; count = m.count; ended = m.ended; faults = m.faults } };

    fn open_file(&mut self, name: String) -> Result<(), Fault> {
        let opened = fs::open(self.host, name.as_str());
        self.asked = Some(name);
        match opened {
            Ok(file) => {
                self.file = Some(file);
                Ok(())
            }
            Err(_) => {
                self.file = None;
                self.faults += 1;
                Err(Fault)
            }
        }
    }

    fn read(&mut self, into: &mut [u8]) -> Result<usize, Fault> {
        let Some(file) = &mut self.file else {
            unreachable!()
        };
        match file.read(into) {
            Ok(count) => {
                self.count = self.count.saturating_add(count as u64);
                self.ended = is_ended(self.ended, count, into);
                Ok(count)
            }
            Err(_) => {
                self.faults += 1;
                Err(Fault)
            }
        }
    }

    ghost unread = { λ m fresh. m.unread (none_asked m.asked fresh) };

    ghost unended = { λ m fresh. m.unended (none_asked m.asked fresh) };
}

/// The host's standard output, or another writer.
#[derive(Drop)]
pub struct HostSink<W: Write + Drop> {
    out: W,
    faults: u64,
}

impl<W: Write + Drop> HostSink<W> {
    /// A sink over a writer.
    pub fn new(out: W) -> HostSink<W>
        ensures { ⟦<HostSink<W> as Sink>⟧.state result ≡ record { written = None; faults = 0 } }
    {
        HostSink { out, faults: 0 }
    }
}

impl<W: Write + Drop> Sink for HostSink<W> {
    ghost state = { λ s. record { written = None; faults = s.faults } };

    fn write(&mut self, bytes: &[u8]) -> Result<usize, Fault> {
        match self.out.write(bytes) {
            Ok(count) if count > 0 || bytes.is_empty() => Ok(count),
            _ => {
                self.faults += 1;
                Err(Fault)
            }
        }
    }
}
