ghost use Rattle.std.specs.Prelude.{◌≡◌, ◌<◌, ◌^◌, length, slice_get};
ghost use Rattle.lrat_text.specs.Cut.{cut, items_of};
ghost use Rattle.lrat_text.specs.Reading.{reading, Next, NextLine, FirstLine, Told, answer_to, stands_after, shown, name_answer, end_answer};
ghost use Rattle.lrat_text.specs.Runs.{start};
ghost use Rattle.lrat_text.specs.Parse.{parse, text_line};
ghost use Rattle.std.specs.Option.{option_map};

use crate::cert::{CertError, CertStep};
use crate::cut::cut;
use crate::text::{Text, read_text};
use lola_bits::Name;
use std::alloc::Global;

/// A reader of the text of a certificate.
#[derive(Drop)]
pub struct CertReader<'a> {
    rest: &'a [u8],
    opened: bool,
    passed: u64,
    line: u64,
    begun: usize,
    failed: bool,
}

impl<'a> CertReader<'a> {
    /// A reader of these bytes before its first call: nothing is read, the number of the line just read is 0, and no
    /// obligation has begun. Takes no memory.
    pub fn new(bytes: &'a [u8]) -> CertReader<'a>
        ensures { reading result ≡ start bytes.now }
    {
        CertReader {
            rest: bytes,
            opened: false,
            passed: 0,
            line: 0,
            begun: 0,
            failed: false,
        }
    }

    /// The next part of the certificate, on the same names at each call: each refusal comes exactly at the first
    /// line that has its cause, and on one line the first cause in the order of `CertError` counts. After a
    /// refusal or Finished each further call answers the same, want of memory aside.
    pub fn next(&mut self, alloc: Global, names: &[Name]) -> Result<CertStep, CertError>
        requires { length names.now < 2 ^ 32 }
        ensures { Next names.now (reading self.old) result (reading self.new) }
    {
        if self.failed {
            Err(CertError::Memory)
        } else if self.opened {
            self.next_line(alloc, names)
        } else {
            self.first_line(alloc, names)
        }
    }

    /// The number of the line just read, from 1; 0 before the first.
    pub fn line(&self) -> u32
        ensures { result ≡ shown (reading self.now).line }
    {
        shown(self.line)
    }

    /// The first line, and the part of the next.
    fn first_line(&mut self, alloc: Global, names: &[Name]) -> Result<CertStep, CertError>
        requires { length names.now < 2 ^ 32 }
        ensures { FirstLine names.now (reading self.old) (cut 10 (reading self.old).rest) result (reading self.new) }
    {
        match cut(self.rest, b'\n') {
            None => {
                self.line = self.passed;
                Err(CertError::Truncated)
            }
            Some((line, behind)) => {
                if line == b"lola-cert 1".as_slice() {
                    self.rest = behind;
                    self.opened = true;
                    self.passed = self.passed.saturating_add(1);
                    self.next_line(alloc, names)
                } else {
                    self.line = self.passed.saturating_add(1);
                    Err(CertError::BadLine {
                        n: shown(self.line),
                    })
                }
            }
        }
    }

    /// The part of the next line.
    fn next_line(&mut self, alloc: Global, names: &[Name]) -> Result<CertStep, CertError>
        requires { length names.now < 2 ^ 32 }
        ensures { NextLine names.now (reading self.old) (cut 10 (reading self.old).rest) result (reading self.new) }
    {
        match cut(self.rest, b'\n') {
            None => {
                self.line = self.passed;
                Err(CertError::Truncated)
            }
            Some((line, behind)) => {
                let answer = self.told(alloc, names, line, behind);
                self.stand(behind, &answer);
                answer
            }
        }
    }

    /// The answer to a line with these bytes behind it.
    fn told(
        &self,
        alloc: Global,
        names: &[Name],
        line: &[u8],
        behind: &[u8],
    ) -> Result<CertStep, CertError>
        requires { length names.now < 2 ^ 32 }
        ensures { Told (answer_to names.now (reading self.now) behind.now (parse (items_of line.now))) result }
    {
        match read_text(alloc, line) {
            Ok(text) => self.answer(alloc, names, text, behind),
            Err(_) => Err(CertError::Memory),
        }
    }

    /// The answer to a line that is this.
    fn answer(
        &self,
        alloc: Global,
        names: &[Name],
        text: Option<Text>,
        behind: &[u8],
    ) -> Result<CertStep, CertError>
        requires { length names.now < 2 ^ 32 }
        ensures { Told (answer_to names.now (reading self.now) behind.now (option_map text_line text.entry)) result }
    {
        let number = self.passed.saturating_add(1);
        let n = shown(number);
        match text {
            None => Err(CertError::BadLine { n }),
            Some(Text::First) => Err(CertError::BadLine { n }),
            Some(Text::Named(name)) => begin(n, self.begun, names, name),
            Some(Text::Taken(line)) => {
                if self.begun == 0 {
                    Err(CertError::BadLine { n })
                } else {
                    Ok(CertStep::Step { line })
                }
            }
            Some(Text::Ended(count)) => {
                if count == names.len() as u64 {
                    end(
                        alloc,
                        n,
                        shown(number.saturating_add(1)),
                        self.begun,
                        names,
                        behind,
                    )
                } else {
                    Err(CertError::BadLine { n })
                }
            }
        }
    }

    /// Stands where an answer to the next line leaves the reader.
    fn stand(&mut self, behind: &'a [u8], answer: &Result<CertStep, CertError>)
        ensures { reading self.new ≡ stands_after (reading self.old) behind.now answer.now }
    {
        self.line = self.passed.saturating_add(1);
        match answer {
            Ok(CertStep::Begin { .. }) => {
                self.rest = behind;
                self.passed = self.line;
                self.begun = self.begun.saturating_add(1);
            }
            Ok(CertStep::Step { .. }) => {
                self.rest = behind;
                self.passed = self.line;
            }
            Ok(CertStep::Finished) => {}
            Err(CertError::Memory) => self.failed = true,
            Err(_) => {}
        }
    }
}

/// The answer to a line of an obligation's name.
fn begin(n: u32, begun: usize, names: &[Name], name: &[u8]) -> Result<CertStep, CertError>
    requires { length names.now < 2 ^ 32 }
    ensures { result ≡ name_answer n begun (slice_get names.now begun) name.now }
{
    match names.get(begun) {
        None => Err(CertError::Extra { n }),
        Some(next) => {
            if name == next.text().as_bytes() {
                Ok(CertStep::Begin {
                    number: begun as u32,
                })
            } else {
                Err(CertError::WrongName { n })
            }
        }
    }
}

/// The answer to a last line with the right number, where these bytes stand behind it.
fn end(
    alloc: Global,
    n: u32,
    later: u32,
    begun: usize,
    names: &[Name],
    behind: &[u8],
) -> Result<CertStep, CertError>
    ensures { Told (end_answer n later (slice_get names.now begun) behind.now) result }
{
    match names.get(begun) {
        Some(next) => match Name::new(alloc, next.text()) {
            Ok(name) => Err(CertError::Missing { n, name }),
            Err(_) => Err(CertError::Memory),
        },
        None => match behind {
            [] => Ok(CertStep::Finished),
            [_, ..] => Err(CertError::Extra { n: later }),
        },
    }
}

/// The number of a line as it is shown.
fn shown(line: u64) -> u32
    ensures { result ≡ shown line }
{
    if line < u64::from(u32::MAX) {
        line as u32
    } else {
        u32::MAX
    }
}
