//! The files, the sink and the status of a case, and what its entries do with them.

use crate::body::{add_line, image_file, is_body};
use crate::long::{has_lines, has_sum, two_words};
use crate::program::Program;
use crate::words::words;
use std::alloc::Global;
use std::mem;
use xom_base::{ByteList, NoMemory};
use xom_io::{MemFiles, MemSink};

/// What a case has done so far.
#[derive(Drop)]
pub struct Stage {
    alloc: Global,
    files: MemFiles,
    /// The sink of the last call.
    out: MemSink,
    /// The sink of the next call.
    next_out: MemSink,
    /// The status of the last call; none before the first.
    status: Option<u8>,
    /// Whether no `gives` has told of the last call yet.
    is_open: bool,
}

impl Stage {
    /// No name holds anything, and nothing was called.
    pub fn new(alloc: Global) -> Stage {
        Stage {
            alloc,
            files: MemFiles::new(alloc),
            out: MemSink::new(alloc),
            next_out: MemSink::new(alloc),
            status: None,
            is_open: false,
        }
    }

    /// Does the entries of a text, up to the first that can't be read or isn't met, and answers that
    /// one: its head, or the line of its body that can't be read.
    pub fn play<'a, P: Program>(
        &mut self,
        program: &P,
        text: &'a str,
    ) -> Result<Option<&'a str>, NoMemory> {
        let mut head = "";
        let mut body = Vec::new(self.alloc);
        for line in text.lines() {
            if is_body(line) {
                if !add_line(self.alloc, &mut body, line)? {
                    return Ok(Some(line));
                }
            } else if !line.is_empty() && !line.starts_with('#') {
                if !self.act(program, head, body.as_slice())? {
                    return Ok(Some(head));
                }
                head = line;
                body.clear();
            }
        }
        Ok(if self.act(program, head, body.as_slice())? {
            None
        } else {
            Some(head)
        })
    }

    /// Whether something was called, and each call was told of.
    pub fn is_over(&self) -> bool {
        self.status.is_some() && !self.is_open
    }

    /// Appends where the case failed, and what its last call gave.
    pub fn tell(&self, head: &str, report: &mut String) -> Result<(), NoMemory> {
        writeln!(report, "FAILED at: {head}")?;
        if let Some(status) = self.status {
            writeln!(report, "Its last call gave {status} and printed:")?;
        }
        if let Ok(text) = str::from_utf8(self.out.bytes()) {
            report.push_str(text)?;
        }
        Ok(())
    }

    // Does what an entry says, and answers whether it can be read and is met. The empty head is that of
    // what stands above the first.
    fn act<P: Program>(&mut self, program: &P, head: &str, body: &[u8]) -> Result<bool, NoMemory> {
        let (word, rest) = head.split_once(' ').unwrap_or((head, ""));
        match word {
            "" => Ok(head.is_empty() && body.is_empty()),
            "call" => Ok(body.is_empty() && self.call(program, rest)?),
            _ if rest.is_empty() => Ok(false),
            "file" => self.hold(rest, body),
            "image" => {
                let file = image_file(self.alloc, body)?;
                self.hold(rest, file.as_slice())
            }
            "gives" => Ok(self.gives(rest, body)),
            "holds" => Ok(self.held(rest)? == Some(body)),
            "sums" => Ok(body.is_empty() && self.sums(rest)?),
            "lines" => self.lines(rest, body),
            "lacks" => Ok(body.is_empty() && self.held(rest)?.is_none()),
            _ => Ok(body.is_empty() && self.prepare(head)?),
        }
    }

    fn hold(&mut self, name: &str, bytes: &[u8]) -> Result<bool, NoMemory> {
        let name = String::from_str(self.alloc, name)?;
        let bytes = ByteList::from_vec(bytes.to_vec(self.alloc)?);
        self.files.hold(&name, &bytes)?;
        Ok(true)
    }

    fn held(&self, name: &str) -> Result<Option<&[u8]>, NoMemory> {
        let name = String::from_str(self.alloc, name)?;
        Ok(self.files.held(&name))
    }

    // Whether a name holds so many lines with this digest: `LINES DIGEST NAME`.
    fn sums(&self, rest: &str) -> Result<bool, NoMemory> {
        let Some((lines, digest, name)) = two_words(rest) else {
            return Ok(false);
        };
        match self.held(name)? {
            Some(file) => has_sum(self.alloc, file, lines, digest),
            None => Ok(false),
        }
    }

    // Whether these lines of what a name holds are the body: `FIRST LAST NAME`.
    fn lines(&self, rest: &str, body: &[u8]) -> Result<bool, NoMemory> {
        let Some((first, last, name)) = two_words(rest) else {
            return Ok(false);
        };
        match self.held(name)? {
            Some(file) => has_lines(self.alloc, file, first, last, body),
            None => Ok(false),
        }
    }

    // Makes a call of the files, or a put of the next call's sink, fail, or makes room in that sink.
    fn prepare(&mut self, head: &str) -> Result<bool, NoMemory> {
        let Some((what, digits)) = head.rsplit_once(' ') else {
            return Ok(false);
        };
        let Ok(number) = digits.parse::<u64>() else {
            return Ok(false);
        };
        match what {
            "failing files" => self.files.fail(number)?,
            "failing sink" => self.next_out.fail(number)?,
            "reserve sink" => self.next_out.reserve(number as usize)?,
            _ => return Ok(false),
        }
        Ok(true)
    }

    // The call of these words, if they can be read and the call before was told of.
    fn call<P: Program>(&mut self, program: &P, text: &str) -> Result<bool, NoMemory> {
        let Some(words) = words(self.alloc, text)? else {
            return Ok(false);
        };
        if self.is_open {
            return Ok(false);
        }
        self.out = mem::replace(&mut self.next_out, MemSink::new(self.alloc));
        self.status = Some(program.call(self.alloc, &words, &mut self.files, &mut self.out));
        self.is_open = true;
        Ok(true)
    }

    // Whether the last call gave this, and nothing told of it before: `STATUS HOW`.
    fn gives(&mut self, rest: &str, body: &[u8]) -> bool {
        let was_open = mem::replace(&mut self.is_open, false);
        let (digits, how) = rest.split_once(' ').unwrap_or((rest, ""));
        let status = digits.parse::<u8>().ok();
        was_open && status.is_some() && self.status == status && self.printed(how, body)
    }

    // Whether the last call printed the body, a part of it, or so many bytes.
    fn printed(&self, how: &str, body: &[u8]) -> bool {
        let out = self.out.bytes();
        match how.split_once(' ') {
            None if how.is_empty() => out == body,
            None => how == "part" && !out.is_empty() && out != body && body.starts_with(out),
            Some(("bytes", count)) => body.is_empty() && count.parse() == Ok(out.len() as u64),
            Some(_) => false,
        }
    }
}
