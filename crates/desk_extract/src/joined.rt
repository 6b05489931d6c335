// The bytes of a file dump's packets, joined.
// Kept as two parameters: an output and a target or a name. Numbers and texts take the output alone, which a struct of both would have to lend on.
ghost use Rattle.std.specs.Prelude.{◌≡◌, ◌+◌, ◌%◌};
ghost use Rattle.desk_extract.specs.Joined.{is_next};

use desk_io::output::Target;
use desk_io::{names, output};
use desk_print::output::{Output, end_line};
use desk_print::{number, say, units};
use messages::file_dump::FileDumpMsg;
use messages::system_exclusive::UniversalNonRealTimeMsg;

// How a file dump ended: by its end, by another dump, by a cancel, by a missing packet, by a write that failed.
#[derive(Clone, Copy, Debug, PartialEq, Eq)]
pub enum End {
    Ended,
    Cut,
    Cancelled,
    Missing(u64),
    Unwritten,
}

// How many bytes are joined, how many a header said, the number of the last packet, and how the dump ended.
#[derive(Clone, Copy, Debug, Default, PartialEq, Eq)]
pub struct Joined {
    pub total: u64,
    pub said: Option<u64>,
    pub last: Option<u64>,
    pub end: Option<End>,
}

// The number of the packet behind another.
fn next_number(last: u64) -> u64
    ensures { result ≡ (last + 1) % 128 }
{
    last.wrapping_add(1) % 128
}

// Whether a packet may follow the last one; any may be the first, or behind a number that no packet has.
fn is_next(last: Option<u64>, number: u64) -> bool
    ensures { result ≡ is_next last number }
{
    match last {
        Some(n) if n < 128 => next_number(n) == number,
        _ => true,
    }
}

impl Joined {
    // A header: the first message, or another dump.
    fn header(&mut self, length: u64) {
        if self.said.is_some() || self.last.is_some() {
            self.end = Some(End::Cut);
        } else {
            self.said = Some(length);
        }
    }

    // Writes a packet's bytes, where it is the next one; a packet that is sent again is passed over.
    fn packet(&mut self, out: &mut Output, to: &mut Target, number: u64, data: &[u8]) {
        if self.last == Some(number) {
            return;
        }
        if !is_next(self.last, number) {
            self.end = self.last.map(|last| End::Missing(next_number(last)));
        } else if output::write(out, to, data) {
            self.total = self.total.saturating_add(data.len() as u64);
            self.last = Some(number);
        } else {
            self.end = Some(End::Unwritten);
        }
    }

    // A message of a file dump.
    fn file(&mut self, out: &mut Output, to: &mut Target, m: FileDumpMsg, data: &[u8]) {
        match m {
            FileDumpMsg::Header { length, .. } => self.header(length as u64),
            FileDumpMsg::Packet { running_count } => self.packet(
                out,
                to,
                running_count as u64,
                data,
            ),
            FileDumpMsg::Request { .. } => {}
        }
    }

    // A message of the stream.
    pub fn message(
        &mut self,
        out: &mut Output,
        to: &mut Target,
        m: UniversalNonRealTimeMsg,
        data: &[u8],
    ) {
        match m {
            UniversalNonRealTimeMsg::FileDump(x) => self.file(out, to, x, data),
            UniversalNonRealTimeMsg::EOF => self.end = Some(End::Ended),
            UniversalNonRealTimeMsg::Cancel => self.end = Some(End::Cancelled),
            _ => {}
        }
    }

    // Whether no message is wanted any more.
    pub fn is_done(&self) -> bool {
        self.end.is_some()
    }

    // Whether as many bytes are joined as the header said; without a header, whether the dump has its end.
    fn is_full(&self, has_end: bool) -> bool {
        match self.said {
            Some(said) => self.total == said,
            None => has_end,
        }
    }

    // Whether the file is whole.
    pub fn is_whole(&self) -> bool {
        match self.end {
            None | Some(End::Cut | End::Cancelled) => self.is_full(false),
            Some(End::Ended) => self.is_full(true),
            Some(End::Missing(_) | End::Unwritten) => false,
        }
    }

    // Puts how a dump broke off, and after how many bytes.
    fn put_broken(&self, out: &mut Output, how: &[u8]) {
        say(out, how);
        units(out, self.total, b"byte");
    }

    // Puts why the file is not whole.
    fn put_reason(&self, out: &mut Output) {
        match self.end {
            Some(End::Missing(n)) => {
                say(out, b"packet ");
                number(out, n);
                say(out, b" of the file dump is missing");
            }
            Some(End::Unwritten) => say(out, b"could not be written out"),
            Some(End::Cancelled) => self.put_broken(out, b"the file dump is cancelled after "),
            _ => self.put_broken(out, b"the file dump is cut after "),
        }
    }

    // Says why the file is not whole, and that none is left; what went to standard output cannot be taken back.
    pub fn explain(&self, out: &mut Output, path: &[u8], to: &[u8]) {
        names::begin_line(out, path);
        self.put_reason(out);
        if names::is_dash(to) {
            say(out, b"; what is written is not whole");
        } else {
            say(out, b"; nothing is left");
        }
        end_line(out);
    }
}
