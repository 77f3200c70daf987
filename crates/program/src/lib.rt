// What the programs of the gate that print a list have in common: order records from standard input, the lines of each
// to standard output. They are thin over `lists::list_all`, as the commands of the C host are over the C functions
// (host/command.c), tell a failure in one line as they do, and end with the same statuses. [E4] [X10]
#![tactic(auto)]

ghost use Rattle.std.specs.Prelude.{◌≡◌, IfOk, Ok};

use lists::Which;
use std::io;
use std::io::{ErrorKind, Read, Write};
use std::process::ExitCode;
use stream::Failure;

// A stream that remembers why a call of it failed: list_all answers that reading or writing failed, and not why. An
// interrupted call is made again, so it has not failed.
#[derive(Drop)]
struct Told<S> {
    stream: S,
    failure: Option<io::Error>,
}

impl<S> Told<S> {
    fn new(stream: S) -> Told<S> {
        Told {
            stream,
            failure: None,
        }
    }

    // What a call gave, with the reason of a failure kept.
    fn told(&mut self, given: io::Result<usize>) -> io::Result<usize>
        ensures { IfOk result (λ n. given ≡ Ok n) }
    {
        let Err(error) = given else {
            return given;
        };
        let kind = error.kind();
        if kind != ErrorKind::Interrupted {
            self.failure = Some(error);
        }
        Err(io::Error::from(kind))
    }
}

impl<S: Read> Read for Told<S> {
    fn read(&mut self, buf: &mut [u8]) -> io::Result<usize> {
        let given = self.stream.read(buf);
        self.told(given)
    }
}

impl<S: Write> Write for Told<S> {
    fn write(&mut self, buf: &[u8]) -> io::Result<usize> {
        let given = self.stream.write(buf);
        self.told(given)
    }

    fn flush(&mut self) -> io::Result<()> {
        self.stream.flush()
    }
}

// A line on standard error: what failed, and the system's reason. A write that takes no byte has none.
fn tell(rt: &HostRuntime, what: &str, failure: Option<io::Error>) {
    let _ = match failure {
        Some(error) => eprintln!(rt; "{what}: {error}"),
        None => eprintln!(rt; "{what}: no byte was taken"),
    };
}

// Lists standard input to standard output, and tells what failed in the words given for reading and for writing. The
// status is 0 where all was listed, 1 where reading failed and 2 where writing failed.
pub fn list_input(rt: &HostRuntime, which: Which, unread: &str, unwritten: &str) -> ExitCode {
    let mut from = Told::new(rt.stdin());
    let mut to = Told::new(rt.stdout());
    let listed = lists::list_all(which, &mut from, &mut to);
    match listed {
        Ok(()) => {}
        Err(Failure::Unread) => tell(rt, unread, from.failure),
        Err(Failure::Unwritten) => tell(rt, unwritten, to.failure),
    }
    ExitCode::from(lists::status(listed) as u8)
}
