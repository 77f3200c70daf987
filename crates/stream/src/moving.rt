// Lines out and records in, by a writer's write and a reader's read. A call that was interrupted is made again; any
// other that fails is told in the answer [E17]. No contract can say what the system's calls did; these say what becomes
// of the window, in the words of specs/Exchange.
ghost use Rattle.std.specs.Prelude.{◌≡◌, ◌+◌, ◌≤◌, ◌<◌, length, take, drop};
ghost use Rattle.std.specs.Io.{ReadsAtMost};
ghost use Rattle.stream.specs.Exchange.{Room, Ready, Refilled, Exchanged};

use crate::{Failure, Front, Pass, Stream};
use std::io;
use std::io::{ErrorKind, Read, Write};

// One read, made again where it is interrupted. Nothing says that this ends, so the tries are counted, up to a number
// that no run uses up.
fn read_again<R: Read>(from: &mut R, room: &mut [u8]) -> io::Result<usize>
    ensures { ReadsAtMost result room.new }
{
    for _ in 0..u64::MAX {
        match from.read(room) {
            Ok(got) => return Ok(got),
            Err(error) => {
                if error.kind() != ErrorKind::Interrupted {
                    return Err(error);
                }
            }
        }
    }
    Err(io::Error::from(ErrorKind::Interrupted))
}

// Writes all of a text, by as many calls as that takes, each made again where it is interrupted, and answers whether
// that went well; a call that takes nothing has failed.
fn send<W: Write>(to: &mut W, text: &[u8]) -> bool {
    to.write_all(text).is_ok()
}

// Moves bytes from an index on to the front.
#[tactic(auto, using(crate::proofs::Sliding::slid_front))]
fn slide(input: &mut [u8], from: usize, count: usize)
    requires { from + count ≤ length input.old }
    ensures { take count input.new ≡ take count (drop from input.old) }
{
    input.copy_within(from..from + count, 0);
}

// Moves the unread bytes to the front and reads once after them.
fn refill<R: Read>(from: &mut R, input: &mut [u8], at: usize, have: usize) -> Stream
    requires { Room input.old at have }
    ensures { Refilled input.old at have input.new result }
{
    let left = have - at;
    slide(input, at, left);
    let Ok(more) = read_again(from, &mut input[left..]) else {
        return Stream {
            at: 0,
            have: left,
            ended: false,
            end: Some(Err(Failure::Unread)),
        };
    };
    Stream {
        at: 0,
        have: left + more,
        ended: more == 0,
        end: None,
    }
}

// Writes the lines of a pass out and, where the pass stopped at a record that waits for more input, reads on.
// Lines are written before more is read, so that none waits while the input does, and a read that fails loses
// none. [E16] [E17]
pub fn exchange<R: Read, W: Write>(
    from: &mut R,
    to: &mut W,
    input: &mut [u8],
    text: &[u8],
    stream: Stream,
    pass: Pass,
) -> Stream
    requires { Ready input.old text.now stream pass }
    ensures { Exchanged input.old stream pass input.new result }
{
    let at = stream.at + pass.consumed;
    let have = stream.have;
    let ended = stream.ended;
    let bytes = pass.bytes;
    if !send(to, &text[..bytes]) {
        return Stream {
            at,
            have,
            ended,
            end: Some(Err(Failure::Unwritten)),
        };
    }
    match pass.front {
        Front::Short => refill(from, input, at, have),
        Front::Record => Stream {
            at,
            have,
            ended,
            end: None,
        },
        Front::Over => Stream {
            at,
            have,
            ended,
            end: Some(Ok(())),
        },
    }
}
